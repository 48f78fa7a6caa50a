//! Who turns the teams of a run.
use crate::load::Pace;

/// For how many busy periods those that got on faster go on before the others try again, at least and at most.
const FEWEST_PERIODS: u32 = 32;

const MOST_PERIODS: u32 = 256;

/// Who turns the teams of a run.
#[derive(Clone, Copy)]
pub(crate) enum Turners {
    Threads,
    /// The calling thread, all of them.
    Caller,
}

impl Turners {
    fn others(self) -> Self {
        match self {
            Turners::Threads => Turners::Caller,
            Turners::Caller => Turners::Threads,
        }
    }
}

/// What was seen of a run where the calling thread's rounds halted before its end.
#[derive(Clone, Copy)]
pub(crate) enum RunLoad {
    /// Other programs want the processors.
    Crowded,
    /// The feed was waited for most of the time.
    Idle,
    /// There was something to do most of the time, and it was done at this pace.
    Busy(Pace),
}

/// Says who turns the teams of a run. Now and then the others try, and those that get on faster go on.
#[derive(Clone, Copy)]
pub(crate) enum Choice {
    /// These turn them up to the end.
    Last(Turners),
    /// These turn them for so many busy periods of time. Then the others try.
    Settled {
        turners: Turners,
        periods: u32,
    },
    /// These try for a busy period, after the others turned them for so many, in the last one at this pace.
    Trying {
        turners: Turners,
        others: Pace,
        periods: u32,
    },
}

impl Choice {
    /// Makes the choice at the begin of a run: threads, for one period.
    pub(crate) fn new() -> Self {
        Choice::Settled {
            turners: Turners::Threads,
            periods: 1,
        }
    }

    pub(crate) fn turners(self) -> Turners {
        match self {
            Choice::Last(turners)
            | Choice::Settled { turners, .. }
            | Choice::Trying { turners, .. } => turners,
        }
    }

    /// Returns behind how many busy periods it is chosen anew; None where it isn't.
    pub(crate) fn periods(self) -> Option<u32> {
        match self {
            Choice::Last(_) => None,
            Choice::Settled { periods, .. } => Some(periods),
            Choice::Trying { .. } => Some(1),
        }
    }

    /// Chooses anew by what was seen.
    pub(crate) fn after(self, seen: RunLoad) -> Self {
        match seen {
            RunLoad::Crowded => Choice::Last(Turners::Caller),
            RunLoad::Idle => Choice::Settled {
                turners: Turners::Caller,
                periods: 1,
            },
            RunLoad::Busy(pace) => self.after_busy(pace),
        }
    }

    /// Chooses anew behind a busy period of this pace.
    fn after_busy(self, pace: Pace) -> Self {
        match self {
            Choice::Last(_) => self,
            Choice::Settled { turners, periods } => Choice::Trying {
                turners: turners.others(),
                others: pace,
                periods,
            },
            Choice::Trying {
                turners,
                others,
                periods,
            } => Choice::Settled {
                turners: if pace.is_above(others) {
                    turners
                } else {
                    turners.others()
                },
                periods: periods
                    .saturating_mul(2)
                    .max(FEWEST_PERIODS)
                    .min(MOST_PERIODS),
            },
        }
    }
}
