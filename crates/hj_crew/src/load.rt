//! How the calling thread gets on, and how much of its time it has something to do.
use crate::turners::RunLoad;
use std::time::{Clock, Duration, Instant};

/// After how many rounds it looks at the clock, and how many microseconds a period has at least.
const ROUNDS: u32 = 16;

const TIME: u64 = 10_000;

/// How many turns are made at the chain's ends at least in a busy period. Where threads are just started, or are held up, few are.
const TURNS: u64 = 256;

/// How many turns were made at the chain's ends in how much time.
#[derive(Clone, Copy)]
pub(crate) struct Pace {
    turns: u64,
    took: Duration,
}

impl Pace {
    /// Returns whether more turns were made in the same time.
    pub(crate) fn is_above(self, other: Pace) -> bool {
        self.turns_within(other) > other.turns_within(self)
    }

    /// Returns as many turns as were made at this pace in the time of the other one, in a unit that is the same for both of them.
    fn turns_within(self, other: Pace) -> u128 {
        u128::from(self.turns).saturating_mul(other.took.as_micros())
    }
}

/// Measures how the calling thread gets on, and for how long the feed is waited for, in one period of time after another.
#[derive(Drop)]
pub(crate) struct Load {
    /// When the period began, and how many turns had been made then.
    since: Option<Instant>,
    turns: u64,
    /// How many rounds were made since the clock was looked at.
    rounds: u32,
    /// For how long of the period the feed was waited for.
    waited: Duration,
    /// Behind how many busy periods the pace is told, if it is.
    periods: Option<u32>,
}

/// A period of time that is over.
#[derive(Clone, Copy)]
struct Period {
    turns: u64,
    took: Duration,
    waited: Duration,
}

impl Period {
    /// Returns whether there was something to do for more than half of the time, and much was done.
    fn is_busy(self) -> bool {
        self.turns >= TURNS && self.waited.saturating_mul(2) < self.took
    }

    /// Returns whether there was something to do for a quarter of the time at most. Then one thread can do by itself what four did.
    fn is_idle(self) -> bool {
        self.waited.saturating_mul(4) >= self.took.saturating_mul(3)
    }

    /// Returns the pace of what was done while there was something to do.
    fn pace(self) -> Pace {
        Pace {
            turns: self.turns,
            took: self.took.saturating_sub(self.waited),
        }
    }
}

impl Load {
    /// Makes one that tells what is seen, and behind so many busy periods the pace; with None it tells nothing.
    pub(crate) fn new(periods: Option<u32>) -> Self {
        Load {
            since: None,
            turns: 0,
            rounds: 0,
            waited: Duration::from_micros(0),
            periods,
        }
    }

    /// Adds a wait that began then.
    pub(crate) fn add_wait<R: Clock>(&mut self, rt: &R, begun: Instant) {
        if let Ok(took) = begun.elapsed(rt) {
            self.waited = self.waited.saturating_add(took);
        }
    }

    /// Returns whether what is seen is told.
    pub(crate) fn is_told(&self) -> bool {
        self.periods.is_some()
    }

    /// Counts a round, up to which so many turns were made, and returns what is seen of the period that is over with it, where that was
    /// idle, or the last busy one.
    pub(crate) fn end_round<R: Clock>(&mut self, rt: &R, turns: u64) -> Option<RunLoad> {
        let periods = self.periods?;
        let period = self.end_period(rt, turns)?;
        if period.is_idle() {
            return Some(RunLoad::Idle);
        }
        if !period.is_busy() {
            return None;
        }
        if periods > 1 {
            self.periods = Some(periods - 1);
            return None;
        }
        Some(RunLoad::Busy(period.pace()))
    }

    /// Counts a round, and returns the period that is over with it, if one is.
    fn end_period<R: Clock>(&mut self, rt: &R, turns: u64) -> Option<Period> {
        self.rounds = self.rounds.saturating_add(1);
        if self.rounds < ROUNDS {
            return None;
        }
        self.rounds = 0;
        let period = self.period(rt, turns);
        if period.is_some() || self.since.is_none() {
            self.since = Instant::now(rt).ok();
            self.turns = turns;
            self.waited = Duration::from_micros(0);
        }
        period
    }

    /// Returns the period up to now, where it was long enough.
    fn period<R: Clock>(&self, rt: &R, turns: u64) -> Option<Period> {
        let took = self.since?.elapsed(rt).ok()?;
        if took < Duration::from_micros(TIME) {
            return None;
        }
        Some(Period {
            turns: turns.saturating_sub(self.turns),
            took,
            waited: self.waited,
        })
    }
}
