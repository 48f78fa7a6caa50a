//! How a thread waits that finds nothing to do.
use crate::bell::{Awaits, Bell};
use std::hint::spin_loop;
use std::sync::Wait;
use std::thread::yield_now;
use std::time::{Clock, Duration, Instant};

/// How often in a row a thread that finds nothing lets others run, before it sleeps.
const YIELDS: u32 = 64;

/// How many hints that it waits it gives the processor before each of them. Meanwhile more may come, and who puts it
/// isn't disturbed by a look.
const HINTS: u32 = 20;

/// After how many microseconds, or more, a thread that gets the processor back has given it to another program.
const LATE: u64 = 500;

/// In how many waits after that it doesn't let others run, but sleeps at once. Where it is late again behind them it
/// sleeps at once in twice as many, up to a bound.
const FEWEST_PARKS: u32 = 32;

const MOST_PARKS: u32 = 4096;

/// How often in a row it gets the processor back in time before it takes the other programs to be gone.
const TIMELY: u32 = 64;

/// After how many microseconds, or more, a sleep is long where the others have little to do: then they didn't get a processor.
const LONG: u64 = 1000;

/// How many late returns and long sleeps say that other programs want the processors, where they take so large a part of
/// the time since the first of them: one in so many.
const DELAYS: u32 = 32;

const PART: u32 = 4;

/// What a thread does that found nothing to do.
#[derive(Drop)]
pub(crate) struct Pause<'b> {
    bell: &'b Bell,
    /// How often in a row it let others run.
    yields: u32,
    /// Whether its bell says that it waits. Then it has looked once more, and sleeps where it still found nothing.
    is_set: bool,
    /// In how many waits to come it sleeps at once.
    parks: u32,
    /// In how many it does so the next time that it is late.
    next_parks: u32,
    /// How often in a row it got the processor back in time.
    timely: u32,
    delays: Delays,
}

/// Late returns and long sleeps that follow one another closely.
#[derive(Drop)]
struct Delays {
    count: u32,
    /// When the first of them began.
    since: Option<Instant>,
    /// How long they took together.
    lost: Duration,
}

impl Delays {
    fn new() -> Self {
        Delays {
            count: 0,
            since: None,
            lost: Duration::from_micros(0),
        }
    }

    /// Adds one that began then and took so long. Where those before it took too small a part of the time it is the first.
    fn add<R: Clock>(&mut self, rt: &R, begun: Instant, took: Duration) {
        if !self.are_dense(rt) {
            self.count = 0;
            self.since = Some(begun);
            self.lost = Duration::from_micros(0);
        }
        self.count = self.count.saturating_add(1);
        self.lost = self.lost.saturating_add(took);
    }

    /// Returns whether they took a large part of the time since the first of them.
    fn are_dense<R: Clock>(&self, rt: &R) -> bool {
        match self.since {
            Some(since) => since
                .elapsed(rt)
                .map_or(false, |time| self.lost.saturating_mul(PART) >= time),
            None => false,
        }
    }
}

impl<'b> Pause<'b> {
    /// Makes a pause that a bell ends. Its thread is awake.
    pub(crate) fn new(bell: &'b Bell) -> Self {
        bell.set(Awaits::Nothing);
        Pause {
            bell,
            yields: 0,
            is_set: false,
            parks: 0,
            next_parks: FEWEST_PARKS,
            timely: 0,
            delays: Delays::new(),
        }
    }

    /// Notes that there was something to do.
    pub(crate) fn reset(&mut self) {
        self.yields = 0;
        if self.is_set {
            self.bell.set(Awaits::Nothing);
            self.is_set = false;
        }
    }

    /// Waits where nothing was found: lets others run; after some such calls says what is waited for; and where then
    /// still nothing was found, sleeps until the bell rings.
    pub(crate) fn wait<R: Wait + Clock>(&mut self, rt: &R, awaits: Awaits) {
        if self.is_set {
            self.sleep(rt);
            self.reset();
        } else if self.parks == 0 && self.yields < YIELDS {
            self.give_way(rt);
        } else {
            self.parks = self.parks.saturating_sub(1);
            self.bell.set(awaits);
            self.is_set = true;
        }
    }

    /// Returns whether it lost a large part of the time lately, since other programs want the processors.
    pub(crate) fn is_crowded(&self) -> bool {
        self.delays.count >= DELAYS
    }

    /// Sleeps until the bell rings.
    fn sleep<R: Wait + Clock>(&mut self, rt: &R) {
        let begun = Instant::now(rt);
        self.bell.sleep(rt);
        if let Ok(begun) = begun {
            self.note_delay(rt, begun, LONG);
        }
    }

    /// Lets others run. Where that took long, other programs want the processor, and each time would cost as much.
    fn give_way<R: Clock>(&mut self, rt: &R) {
        self.yields = self.yields.saturating_add(1);
        for _ in 0..HINTS {
            spin_loop();
        }
        let begun = Instant::now(rt);
        yield_now();
        let is_late = match begun {
            Ok(begun) => self.note_delay(rt, begun, LATE),
            Err(_) => true,
        };
        self.note_return(is_late);
    }

    /// Notes a wait that began then, where it took so many microseconds or more, and returns whether it did.
    fn note_delay<R: Clock>(&mut self, rt: &R, begun: Instant, least: u64) -> bool {
        let Ok(took) = begun.elapsed(rt) else {
            return true;
        };
        let is_late = took >= Duration::from_micros(least);
        if is_late {
            self.delays.add(rt, begun, took);
        }
        is_late
    }

    /// Notes whether the processor came back late.
    fn note_return(&mut self, is_late: bool) {
        if is_late {
            self.parks = self.next_parks;
            self.next_parks = self.next_parks.saturating_mul(2).min(MOST_PARKS);
            self.timely = 0;
        } else {
            self.timely = self.timely.saturating_add(1);
            if self.timely >= TIMELY {
                self.next_parks = FEWEST_PARKS;
            }
        }
    }
}
