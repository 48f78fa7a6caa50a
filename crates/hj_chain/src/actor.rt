ghost use Rattle.std.specs.Prelude.{◌≡◌, ◌+◌, ◌<◌, ◌≤◌, length, slice_get, Some};
ghost use Rattle.hj_chain.specs.Serial.{actors, place_behind};

use hj_base::{CoreNo, EventNo, Side};
use hj_driver::Why;

/// Who makes a step of the chain.
#[derive(Clone, Copy, Debug, PartialEq, Eq)]
pub enum Actor {
    /// The driver puts the next event's message into the chain, or both closes where no event is to come.
    Admit,
    /// The driver takes the first message that comes out at the left end of the chain.
    PortLeft,
    /// The driver takes the first message that comes out at the right end of the chain.
    PortRight,
    /// Lets a core handle the first message that comes in at one of its ends.
    Core(CoreNo, Side),
    /// The first of a core's reports is taken.
    Collect(CoreNo),
}

impl Actor {
    /// Returns how many actors a chain of this many cores has.
    #[inline(always)]
    pub(crate) fn count(cores: usize) -> usize
        requires { cores ≤ 64 }
        ensures { result ≡ length (actors cores) }
    {
        3 * cores + 3
    }

    /// Returns the actor at a place among those of a chain of this many cores: first the driver's put and its ports,
    /// then the ends of each core, and then the collection of each core's reports.
    #[inline(always)]
    pub(crate) fn at(place: usize, cores: usize) -> Self
        requires few { cores ≤ 64 }
        requires within { place < length (actors cores) }
        ensures actor { slice_get (actors cores) place ≡ Some result }
        ensures behind { place_behind cores result ≡ place + 1 }
    {
        let ends = 2 * cores;
        match place {
            0 => Actor::Admit,
            1 => Actor::PortLeft,
            2 => Actor::PortRight,
            _ if place < ends + 3 => {
                let core = CoreNo(((place - 3) / 2) as u16);
                let end = if place % 2 == 1 {
                    Side::Left
                } else {
                    Side::Right
                };
                Actor::Core(core, end)
            }
            _ => Actor::Collect(CoreNo((place - 3 - ends) as u16)),
        }
    }

    /// Returns the place after this actor's, among those of a chain of this many cores.
    #[inline(always)]
    pub fn place_behind(self, cores: usize) -> usize
        requires { cores ≤ 64 }
        ensures { result ≡ place_behind cores self }
    {
        match self {
            Actor::Admit => 1,
            Actor::PortLeft => 2,
            Actor::PortRight => 3,
            Actor::Core(core, Side::Left) => 2 * usize::from(core.0) + 4,
            Actor::Core(core, Side::Right) => 2 * usize::from(core.0) + 5,
            Actor::Collect(core) => 2 * cores + usize::from(core.0) + 4,
        }
    }
}

/// Why an actor makes no step now.
#[derive(Clone, Copy, Debug, PartialEq, Eq)]
pub enum NotNow {
    /// The next event waits, for this reason.
    Waits(Why),
    /// The closes wait until this many outstanding events have left.
    Drains(u32),
    /// The closes were sent.
    Closed,
    /// There is no message, or no report, to take.
    Empty,
    /// The core has as many reports as its queue holds.
    ReportsFull,
    /// The chain has no core of this number.
    NoSuchCore,
    /// Memory ran out in an earlier step.
    Over,
}

/// The answer of a step.
#[derive(Clone, Copy, Debug, PartialEq, Eq)]
pub enum Stepped {
    Did,
    NotEnabled(NotNow),
    /// Memory ran out. The chain makes no step from now on.
    Memory,
}
