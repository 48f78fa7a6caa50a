ghost use Rattle.std.specs.Prelude.{◌≡◌, ◌<◌, ◌+◌, ◌==◌, nat_lt};
ghost use Rattle.hj_msg.specs.Core.{is_home, is_last};
ghost use Rattle.hj_core.specs.Rows.{is_last_of};

use hj_base::{CoreNo, EventNo};
use std::marker::Model;

/// The place of a core among so many. It tells of which events the core is the home: of those whose number modulo the number of cores
/// is its own.
#[derive(Drop)]
pub(crate) struct CorePlace {
    core: CoreNo,
    cores: u16,
    /// The bits of a number that tell its home, where the cores are a power of two; else 0. A division takes long.
    mask: u64,
}

impl Model for CorePlace {
    ghost use Rattle.std.specs.Prelude.{◌<◌};
    ghost use Rattle.hj_core.specs.Homes.{Among, IsMask};

    ghost Value = { Among };

    ghost view = { λ p. record { place = p.core.0; cores = p.cores } };

    ghost invariant = { λ p. record {
      some : 0 < p.cores;
      mask : IsMask p.cores p.mask;
    } };
}

impl CorePlace {
    /// Makes the place of a core among this many.
    pub(crate) fn new(core: CoreNo, cores: u16) -> Self
        requires { 0 < cores }
        ensures { result ≡ record { place = core.0; cores = cores } }
    {
        let power = u64::from(cores).next_power_of_two();
        let mask = if power == u64::from(cores) {
            power - 1
        } else {
            0
        };
        CorePlace { core, cores, mask }
    }

    /// Returns which core it is.
    #[inline(always)]
    pub(crate) fn core(&self) -> CoreNo
        ensures { result.0 ≡ self.now.place }
    {
        self.core
    }

    /// Returns whether the core is the home of an event.
    #[inline(always)]
    pub(crate) fn is_home(&self, no: EventNo) -> bool
        ensures { result ≡ is_home self.now.place self.now.cores no.0 }
    {
        let place = u64::from(self.core.0);
        if self.mask == 0 {
            return no.0 % u64::from(self.cores) == place;
        }
        no.0 & self.mask == place
    }

    /// Returns whether the core is the last one that a left row comes to, or a right one.
    #[inline(always)]
    pub(crate) fn is_last_of<const IS_LEFT: bool>(&self) -> bool
        ensures { result ≡ is_last_of IS_LEFT self.now.place self.now.cores }
    {
        if IS_LEFT {
            self.is_last()
        } else {
            self.is_first()
        }
    }

    #[inline(always)]
    pub(crate) fn is_first(&self) -> bool
        ensures { result ≡ (self.now.place == 0) }
    {
        self.core.0 == 0
    }

    #[inline(always)]
    pub(crate) fn is_last(&self) -> bool
        ensures { result ≡ is_last self.now.place self.now.cores }
    {
        u32::from(self.core.0) + 1 == u32::from(self.cores)
    }

    #[inline(always)]
    pub(crate) fn has_right_neighbour(&self) -> bool
        ensures { result ≡ nat_lt (self.now.place + 1) self.now.cores }
    {
        u32::from(self.core.0) + 1 < u32::from(self.cores)
    }
}
