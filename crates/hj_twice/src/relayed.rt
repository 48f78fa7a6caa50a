ghost use Rattle.std.specs.Prelude.{◌≡◌, ◌<◌, ℕ, List, [], ◌∷◌, length, Some};
ghost use Rattle.hj_base.specs.Outside.{unbegun, IsOpen, Starts, Reads, ChangesOnly};

use hj_base::{Got, Opened, Outside, Role};
use hj_held::HeldStream;

/// The streams of a second join: its left one is a relay that stands in memory, its right one the role Third of another outside.
/// Both are open from the start, and no other role can be begun.
#[derive(Drop)]
pub(crate) struct RelayedOutside<'a, O: Outside> {
    pub(crate) relay: &'a mut HeldStream,
    pub(crate) outside: &'a mut O,
}

impl<O: Outside> Outside for RelayedOutside<'_, O> {
    ghost use Rattle.hj_twice.specs.Relayed.{kept_told, relayed_role};

    ghost state = { λ s. relayed_role s.relay.now (O.state s.outside.now) };

    // No name can be begun here. What is told under the names is what the other outside keeps, so that whoever leaves it as it is, as
    // each join does, is known to read of the third stream alone, and to leave the reference in its place.
    ghost under = { λ s name. kept_told s.outside.ghost_name (O.under s.outside.now) (O.state s.outside.now) name };

    fn start(&mut self, _role: Role, _name: &str) -> Opened {
        // There is room for none.
        Opened::Memory
    }

    fn read(&mut self, role: Role, buf: &mut [u8]) -> Got {
        match role {
            Role::Left => self.relay.read(buf),
            Role::Right => self.outside.read(Role::Third, buf),
            Role::Query | Role::SecondQuery | Role::Third | Role::Trace | Role::Output => {
                unreachable!()
            }
        }
    }
}
