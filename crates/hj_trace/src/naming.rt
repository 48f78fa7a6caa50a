ghost use Rattle.std.specs.Prelude.{◌≡◌, true, length, IfSome};
ghost use Rattle.hj_chain.specs.Serial.{IsPlaceWithin, choosing_after, chosen, first_choosing};
ghost use Rattle.hj_trace.specs.Choosing.{choosing_in};

use hj_base::{Lcg, Share};
use hj_chain::{Actor, Chain, Chooser};
use hj_msg::{Join, Store};

/// Names the actor of each step of a run, where the next event is always there.
#[derive(Drop)]
pub enum Naming {
    /// The first enabled one from this place on, all the way round.
    From(usize),
    /// The enabled one that a generator names.
    Drawn(Lcg),
}

impl Naming {
    /// Begins as a rule does.
    pub fn new(chooser: Chooser) -> Self
        ensures { choosing_in result ≡ first_choosing chooser }
    {
        match chooser {
            Chooser::InTurn => Naming::From(0),
            Chooser::Seeded(seed) => Naming::Drawn(Lcg::new(seed)),
        }
    }

    /// Returns the actor of a chain's next step; None where none is enabled.
    pub fn name<P: Share + Drop, J: Join<P> + Drop, S: Store<P, J> + Drop>(
        &mut self,
        chain: &Chain<P, J, S>,
    ) -> Option<Actor>
        requires { IsPlaceWithin (length chain.now.state.cores) (choosing_in self.old) }
        ensures named { result ≡ chosen (choosing_in self.old) true chain.now.state }
        ensures behind { IfSome result (λ actor. choosing_in self.new ≡ choosing_after (length chain.now.state.cores) actor (choosing_in self.old)) }
        ensures within { IsPlaceWithin (length chain.now.state.cores) (choosing_in self.new) }
    {
        match self {
            Naming::From(place) => {
                let actor = chain.first_from(*place, false)?;
                *place = actor.place_behind(chain.cores());
                Some(actor)
            }
            Naming::Drawn(lcg) => chain.drawn(lcg.draw(), false),
        }
    }
}
