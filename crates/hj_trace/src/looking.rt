ghost use Rattle.std.specs.Prelude.{◌≡◌};
ghost use Rattle.std.specs.Option.{option_map};
ghost use Rattle.hj_chain.specs.Chain.{action_of};
ghost use Rattle.hj_trace.specs.StepAction.{action_in};

use crate::StepAction;
use hj_base::{Share, Side};
use hj_chain::{Actor, Chain};
use hj_msg::{Given, Join, Store};

/// Returns what an actor of a chain does in its next step, if it finds something to do.
pub fn next_action<'a, P: Share + Drop, J: Join<P> + Drop, S: Store<P, J> + Drop>(
    chain: &'a Chain<P, J, S>,
    actor: Actor,
) -> Option<StepAction<'a, P>>
    ensures { option_map action_in result ≡ action_of chain.now.state actor }
{
    match actor {
        Actor::Admit => Some(match chain.next_given() {
            None => StepAction::Asks,
            Some(Given::Event(event)) => StepAction::Admits(event),
            Some(Given::Stop) => StepAction::Closes,
        }),
        Actor::PortLeft => Some(StepAction::Receives(Side::Left, chain.first_message(actor)?)),
        Actor::PortRight => Some(StepAction::Receives(Side::Right, chain.first_message(actor)?)),
        Actor::Core(core, end) => Some(StepAction::Handles(core, end, chain.first_message(actor)?)),
        Actor::Collect(core) => Some(StepAction::Collects(core, chain.first_report(core)?)),
    }
}
