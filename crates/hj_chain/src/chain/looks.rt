ghost use Rattle.std.specs.Prelude.{◌≡◌, ◌≤◌, length};
ghost use Rattle.std.specs.Option.{option_copied};
ghost use Rattle.hj_chain.specs.Chain.{action_of, first};
ghost use Rattle.hj_chain.specs.Looks.{last, message_taken};
ghost use Rattle.hj_chain.specs.Reports.{queue_at};

use super::Chain;
use crate::Actor;
use hj_base::{CoreNo, Share, Side};
use hj_msg::{Given, Join, Msg, Report, Store};

impl<P: Share + Drop, J: Join<P> + Drop, S: Store<P, J> + Drop> Chain<P, J, S> {
    /// Lends the feed's answer that the driver uses next; None where the driver asks the feed first.
    pub fn next_given(&self) -> Option<&Given<P>>
        ensures { option_copied result ≡ self.now.state.next }
    {
        self.next.as_ref()
    }

    /// Returns how many cores the chain has.
    pub fn cores(&self) -> usize
        ensures count { result ≡ length self.now.state.cores }
        ensures few { result ≤ 64 }
    {
        self.cores.len()
    }

    /// Lends the message that an actor takes in its next step; None where there is none, and for an actor that takes no message.
    pub fn first_message(&self, actor: Actor) -> Option<&Msg<P>>
        ensures { option_copied result ≡ message_taken (action_of self.now.state actor) }
    {
        match actor {
            Actor::Admit | Actor::Collect(_) => None,
            Actor::PortLeft => self.links.outgoing(Side::Left, self.cores.len()),
            Actor::PortRight => self.links.outgoing(Side::Right, self.cores.len()),
            Actor::Core(core, end) => self.links.incoming_if_there(usize::from(core.0), end),
        }
    }

    /// Lends the first report of a core that waits to be collected, if one does.
    pub fn first_report(&self, core: CoreNo) -> Option<&Report<P>>
        ensures { option_copied result ≡ first (queue_at self.now.state.reports core.0) }
    {
        self.reports.first(usize::from(core.0))
    }

    /// Lends the last report of a core that waits to be collected, if one does.
    pub fn last_report(&self, core: CoreNo) -> Option<&Report<P>>
        ensures { option_copied result ≡ last (queue_at self.now.state.reports core.0) }
    {
        self.reports.last(usize::from(core.0))
    }

    /// Returns how many reports of a core wait to be collected.
    pub fn reports_waiting(&self, core: CoreNo) -> usize
        ensures { result ≡ length (queue_at self.now.state.reports core.0) }
    {
        self.reports.waiting(usize::from(core.0))
    }
}
