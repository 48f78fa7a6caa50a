ghost use Rattle.std.specs.Prelude.{◌≡◌, ◌<◌, length, true, OnOk, OnErr};
ghost use Rattle.hj_core.specs.Rows.{row_message};
ghost use Rattle.hj_chain.specs.Chain.{Contents, FeedAnswer};
ghost use Rattle.hj_chain.specs.Steps.{IsGoing, StepsTo};
ghost use Rattle.hj_chain.specs.Taken.{HasTaken, TurnsTo};

use super::Chain;
use crate::{Actor, NotNow, Stepped};
use hj_base::{CoreNo, EventNo, Gate, Memory, Share, Side};
use hj_core::row_message;
use hj_msg::{Join, Msg, Store};

impl<P: Share + Drop, J: Join<P> + Drop, S: Store<P, J> + Drop> Chain<P, J, S> {
    /// Lets a core handle the first message that comes in at one of its ends. It passes the gate before, with the number of steps
    /// that were made before.
    #[inline(always)]
    pub(super) fn turn<G: Gate>(&mut self, core: CoreNo, end: Side, gate: &G, made: u64) -> Stepped
        requires { IsGoing J.predicate self.old }
        ensures step { (answer : FeedAnswer P) → StepsTo (J.predicate self.old.join) (Actor.Core core end) answer self.old.state result self.new.state }
        ensures others { self.new ≡ record self.old { state = self.new.state } }
    {
        if usize::from(core.0) >= self.cores.len() {
            return Stepped::NotEnabled(NotNow::NoSuchCore);
        }
        self.turn_there(core, end, gate, made)
    }

    /// Lets a core that is there handle the first message that comes in at one of its ends, as `turn` does.
    // The message is taken before its core looks at it, so that its place is found once. Where there is no memory for it, it is put back.
    #[inline(always)]
    pub(super) fn turn_there<G: Gate>(
        &mut self,
        core: CoreNo,
        end: Side,
        gate: &G,
        made: u64,
    ) -> Stepped
        requires going { IsGoing J.predicate self.old }
        requires within { core.0 < length self.old.state.cores }
        ensures step { (answer : FeedAnswer P) → StepsTo (J.predicate self.old.join) (Actor.Core core end) answer self.old.state result self.new.state }
        ensures others { self.new ≡ record self.old { state = self.new.state } }
    {
        let place = usize::from(core.0);
        if self.links.incoming(place, end).is_none() {
            return Stepped::NotEnabled(NotNow::Empty);
        }
        if self.reports.is_queue_full(place) {
            return Stepped::NotEnabled(NotNow::ReportsFull);
        }
        let Some(msg) = self.links.take_in(place, end) else {
            unreachable!()
        };
        gate.pass(core, made);
        self.handle_taken(core, end, msg)
    }

    /// Lets a core handle a message that was taken at one of its ends, which mostly passes through it.
    #[inline(always)]
    fn handle_taken(&mut self, core: CoreNo, end: Side, msg: Msg<P>) -> Stepped
        requires taken { (before : Contents P J) × HasTaken J.predicate core end msg before self.old }
        ensures step { TurnsTo J.predicate core end msg self.old result self.new }
        ensures others { self.new ≡ record self.old { state = self.new.state } }
    {
        let place = usize::from(core.0);
        let Some(way) = self.cores[place].handle_passing(&msg) else {
            return stepped(self.handle_whole(core, end, msg));
        };
        self.links.carry(place, way, msg);
        Stepped::Did
    }

    /// Lets a core handle a message that was taken at one of its ends, and that doesn't only pass through it.
    #[inline(always)]
    fn handle_whole(&mut self, core: CoreNo, end: Side, msg: Msg<P>) -> Result<(), Memory>
        requires taken { (before : Contents P J) × HasTaken J.predicate core end msg before self.old }
        ensures did { OnOk result (TurnsTo J.predicate core end msg self.old Stepped.Did self.new) }
        ensures memory { OnErr result (TurnsTo J.predicate core end msg self.old Stepped.Memory self.new) }
        ensures others { self.new ≡ record self.old { state = self.new.state } }
    {
        match msg {
            Msg::R { no, row } => self.handle_row::<true>(core, end, no, row),
            Msg::S { no, row } => self.handle_row::<false>(core, end, no, row),
            msg => self.handle_other(core, end, msg),
        }
    }

    /// Lets a core handle a message that was taken at one of its ends, and that is no row.
    // Only here is the message laid down in memory, to be handed over.
    #[inline(always)]
    fn handle_other(&mut self, core: CoreNo, end: Side, msg: Msg<P>) -> Result<(), Memory>
        requires taken { (before : Contents P J) × HasTaken J.predicate core end msg before self.old }
        ensures did { OnOk result (TurnsTo J.predicate core end msg self.old Stepped.Did self.new) }
        ensures memory { OnErr result (TurnsTo J.predicate core end msg self.old Stepped.Memory self.new) }
        ensures others { self.new ≡ record self.old { state = self.new.state } }
    {
        self.handle(core, end, msg)
    }

    /// Lets a core handle a left row, or a right one, that was taken at one of its ends.
    // Called, so that the sweep over the actors stays small.
    #[inline(never)]
    fn handle_row<const IS_LEFT: bool>(
        &mut self,
        core: CoreNo,
        end: Side,
        no: EventNo,
        row: P,
    ) -> Result<(), Memory>
        requires taken { (before : Contents P J) × HasTaken J.predicate core end (row_message IS_LEFT no row) before self.old }
        ensures did { OnOk result (TurnsTo J.predicate core end (row_message IS_LEFT no row) self.old Stepped.Did self.new) }
        ensures memory { OnErr result (TurnsTo J.predicate core end (row_message IS_LEFT no row) self.old Stepped.Memory self.new) }
        ensures others { self.new ≡ record self.old { state = self.new.state } }
    {
        let place = usize::from(core.0);
        let Ok(report) = self.cores[place].handle_row::<IS_LEFT>(no, &row) else {
            self.give_up(core, end, row_message::<IS_LEFT, P>(no, row));
            return Err(Memory);
        };
        self.links
            .send_row::<IS_LEFT>(place, self.cores.len(), no, row);
        self.reports.put(place, Some(report));
        Ok(())
    }

    /// Lets a core handle a message that was taken at one of its ends, whatever it is.
    // Called, so that the sweep over the actors stays small.
    #[inline(never)]
    fn handle(&mut self, core: CoreNo, end: Side, msg: Msg<P>) -> Result<(), Memory>
        requires taken { (before : Contents P J) × HasTaken J.predicate core end msg before self.old }
        ensures did { OnOk result (TurnsTo J.predicate core end msg self.old Stepped.Did self.new) }
        ensures memory { OnErr result (TurnsTo J.predicate core end msg self.old Stepped.Memory self.new) }
        ensures others { self.new ≡ record self.old { state = self.new.state } }
    {
        let place = usize::from(core.0);
        let Ok(entry) = self.cores[place].handle(&msg) else {
            self.give_up(core, end, msg);
            return Err(Memory);
        };
        self.links.send_on(place, self.cores.len(), msg);
        self.reports.put(place, entry);
        Ok(())
    }

    /// Ends the chain where there is no memory for the step of a core that took a message: the message is put back.
    #[cold]
    fn give_up(&mut self, core: CoreNo, end: Side, msg: Msg<P>)
        requires taken { (before : Contents P J) × HasTaken J.predicate core end msg before self.old }
        ensures { (before : Contents P J) → HasTaken J.predicate core end msg before self.old → self.new ≡ record before { state = record before.state { over = true } } }
    {
        self.links.put_back(usize::from(core.0), end, msg);
        self.over = true;
    }
}

/// Returns what a step answers that was made if there was memory for it.
#[inline(always)]
fn stepped(made: Result<(), Memory>) -> Stepped
    ensures did { OnOk made (result ≡ Stepped.Did) }
    ensures memory { OnErr made (result ≡ Stepped.Memory) }
{
    match made {
        Ok(()) => Stepped::Did,
        Err(Memory) => Stepped::Memory,
    }
}
