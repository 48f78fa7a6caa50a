//! A core at its ends: it handles a message that was taken, and what it makes of it is put.
ghost use Rattle.std.specs.Prelude.{◌≡◌};
ghost use Rattle.hj_core.specs.Contents.{state_of};
ghost use Rattle.hj_core.specs.Rows.{row_message};

use crate::ends::WorkerEnds;
use crate::hand::Hand;
use hj_base::{EventNo, Memory, Share};
use hj_core::{Core, row_message};
use hj_msg::{Join, Msg, Store};

/// A core, its ends, and what is in hand.
#[derive(Drop)]
pub struct Station<P: Drop, J: Join<P>, S: Store<P, J>> {
    pub(crate) core: Core<P, J, S>,
    pub(crate) ends: WorkerEnds<P>,
    pub(crate) hand: Hand<P>,
}

impl<P: Share + Drop, J: Join<P> + Drop, S: Store<P, J> + Drop> Station<P, J, S> {
    ghost use Rattle.hj_worker.specs.declared.hand.Hand.TheVariants.{Nothing};
    ghost use Rattle.hj_worker.specs.Handled.{HandlesMessage};

    /// Lets the core handle a message, and puts what it sends and reports of it, in order, up to the first full place. What isn't put
    /// is in hand afterwards. Where memory ran out nothing was put, and the message is in hand.
    #[inline(always)]
    pub(crate) fn handle(&mut self, turn: u64, message: Msg<P>) -> Result<(), Memory>
        requires { self.old.hand ≡ Nothing }
        ensures { HandlesMessage J.predicate (state_of S.entries) turn message self.old.core self.new.core self.old.ends self.new.ends self.new.hand result }
    {
        match message {
            Msg::R { no, row } => self.handle_row::<true>(turn, no, row),
            Msg::S { no, row } => self.handle_row::<false>(turn, no, row),
            other => match self.core.handle_passing(&other) {
                Some(way) => {
                    self.ends.pass_on(&mut self.hand, turn, way, other);
                    Ok(())
                }
                None => self.handle_other(turn, other),
            },
        }
    }

    /// Does what `handle` does, for a left row or for a right one.
    // Called, so that a turn in which a message is only passed on stays small.
    #[inline(never)]
    fn handle_row<const IS_LEFT: bool>(
        &mut self,
        turn: u64,
        no: EventNo,
        row: P,
    ) -> Result<(), Memory>
        requires { self.old.hand ≡ Nothing }
        ensures { HandlesMessage J.predicate (state_of S.entries) turn (row_message IS_LEFT no row) self.old.core self.new.core self.old.ends self.new.ends self.new.hand result }
    {
        let Ok(report) = self.core.handle_row::<IS_LEFT>(no, &row) else {
            self.hand = Hand::Refused(row_message::<IS_LEFT, P>(no, row));
            return Err(Memory);
        };
        let sends = self
            .core
            .answer(row_message::<IS_LEFT, P>(no, row), Some(report));
        self.ends.put_made(&mut self.hand, turn, sends);
        Ok(())
    }

    /// Does what `handle` does, for any message.
    // Called, since few messages come here.
    #[inline(never)]
    fn handle_other(&mut self, turn: u64, message: Msg<P>) -> Result<(), Memory>
        requires { self.old.hand ≡ Nothing }
        ensures { HandlesMessage J.predicate (state_of S.entries) turn message self.old.core self.new.core self.old.ends self.new.ends self.new.hand result }
    {
        let Ok(entry) = self.core.handle(&message) else {
            self.hand = Hand::Refused(message);
            return Err(Memory);
        };
        let sends = self.core.answer(message, entry);
        self.ends.put_made(&mut self.hand, turn, sends);
        Ok(())
    }
}
