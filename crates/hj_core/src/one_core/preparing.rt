ghost use Rattle.std.specs.Prelude.{◌≡◌, Some, IfOk};
ghost use Rattle.hj_msg.specs.Core.{after, sends, report};
ghost use Rattle.hj_msg.specs.declared.message.Msg.TheVariants.{R as LeftRow, S as RightRow};

use super::{Core, keep_in_flight, share_in_flight};
use crate::at_home::{rest_at_home, share_at_home};
use crate::{Prepared, Sends};
use hj_base::{EventNo, Memory, Share, Side};
use hj_msg::{Join, Msg, Partners, Report, Store};

impl<P: Share + Drop, J: Join<P> + Drop, S: Store<P, J> + Drop> Core<P, J, S> {
    ghost use Rattle.hj_core.specs.Contents.{KeepsPlace, state_of};
    ghost use Rattle.hj_core.specs.Prepared.{IsPrepared};
    ghost use Rattle.hj_core.specs.Sent.{sent};

    /// Takes all memory that a message needs, and finds the partners of its row. What the core holds stays the same.
    #[inline(always)]
    pub fn prepare(&mut self, msg: &Msg<P>) -> Result<Prepared<P>, Memory>
        ensures state { state_of S.entries self.new ≡ state_of S.entries self.old }
        ensures kept { KeepsPlace self.old self.new }
        ensures prepared { IfOk result (IsPrepared (J.predicate self.new.join) self.new.place self.new.cores (state_of S.entries self.new)
            (S.has_place self.new.left) (S.has_place self.new.right) self.new.flight.room msg.now) }
    {
        match msg {
            Msg::R { no, row } => self.prepare_left(*no, row),
            Msg::S { no, row } => self.prepare_right(*no, row),
            _ => Ok(Prepared::PassedOn),
        }
    }

    /// Handles a message for which `prepared` was made, with no other one prepared or handled in between. Takes no
    /// memory.
    #[inline(always)]
    pub fn commit(&mut self, msg: Msg<P>, prepared: Prepared<P>) -> Sends<P>
        requires { IsPrepared (J.predicate self.old.join) self.old.place self.old.cores (state_of S.entries self.old)
            (S.has_place self.old.left) (S.has_place self.old.right) self.old.flight.room msg prepared }
        ensures state { state_of S.entries self.new ≡ after self.old.place self.old.cores (state_of S.entries self.old) msg }
        ensures sends { sent result ≡ sends self.old.place self.old.cores msg }
        ensures report { result.entry ≡ report (J.predicate self.old.join) (state_of S.entries self.old) msg }
        ensures kept { KeepsPlace self.old self.new }
    {
        let entry = self.keep_prepared(&msg, prepared);
        self.answer(msg, entry)
    }

    #[inline(always)]
    fn prepare_left(&mut self, no: EventNo, row: &P) -> Result<Prepared<P>, Memory>
        ensures state { state_of S.entries self.new ≡ state_of S.entries self.old }
        ensures kept { KeepsPlace self.old self.new }
        ensures prepared { IfOk result (IsPrepared (J.predicate self.new.join) self.new.place self.new.cores (state_of S.entries self.new)
            (S.has_place self.new.left) (S.has_place self.new.right) self.new.flight.room (LeftRow no row.now)) }
    {
        let mut found = Partners::new(self.alloc);
        self.right.probe(Side::Right, row, &self.join, &mut found)?;
        self.flight.add_partners(row, &self.join, &mut found)?;
        Ok(Prepared::Arrival {
            partners: found,
            resting: share_at_home::<P, J, S>(&mut self.left, &self.place, no, row)?,
            reported: row.share()?,
            flying: None,
        })
    }

    #[inline(always)]
    fn prepare_right(&mut self, no: EventNo, row: &P) -> Result<Prepared<P>, Memory>
        ensures state { state_of S.entries self.new ≡ state_of S.entries self.old }
        ensures kept { KeepsPlace self.old self.new }
        ensures prepared { IfOk result (IsPrepared (J.predicate self.new.join) self.new.place self.new.cores (state_of S.entries self.new)
            (S.has_place self.new.left) (S.has_place self.new.right) self.new.flight.room (RightRow no row.now)) }
    {
        let mut partners = Partners::new(self.alloc);
        self.left.probe(Side::Left, row, &self.join, &mut partners)?;
        let first = self.place.is_first();
        Ok(Prepared::Arrival {
            partners,
            resting: share_at_home::<P, J, S>(&mut self.right, &self.place, no, row)?,
            flying: share_in_flight(&mut self.flight, first, row)?,
            reported: row.share()?,
        })
    }

    /// Handles a message for which `prepared` was made, and returns what is to be reported. The message isn't sent on.
    #[inline(always)]
    fn keep_prepared(&mut self, msg: &Msg<P>, prepared: Prepared<P>) -> Option<Report<P>>
        requires { IsPrepared (J.predicate self.old.join) self.old.place self.old.cores (state_of S.entries self.old)
            (S.has_place self.old.left) (S.has_place self.old.right) self.old.flight.room msg.now prepared }
        ensures state { state_of S.entries self.new ≡ after self.old.place self.old.cores (state_of S.entries self.old) msg.now }
        ensures report { result ≡ report (J.predicate self.old.join) (state_of S.entries self.old) msg.now }
        ensures kept { KeepsPlace self.old self.new }
    {
        match msg {
            Msg::R { no, row } => Some(self.commit_left(*no, row, prepared)),
            Msg::S { no, row } => Some(self.commit_right(*no, row, prepared)),
            other => self.handle_other(other),
        }
    }

    #[inline(always)]
    fn commit_left(&mut self, no: EventNo, _row: &P, prepared: Prepared<P>) -> Report<P>
        requires { IsPrepared (J.predicate self.old.join) self.old.place self.old.cores (state_of S.entries self.old)
            (S.has_place self.old.left) (S.has_place self.old.right) self.old.flight.room (LeftRow no _row.now) prepared }
        ensures state { state_of S.entries self.new ≡ after self.old.place self.old.cores (state_of S.entries self.old) (LeftRow no _row.now) }
        ensures report { Some result ≡ report (J.predicate self.old.join) (state_of S.entries self.old) (LeftRow no _row.now) }
        ensures kept { KeepsPlace self.old self.new }
    {
        let Prepared::Arrival {
            partners,
            reported,
            resting,
            flying: _,
        } = prepared
        else {
            unreachable!()
        };
        let last = self.place.is_last();
        rest_at_home::<P, J, S>(&mut self.left, no, resting, last);
        Report::Handled {
            no,
            side: Side::Left,
            row: reported,
            partners,
        }
    }

    #[inline(always)]
    fn commit_right(&mut self, no: EventNo, _row: &P, prepared: Prepared<P>) -> Report<P>
        requires { IsPrepared (J.predicate self.old.join) self.old.place self.old.cores (state_of S.entries self.old)
            (S.has_place self.old.left) (S.has_place self.old.right) self.old.flight.room (RightRow no _row.now) prepared }
        ensures state { state_of S.entries self.new ≡ after self.old.place self.old.cores (state_of S.entries self.old) (RightRow no _row.now) }
        ensures report { Some result ≡ report (J.predicate self.old.join) (state_of S.entries self.old) (RightRow no _row.now) }
        ensures kept { KeepsPlace self.old self.new }
    {
        let Prepared::Arrival {
            partners,
            reported,
            resting,
            flying,
        } = prepared
        else {
            unreachable!()
        };
        let first = self.place.is_first();
        rest_at_home::<P, J, S>(&mut self.right, no, resting, first);
        keep_in_flight(&mut self.flight, no, flying);
        Report::Handled {
            no,
            side: Side::Right,
            row: reported,
            partners,
        }
    }
}
