ghost use Rattle.std.specs.Prelude.{◌≡◌, ◌≢◌, ◌++◌, [], ◌∷◌, List, true, IfOk};
ghost use Rattle.hj_base.specs.declared.numbers.EventNo.{EventNo as EventNos};
ghost use Rattle.hj_base.specs.declared.numbers.Side.{Side as Sides};
ghost use Rattle.hj_msg.specs.declared.event.Event.{Event as Events};
ghost use Rattle.hj_msg.specs.declared.event.Event.TheVariants.{Expire};
ghost use Rattle.hj_msg.specs.declared.fin.Fin.TheVariants.{Done, Refused};
ghost use Rattle.hj_msg.specs.declared.message.Report.TheVariants.{Handled};
ghost use Rattle.hj_msg.specs.declared.partner.Partner.{Partner};
ghost use Rattle.hj_msg.specs.Event.{IsWellFormed};
ghost use Rattle.hj_msg.specs.Feed.{IsFresh};
ghost use Rattle.hj_msg.specs.Kang.{Windows, after, listed, windows_after};
ghost use Rattle.hj_msg.specs.Met.{pairs_of};
ghost use Rattle.hj_msg.specs.RunsJoin.{RunsJoin};
ghost use Rattle.hj_msg.specs.Store.{settled_matches, with_entry};
ghost use Rattle.hj_sequential.specs.Giving.{GivesListed};
ghost use Rattle.hj_msg.specs.ReadyStores.{Suits};
ghost use Rattle.hj_sequential.specs.Stores.{HoldWindows};

use crate::giving::give;
use hj_base::{CoreNo, EventNo, Gate, Memory, Share, Side};
use hj_msg::{Drain, Event, Feed, Fin, Given, Join, Partners, Store};
use std::alloc::Global;

/// The sequential sliding-window join over a store of each stream's rows, those that arrived and haven't expired.
#[derive(Drop)]
pub struct SequentialJoin<J, S> {
    pub join: J,
    pub left: S,
    pub right: S,
}

impl<J, S> SequentialJoin<J, S> {
    /// Joins the events of a feed that gave none yet, from empty stores on. The pairs of each row go to the drain as soon as the row
    /// has arrived, oldest partner first; the first one that the drain refuses ends the run. Before each event is handled the gate is
    /// passed, as by core 0, with the number of events that were handled before; this number stays at 2^64 - 1 once it is there.
    pub fn run<P: Share + Drop, F: Feed<P>, D: Drain<P>, G: Gate>(
        &mut self,
        alloc: Global,
        feed: &mut F,
        drain: &mut D,
        gate: &G,
    ) -> Fin
    where
        J: Join<P>,
        S: Store<P, J>,
        requires fresh { IsFresh (F.state feed.old) }
        requires left { S.entries self.old.left ≡ [] }
        requires right { S.entries self.old.right ≡ [] }
        requires suits { Suits S.suits self.old.join self.old.left self.old.right }
        ensures { RunsJoin F.gives F.state D.takes (J.predicate self.old.join) result feed.old feed.new drain.old drain.new }
    {
        let mut handled: u64 = 0;
        while let Given::Event(event) = feed.next() {
            gate.pass(CoreNo(0), handled);
            match self.handle(alloc, event, drain) {
                Fin::Done => {}
                ended => return ended,
            }
            handled = handled.saturating_add(1);
        }
        Fin::Done
    }

    /// Gives the pairs that an event lists, and moves the windows on. Anything but Done says why not all was done.
    #[inline(always)]
    fn handle<P: Share + Drop, D: Drain<P>>(
        &mut self,
        alloc: Global,
        event: Event<P>,
        drain: &mut D,
    ) -> Fin
    where
        J: Join<P>,
        S: Store<P, J>,
        requires { Suits S.suits self.old.join self.old.left self.old.right }
        ensures gives { (before : List (Events P)) → IsWellFormed (before ++ event ∷ []) → HoldWindows S.entries (windows_after before) self.old.left self.old.right
            → GivesListed D.takes (listed (J.predicate self.old.join) (windows_after before) event) result drain.old drain.new }
        ensures holds { (before : List (Events P)) → IsWellFormed (before ++ event ∷ []) → HoldWindows S.entries (windows_after before) self.old.left self.old.right
            → result ≡ Done → HoldWindows S.entries (after (windows_after before) event) self.new.left self.new.right }
        ensures suits { Suits S.suits self.new.join self.new.left self.new.right }
        ensures join { self.new.join ≡ self.old.join }
    {
        match event {
            Event::Arrive {
                no,
                side: Side::Left,
                row,
            } => {
                let found = partners_in(alloc, &self.right, Side::Right, &row, &self.join);
                arrives::<P, J, S, D>(no, Side::Left, row, found, &mut self.left, drain)
            }
            Event::Arrive {
                no,
                side: Side::Right,
                row,
            } => {
                let found = partners_in(alloc, &self.left, Side::Left, &row, &self.join);
                arrives::<P, J, S, D>(no, Side::Right, row, found, &mut self.right, drain)
            }
            Event::Expire { side, of, .. } => {
                self.expires::<P>(side, of);
                Fin::Done
            }
            Event::Quiet { .. } => Fin::Done,
        }
    }

    /// Takes the row of a number out of the store of its side.
    #[inline(always)]
    fn expires<P: Share + Drop>(&mut self, side: Side, of: EventNo)
    where
        J: Join<P>,
        S: Store<P, J>,
        requires { Suits S.suits self.old.join self.old.left self.old.right }
        ensures holds { (windows : Windows P) (at : EventNos) → HoldWindows S.entries windows self.old.left self.old.right
            → HoldWindows S.entries (after windows (Expire at side of)) self.new.left self.new.right }
        ensures suits { Suits S.suits self.new.join self.new.left self.new.right }
        ensures join { self.new.join ≡ self.old.join }
    {
        match side {
            Side::Left => self.left.remove(of),
            Side::Right => self.right.remove(of),
        };
    }
}

/// Finds the partners of a row in the store of the other stream, of which `side` is the side.
#[inline(always)]
fn partners_in<P: Drop, J: Join<P>, S: Store<P, J>>(
    alloc: Global,
    store: &S,
    side: Side,
    row: &P,
    join: &J,
) -> Result<Partners<P>, Memory>
    requires { S.suits store.now side join.now }
    ensures { IfOk result (λ partners. partners ≡ settled_matches (J.predicate join.now) side row.now (S.entries store.now)) }
{
    let mut found = Partners::new(alloc);
    store.probe(side, row, join, &mut found)?;
    Ok(found)
}

/// Gives the pairs of a row of `side` that arrives with the partners that were found, and keeps the row in the store of its stream.
#[inline(always)]
fn arrives<P: Share + Drop, J: Join<P>, S: Store<P, J>, D: Drain<P>>(
    no: EventNo,
    side: Side,
    row: P,
    found: Result<Partners<P>, Memory>,
    store: &mut S,
    drain: &mut D,
) -> Fin
    ensures gives { (partners : List (Partner P)) → IfOk found (λ given. given ≡ partners)
        → GivesListed D.takes (pairs_of (Handled no side row partners)) result drain.old drain.new }
    ensures keeps { result ≡ Done → S.entries store.new ≡ with_entry (record { no = no.0; row = row; settled = true }) (S.entries store.old) }
    ensures suits { (own : Sides) (join : J) → S.suits store.old own join → S.suits store.new own join }
{
    let Ok(partners) = found else {
        return Fin::Memory;
    };
    match give(no, side, &row, &partners, drain) {
        Fin::Done => keep::<P, J, S>(store, no, row),
        ended => ended,
    }
}

/// Puts a row into the store of its stream, settled.
#[inline(always)]
fn keep<P: Drop, J: Join<P>, S: Store<P, J>>(store: &mut S, no: EventNo, row: P) -> Fin
    ensures ended { result ≢ Refused }
    ensures keeps { result ≡ Done → S.entries store.new ≡ with_entry (record { no = no.0; row = row; settled = true }) (S.entries store.old) }
    ensures suits { (side : Sides) (join : J) → S.suits store.old side join → S.suits store.new side join }
{
    if store.reserve(no, &row).is_err() {
        return Fin::Memory;
    }
    store.insert(no, row, true);
    Fin::Done
}
