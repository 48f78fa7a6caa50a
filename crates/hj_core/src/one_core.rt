ghost use Rattle.std.specs.Prelude.{◌≡◌, ◌<◌, ◌≤◌, [], false, not, ◌&&◌, None, Some, IfOk, IfSome, IfNone, OnErr, OnOk, MatchOption};
ghost use Rattle.std.specs.Option.{ForSome};
ghost use Rattle.hj_msg.specs.Core.{empty_state, after, is_home, sends, report};
ghost use Rattle.hj_msg.specs.Store.{with_element};
ghost use Rattle.hj_msg.specs.declared.message.Msg.TheVariants.{CloseL, CloseR};
ghost use Rattle.hj_core.specs.Passing.{is_row, way_of};
ghost use Rattle.hj_core.specs.Ready.{IsReadyRow};
ghost use Rattle.hj_core.specs.Rows.{partners_of, row_message, with_resting};
ghost use Rattle.hj_core.specs.Sent.{passed_on};

mod preparing;

use crate::at_home::{put_at_rest, remove_at_home, settle_at_home};
use crate::flight::Flight;
use crate::place::CorePlace;
use crate::rows::{probed, side_of};
use crate::sends::when;
use crate::{Sends, Way};
use hj_base::{CoreNo, EventNo, Memory, Share, Side};
use hj_msg::{Join, Msg, Partners, Report, Store};
use std::alloc::Global;
use std::marker::Model;

/// One core of the chain, with a store of the rows of each stream.
#[derive(Drop)]
pub struct Core<P, J: Join<P>, S: Store<P, J>> {
    alloc: Global,
    join: J,
    left: S,
    right: S,
    flight: Flight<P>,
    closed_left: bool,
    closed_right: bool,
    place: CorePlace,
}

impl<P, J: Join<P>, S: Store<P, J>> Model for Core<P, J, S> {
    ghost use Rattle.hj_msg.specs.ReadyStores.{Suits};
    ghost use Rattle.hj_core.specs.Contents.{Contents, HoldsItsOwn};

    ghost Value = { Contents P J S };

    ghost view = { λ core. record { place = core.place.place; cores = core.place.cores; join = core.join; left = core.left; right = core.right; flight = core.flight; closed_left = core.closed_left; closed_right = core.closed_right } };

    ghost invariant = { λ core. record {
      suits : Suits S.suits core.join core.left core.right;
      own : HoldsItsOwn core.place.place core.place.cores (S.entries core.left) (S.entries core.right);
    } };
}

impl<P: Share + Drop, J: Join<P> + Drop, S: Store<P, J> + Drop> Core<P, J, S> {
    ghost use Rattle.hj_msg.specs.ReadyStores.{Suits};
    ghost use Rattle.hj_core.specs.Contents.{Contents, KeepsPlace, state_of};
    ghost use Rattle.hj_core.specs.Sent.{sent};

    /// Makes the core of this place among `cores`, which are at most 64, over two empty stores.
    pub fn new(
        join: J,
        left_store: S,
        right_store: S,
        place: CoreNo,
        cores: u16,
        alloc: Global,
    ) -> Self
        requires place { place.0 < cores }
        requires most { cores ≤ 64 }
        requires left { S.entries left_store ≡ [] }
        requires right { S.entries right_store ≡ [] }
        requires suits { Suits S.suits join left_store right_store }
        ensures state { state_of S.entries result ≡ empty_state }
        ensures join { result.join ≡ join }
        ensures place { result.place ≡ place.0 }
        ensures cores { result.cores ≡ cores }
    {
        Core {
            alloc,
            join,
            left: left_store,
            right: right_store,
            flight: Flight::new(alloc),
            closed_left: false,
            closed_right: false,
            place: CorePlace::new(place, cores),
        }
    }

    /// Makes what this core sends for a message, with what it reports of it.
    #[inline(always)]
    pub fn answer(&self, msg: Msg<P>, entry: Option<Report<P>>) -> Sends<P>
        ensures sends { sent result ≡ sends self.now.place self.now.cores msg }
        ensures report { result.entry ≡ entry }
    {
        match msg {
            Msg::R { no, row } => Sends {
                to_left: when(self.place.is_last(), Msg::EndR(no)),
                to_right: Some(Msg::R { no, row }),
                to_right_then: None,
                entry,
            },
            Msg::S { no, row } => Sends {
                to_left: Some(Msg::S { no, row }),
                to_right: when(self.place.has_right_neighbour(), Msg::AckS(no)),
                to_right_then: when(self.place.is_first(), Msg::EndS(no)),
                entry,
            },
            Msg::EndR(_) | Msg::ExpR(_) | Msg::QuietR(_) | Msg::CloseR => Sends::left(msg, entry),
            Msg::EndS(_) | Msg::ExpS(_) | Msg::QuietL(_) | Msg::CloseL => Sends::right(msg, entry),
            Msg::AckS(_) => Sends::nothing(entry),
        }
    }

    /// Handles a message in one call, as `prepare` and `commit` do in two: takes all memory that it needs, and then keeps its row
    /// if that is to be kept. Returns what is to be reported. The message isn't sent on. After an error what the core holds is as
    /// before.
    #[inline(always)]
    pub fn handle(&mut self, msg: &Msg<P>) -> Result<Option<Report<P>>, Memory>
        ensures state { IfOk result (λ entry. state_of S.entries self.new ≡ after self.old.place self.old.cores (state_of S.entries self.old) msg.now) }
        ensures report { IfOk result (λ entry. entry ≡ report (J.predicate self.old.join) (state_of S.entries self.old) msg.now) }
        ensures unchanged { OnErr result (state_of S.entries self.new ≡ state_of S.entries self.old) }
        ensures kept { KeepsPlace self.old self.new }
    {
        match msg {
            Msg::R { no, row } => Ok(Some(self.handle_row::<true>(*no, row)?)),
            Msg::S { no, row } => Ok(Some(self.handle_row::<false>(*no, row)?)),
            other => Ok(self.handle_other(other)),
        }
    }

    /// Handles a message that is no row, as `handle` does: it takes no memory.
    #[inline(always)]
    fn handle_other(&mut self, msg: &Msg<P>) -> Option<Report<P>>
        requires { is_row msg.now ≡ false }
        ensures state { state_of S.entries self.new ≡ after self.old.place self.old.cores (state_of S.entries self.old) msg.now }
        ensures report { result ≡ report (J.predicate self.old.join) (state_of S.entries self.old) msg.now }
        ensures kept { KeepsPlace self.old self.new }
    {
        match msg {
            Msg::QuietL(no) => Some(quiet(*no, Side::Left)),
            Msg::QuietR(no) => Some(quiet(*no, Side::Right)),
            Msg::CloseL => self.close_left(),
            Msg::CloseR => self.close_right(),
            passing => {
                self.handle_passing(passing);
                None
            }
        }
    }

    /// Handles a message of which nothing is reported, whatever the core holds: it takes no memory. Returns the way that the message
    /// goes on; None for any other message, which isn't handled.
    #[inline(always)]
    pub fn handle_passing(&mut self, msg: &Msg<P>) -> Option<Way>
        ensures way { result ≡ way_of msg.now }
        ensures state { IfSome result (λ way. state_of S.entries self.new ≡ after self.old.place self.old.cores (state_of S.entries self.old) msg.now) }
        ensures sends { IfSome result (λ way. sends self.old.place self.old.cores msg.now ≡ passed_on way msg.now) }
        ensures report { IfSome result (λ way. report (J.predicate self.old.join) (state_of S.entries self.old) msg.now ≡ None) }
        ensures others { IfNone result (self.new ≡ self.old) }
        ensures kept { KeepsPlace self.old self.new }
    {
        match msg {
            Msg::EndR(no) => {
                settle_at_home::<P, J, S>(&mut self.left, &self.place, *no);
                Some(Way::Left)
            }
            Msg::EndS(no) => {
                settle_at_home::<P, J, S>(&mut self.right, &self.place, *no);
                Some(Way::Right)
            }
            Msg::ExpR(no) => {
                remove_at_home::<P, J, S>(&mut self.left, &self.place, *no);
                Some(Way::Left)
            }
            Msg::ExpS(no) => {
                remove_at_home::<P, J, S>(&mut self.right, &self.place, *no);
                Some(Way::Right)
            }
            Msg::AckS(no) => {
                self.flight.acknowledge(*no);
                Some(Way::Nowhere)
            }
            _ => None,
        }
    }

    /// Returns whether both closes were handled.
    pub fn ended(&self) -> bool
        ensures { result ≡ (self.now.closed_left && self.now.closed_right) }
    {
        self.closed_left && self.closed_right
    }

    /// Returns the core's place in the chain.
    pub fn place(&self) -> CoreNo
        ensures { result.0 ≡ self.now.place }
    {
        self.place.core()
    }

    /// Handles the close from the left, and returns whether the core's end is to be reported.
    #[cold]
    fn close_left(&mut self) -> Option<Report<P>>
        ensures state { state_of S.entries self.new ≡ after self.old.place self.old.cores (state_of S.entries self.old) CloseL }
        ensures report { result ≡ report (J.predicate self.old.join) (state_of S.entries self.old) CloseL }
        ensures kept { KeepsPlace self.old self.new }
    {
        let ends = self.closed_right && !self.closed_left;
        self.closed_left = true;
        if ends { Some(Report::Ended) } else { None }
    }

    /// Handles the close from the right, and returns whether the core's end is to be reported.
    #[cold]
    fn close_right(&mut self) -> Option<Report<P>>
        ensures state { state_of S.entries self.new ≡ after self.old.place self.old.cores (state_of S.entries self.old) CloseR }
        ensures report { result ≡ report (J.predicate self.old.join) (state_of S.entries self.old) CloseR }
        ensures kept { KeepsPlace self.old self.new }
    {
        let ends = self.closed_left && !self.closed_right;
        self.closed_right = true;
        if ends { Some(Report::Ended) } else { None }
    }

    /// Handles a left row of a number, or a right one, as `handle` does its message, and returns its report: finds its partners, and keeps
    /// it if it rests here; a right one also until the left neighbour acknowledges it.
    #[inline(always)]
    pub fn handle_row<const IS_LEFT: bool>(
        &mut self,
        no: EventNo,
        row: &P,
    ) -> Result<Report<P>, Memory>
        ensures state { IfOk result (λ entry. state_of S.entries self.new ≡ after self.old.place self.old.cores (state_of S.entries self.old) (row_message IS_LEFT no row.now)) }
        ensures report { IfOk result (λ entry. Some entry ≡ report (J.predicate self.old.join) (state_of S.entries self.old) (row_message IS_LEFT no row.now)) }
        ensures unchanged { OnErr result (state_of S.entries self.new ≡ state_of S.entries self.old) }
        ensures kept { KeepsPlace self.old self.new }
    {
        let mut partners = Partners::new(self.alloc);
        self.find_partners::<IS_LEFT>(row, &mut partners)?;
        let reported = row.share()?;
        let last = self.place.is_last_of::<IS_LEFT>();
        let flying = share_in_flight(&mut self.flight, IS_LEFT || last, row)?;
        self.keep::<IS_LEFT>(no, row, last)?;
        keep_in_flight(&mut self.flight, no, flying);
        Ok(Report::Handled {
            no,
            side: side_of::<IS_LEFT>(),
            row: reported,
            partners,
        })
    }

    /// Puts the partners of a left row, or of a right one, into an empty list: rows at rest of the other stream, and, of a left row, rows
    /// in flight. After an error some of them may be there.
    #[inline(always)]
    fn find_partners<const IS_LEFT: bool>(
        &self,
        row: &P,
        found: &mut Partners<P>,
    ) -> Result<(), Memory>
        requires { found.old ≡ [] }
        ensures { OnOk result (found.new ≡ partners_of IS_LEFT (J.predicate self.now.join) (state_of S.entries self.now) row.now) }
    {
        let (others, side) = probed::<IS_LEFT, S>(&self.left, &self.right);
        others.probe(side, row, &self.join, found)?;
        if IS_LEFT {
            self.flight.add_partners(row, &self.join, found)?;
        }
        Ok(())
    }

    /// Keeps a row equal to this one in the store of its stream, if this is its home. After an error what the core holds is as before.
    #[inline(always)]
    fn keep<const IS_LEFT: bool>(
        &mut self,
        no: EventNo,
        row: &P,
        settled: bool,
    ) -> Result<(), Memory>
        ensures state { OnOk result (state_of S.entries self.new
            ≡ with_resting IS_LEFT (is_home self.old.place self.old.cores no.0) (record { no = no.0; row = row.now; settled = settled }) (state_of S.entries self.old)) }
        ensures unchanged { OnErr result (state_of S.entries self.new ≡ state_of S.entries self.old) }
        ensures flight { self.new.flight ≡ self.old.flight }
        ensures kept { KeepsPlace self.old self.new }
    {
        if !self.place.is_home(no) {
            return Ok(());
        }
        let resting = row.share()?;
        if IS_LEFT {
            put_at_rest::<P, J, S>(&mut self.left, no, row, resting, settled)
        } else {
            put_at_rest::<P, J, S>(&mut self.right, no, row, resting, settled)
        }
    }
}

/// Makes a row equal to this one, and room for it in flight, but where it doesn't fly.
#[inline(always)]
fn share_in_flight<P: Share + Drop>(
    flight: &mut Flight<P>,
    stays: bool,
    row: &P,
) -> Result<Option<P>, Memory>
    ensures rows { flight.new.rows ≡ flight.old.rows }
    ensures ready { IfOk result (IsReadyRow (not stays) row.now (0 < flight.new.room)) }
{
    if stays {
        Ok(None)
    } else {
        flight.reserve()?;
        Ok(Some(row.share()?))
    }
}

/// Keeps the row that is in flight, if one is.
#[inline(always)]
fn keep_in_flight<P: Drop>(flight: &mut Flight<P>, no: EventNo, flying: Option<P>)
    requires { ForSome flying (λ row. 0 < flight.old.room) }
    ensures { MatchOption flying (flight.new.rows ≡ flight.old.rows)
        (λ row. flight.new.rows ≡ with_element (λ one. one.no) (record { no = no.0; row = row }) flight.old.rows) }
{
    if let Some(row) = flying {
        flight.put(no, row);
    }
}

/// Makes the report that a side was quiet.
#[inline(always)]
fn quiet<P>(no: EventNo, side: Side) -> Report<P>
    ensures { result ≡ Report.Quiet no side }
{
    Report::Quiet { no, side }
}
