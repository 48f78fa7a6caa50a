//! One end of a link at its table, and the steps of its looks, its puts and its takes.
ghost use Rattle.std.specs.Prelude.{◌≡◌, ℕ, ◌+◌, ◌^◌, ◌%◌, ◌<◌, true, false, [], length};
ghost use lib.ListN.{get_elem?};
ghost use mathlib.Core.Option.{some};
ghost use Rattle.std.specs.Arc.{arc_value};
ghost use Rattle.hj_link.specs.declared.table.MessageSlot.TheVariants.{Empty, Filled};
ghost use Rattle.hj_link.specs.Words.{IsOfLink};
ghost use Rattle.hj_link.specs.Rule.{sent, got};
ghost use Rattle.hj_link.specs.Steps.{IsLaid, IsEmptied, has_end, own, changed, room_there, put_slot, take_slot, after_put, after_take, looks_for_room, looks_for_message, publishes, publishes_take, turn_no, holding, holding_taken};
ghost use Rattle.hj_link.specs.Halves.{AtTable, IsSeated};

use crate::endpoints::Endpoint;
use crate::plays::{Fetch, LookForMessage, LookForRoom, PublishPut, PublishTake, Reserve};
use crate::table::{LinkSeat, LinkTable, MessageSlot};
use crate::turn_no::TurnNo;
use std::marker::{Model, PhantomData};
use std::sync::Arc;

/// One end of a link at its table. Between two calls it has no slot out.
#[derive(Drop)]
pub struct SeatedEnd<M: Drop, D: Endpoint> {
    pub(crate) table: Arc<LinkTable<M>>,
    pub(crate) seat: LinkSeat<M>,
    pub(crate) endpoint: PhantomData<D>,
}

impl<M: Drop, D: Endpoint> Model for SeatedEnd<M, D> {
    ghost Value = { AtTable M };

    ghost view = { λ e. record { link = e.seat.table_id; me = e.seat.me } };

    ghost invariant = { λ e. IsOfLink e.seat.table_id (arc_value e.table).shared.table_id × IsSeated D.is_left e.seat.me };
}

impl<M: Drop, D: Endpoint> SeatedEnd<M, D> {
    // Looks how many of its puts the other end has taken, modulo 2^64.
    pub(crate) fn look_for_room(&mut self) -> u64
        ensures link { self.new.link ≡ self.old.link }
        ensures found { looks_for_room D.is_left self.old.me result self.new.me }
    {
        let words = D::words();
        self.table
            .shared
            .load::<LookForRoom<D>>(&mut self.seat, words.other_takes)
    }

    // Looks how many puts the other end has made, modulo 2^64.
    pub(crate) fn look_for_message(&mut self) -> u64
        ensures link { self.new.link ≡ self.old.link }
        ensures found { looks_for_message D.is_left self.old.me result self.new.me }
    {
        let words = D::words();
        self.table
            .shared
            .load::<LookForMessage<D>>(&mut self.seat, words.other_puts)
    }

    // Puts a message into the slot of the next place; `puts` counts it too, modulo 2^64.
    #[inline(always)]
    pub(crate) fn put(&mut self, slot: usize, puts: u64, turn: u64, message: M)
        requires idle { (own D.is_left self.old.me).putting ≡ false }
        requires room { length (sent (own D.is_left self.old.me)) < (own D.is_left self.old.me).known_takes + room_there D.is_left self.old.me }
        requires slot { slot ≡ put_slot D.is_left self.old.me }
        requires puts { puts ≡ (length (sent (own D.is_left self.old.me)) + 1) % 2 ^ 64 }
        ensures link { self.new.link ≡ self.old.link }
        ensures put { (empties : ℕ) × (self.new.me ≡ (changed D.is_left self.old.me (after_put (own D.is_left self.old.me) turn message empties), [])) }
    {
        lay::<M, D>(&self.table, &mut self.seat, slot, turn, message);
        publish_put::<M, D>(&self.table, &mut self.seat, puts);
    }

    // Takes the message out of the slot of the next place; `takes` counts it too, modulo 2^64.
    #[inline(always)]
    pub(crate) fn take(&mut self, slot: usize, takes: u64, turn: u64) -> M
        requires idle { (own D.is_left self.old.me).fetching ≡ false }
        requires some { length (got (own D.is_left self.old.me)) < length (own D.is_left self.old.me).known }
        requires slot { slot ≡ take_slot D.is_left self.old.me }
        requires takes { takes ≡ (length (got (own D.is_left self.old.me)) + 1) % 2 ^ 64 }
        ensures link { self.new.link ≡ self.old.link }
        ensures taken { (fulls : ℕ) × (self.new.me ≡ (changed D.is_left self.old.me (after_take (own D.is_left self.old.me) turn result fulls), [])) }
    {
        let message = fetch::<M, D>(&self.table, &mut self.seat, slot, turn);
        publish_take::<M, D>(&self.table, &mut self.seat, takes);
        message
    }
}

// Takes out the slot of the next place, and lays the message into it.
#[inline(always)]
fn lay<M: Drop, D: Endpoint>(
    table: &LinkTable<M>,
    seat: &mut LinkSeat<M>,
    slot: usize,
    turn: u64,
    message: M,
)
    requires table { IsOfLink seat.old.table_id table.now.shared.table_id }
    requires end { (has_end D.is_left seat.old.me.0 ≡ true) × ((own D.is_left seat.old.me).putting ≡ false) × (seat.old.me.1 ≡ []) }
    requires room { length (sent (own D.is_left seat.old.me)) < (own D.is_left seat.old.me).known_takes + room_there D.is_left seat.old.me }
    requires slot { slot ≡ put_slot D.is_left seat.old.me }
    ensures seat { (seat.new.table_id ≡ seat.old.table_id) × (seat.new.id ≡ seat.old.id) }
    ensures laid { seat.new.me ≡ holding D.is_left seat.old.me (Filled (turn_no turn) message) }
    ensures ready { IsLaid D.is_left seat.new.me }
{
    let words = D::words();
    table.shared.load::<Reserve<D>>(seat, words.puts);
    match table
        .shared
        .exchange(seat, slot, MessageSlot::Filled(TurnNo::of(turn), message))
    {
        MessageSlot::Empty(_) => (),
        MessageSlot::Filled(..) => unreachable!(),
    }
}

#[inline(always)]
fn publish_put<M: Drop, D: Endpoint>(table: &LinkTable<M>, seat: &mut LinkSeat<M>, puts: u64)
    requires table { IsOfLink seat.old.table_id table.now.shared.table_id }
    requires laid { IsLaid D.is_left seat.old.me }
    requires puts { puts ≡ (length (sent (own D.is_left seat.old.me)) + 1) % 2 ^ 64 }
    ensures seat { (seat.new.table_id ≡ seat.old.table_id) × (seat.new.id ≡ seat.old.id) }
    ensures published { publishes D.is_left seat.old.me seat.new.me }
{
    let words = D::words();
    table.shared.store::<PublishPut<D>>(seat, words.puts, puts);
}

// Takes out the slot of the next known put, and its message out of it.
#[inline(always)]
fn fetch<M: Drop, D: Endpoint>(
    table: &LinkTable<M>,
    seat: &mut LinkSeat<M>,
    slot: usize,
    turn: u64,
) -> M
    requires table { IsOfLink seat.old.table_id table.now.shared.table_id }
    requires end { (has_end D.is_left seat.old.me.0 ≡ true) × ((own D.is_left seat.old.me).fetching ≡ false) × (seat.old.me.1 ≡ []) }
    requires some { length (got (own D.is_left seat.old.me)) < length (own D.is_left seat.old.me).known }
    requires slot { slot ≡ take_slot D.is_left seat.old.me }
    ensures seat { (seat.new.table_id ≡ seat.old.table_id) × (seat.new.id ≡ seat.old.id) }
    ensures next { get_elem? (own D.is_left seat.old.me).known (length (got (own D.is_left seat.old.me))) ≡ some result }
    ensures emptied { seat.new.me ≡ holding_taken D.is_left seat.old.me (Empty (turn_no turn)) }
    ensures ready { IsEmptied D.is_left seat.new.me }
{
    let words = D::words();
    table.shared.load::<Fetch<D>>(seat, words.takes);
    match table
        .shared
        .exchange(seat, slot, MessageSlot::Empty(TurnNo::of(turn)))
    {
        MessageSlot::Filled(_, message) => message,
        MessageSlot::Empty(_) => unreachable!(),
    }
}

#[inline(always)]
fn publish_take<M: Drop, D: Endpoint>(table: &LinkTable<M>, seat: &mut LinkSeat<M>, takes: u64)
    requires table { IsOfLink seat.old.table_id table.now.shared.table_id }
    requires emptied { IsEmptied D.is_left seat.old.me }
    requires takes { takes ≡ (length (got (own D.is_left seat.old.me)) + 1) % 2 ^ 64 }
    ensures seat { (seat.new.table_id ≡ seat.old.table_id) × (seat.new.id ≡ seat.old.id) }
    ensures published { publishes_take D.is_left seat.old.me seat.new.me }
{
    let words = D::words();
    table
        .shared
        .store::<PublishTake<D>>(seat, words.takes, takes);
}
