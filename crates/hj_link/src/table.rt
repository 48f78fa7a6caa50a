//! The table under a link: what its words, slots and seats are.
ghost use Rattle.hj_link.specs.Rule.{Rule, opened};

use crate::turn_no::TurnNo;
use atomic_table::{Seat, Table, TableRule};
use std::alloc::Global;
use std::collections::LinkedList;

/// A place for a message, with the turn of the put or of the take that left it so.
#[derive(Drop)]
pub enum MessageSlot<M> {
    Empty(TurnNo),
    Filled(TurnNo, M),
}

/// For how many messages each direction has room. A link that goes one way has none for the way back.
#[derive(Clone, Copy)]
pub struct Capacities {
    pub rightwards: usize,
    pub leftwards: usize,
}

/// An entry of an end's journal. No value of it is made.
pub struct JournalEntry<M> {
    pub is_put: bool,
    pub turn: u64,
    pub message: M,
}

/// What an end of a link has done, and knows of the other end. No value of it is made.
pub struct EndState<M> {
    pub journal: LinkedList<JournalEntry<M>>,
    // the puts of the other end that this end has seen, and how many takes
    pub known: LinkedList<M>,
    pub known_takes: u64,
    // whether the slot of the next place to put into is out, and that of the next place to take from
    pub putting: bool,
    pub fetching: bool,
    // the looks that found no room, and those that found no message; how many puts, and how many takes, came before each
    pub full_looks: u64,
    pub empty_looks: u64,
    pub full_at: LinkedList<u64>,
    pub empty_at: LinkedList<u64>,
    // how many full looks of the other end came before each take, and how many empty ones before each put
    pub fulls_before: LinkedList<u64>,
    pub empties_before: LinkedList<u64>,
}

/// What a seat knows: one end, the other, both, or neither. No value of it is made.
pub struct SeatView<M> {
    pub capacities: Capacities,
    pub has_left: bool,
    pub left: EndState<M>,
    pub has_right: bool,
    pub right: EndState<M>,
}

pub struct LinkRule;

impl<M> TableRule<MessageSlot<M>, SeatView<M>, Capacities> for LinkRule {
    ghost holds = { λ capacities. Rule capacities };

    ghost first = { λ capacities. opened capacities };
}

pub(crate) type LinkTable<M> = Table<MessageSlot<M>, SeatView<M>, Capacities, LinkRule, Global>;

pub(crate) type LinkSeat<M> = Seat<MessageSlot<M>, SeatView<M>>;
