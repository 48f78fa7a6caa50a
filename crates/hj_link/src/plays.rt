//! What each step tells the end that makes it. These types are for the proofs alone.
ghost use Rattle.hj_link.specs.Steps.{looks_for_room, looks_for_message, reserves, publishes, fetches, publishes_take, learns, left_alone, right_alone, both_ends, neither};

use crate::endpoints::Endpoint;
use crate::table::{MessageSlot, SeatView};
use atomic_table::{Join, Play, Split};
use std::marker::PhantomData;

pub struct LookForRoom<D> {
    side: PhantomData<D>,
}

impl<M, D: Endpoint> Play<MessageSlot<M>, SeatView<M>> for LookForRoom<D> {
    ghost then = { λ step before found after. looks_for_room D.is_left before found after };
}

pub struct LookForMessage<D> {
    side: PhantomData<D>,
}

impl<M, D: Endpoint> Play<MessageSlot<M>, SeatView<M>> for LookForMessage<D> {
    ghost then = { λ step before found after. looks_for_message D.is_left before found after };
}

pub struct Reserve<D> {
    side: PhantomData<D>,
}

impl<M, D: Endpoint> Play<MessageSlot<M>, SeatView<M>> for Reserve<D> {
    ghost then = { λ step before found after. reserves D.is_left before after };
}

pub struct PublishPut<D> {
    side: PhantomData<D>,
}

impl<M, D: Endpoint> Play<MessageSlot<M>, SeatView<M>> for PublishPut<D> {
    ghost then = { λ step before found after. publishes D.is_left before after };
}

pub struct Fetch<D> {
    side: PhantomData<D>,
}

impl<M, D: Endpoint> Play<MessageSlot<M>, SeatView<M>> for Fetch<D> {
    ghost then = { λ step before found after. fetches D.is_left before after };
}

pub struct PublishTake<D> {
    side: PhantomData<D>,
}

impl<M, D: Endpoint> Play<MessageSlot<M>, SeatView<M>> for PublishTake<D> {
    ghost then = { λ step before found after. publishes_take D.is_left before after };
}

pub struct Learn;

impl<M> Play<MessageSlot<M>, SeatView<M>> for Learn {
    ghost then = { λ step before found after. learns before after };
}

pub struct Apart;

impl<M> Split<SeatView<M>> for Apart {
    ghost left = { left_alone };

    ghost right = { right_alone };
}

pub struct Together;

impl<M> Join<SeatView<M>> for Together {
    ghost both = { both_ends };

    ghost spent = { neither };
}
