//! How the table of a link is made, and how its two ends come together again.
ghost use Rattle.std.specs.Prelude.{◌≡◌, ◌<◌, ◌≤◌, [], IfOk};
ghost use Rattle.hj_link.specs.declared.table.SeatView.{SeatView};
ghost use Rattle.hj_link.specs.Rule.{opened};
ghost use Rattle.hj_link.specs.Steps.{Meets, left_alone, right_alone, both_ends};

use crate::endpoints::{OnLeft, OnRight};
use crate::plays::{Apart, Learn, Together};
use crate::steps::SeatedEnd;
use crate::table::{Capacities, LinkSeat, LinkTable, MessageSlot};
use crate::turn_no::TurnNo;
use atomic_table::Table;
use hj_base::Memory;
use std::alloc::Global;
use std::marker::{Model, PhantomData};
use std::sync::Arc;

/// The two ends of a new link.
#[derive(Drop)]
pub(crate) struct NewLink<M: Drop> {
    pub(crate) left: SeatedEnd<M, OnLeft>,
    pub(crate) right: SeatedEnd<M, OnRight>,
}

// Takes all the memory that the link ever takes.
pub(crate) fn open<M: Drop>(alloc: Global, capacities: Capacities) -> Result<NewLink<M>, Memory>
    requires { (0 < capacities.rightwards) × (capacities.rightwards ≤ 514) × (capacities.leftwards ≤ 514) }
    ensures link { IfOk result (λ link. link.left.link ≡ link.right.link) }
    ensures left { IfOk result (λ link. link.left.me ≡ (left_alone (opened capacities), [])) }
    ensures right { IfOk result (λ link. link.right.me ≡ (right_alone (opened capacities), [])) }
{
    let count = capacities.rightwards + capacities.leftwards;
    let mut slots: Vec<MessageSlot<M>> = Vec::with_capacity(alloc, count)?;
    for _ in 0..count {
        slots.push_reserved(MessageSlot::Empty(TurnNo::of(0)));
    }
    let words = [0u64; 64];
    let Ok((table, mut left)) = Table::new(alloc, words.as_slice(), slots, &capacities) else {
        return Err(Memory);
    };
    let right: LinkSeat<M> = table.shared.split_seat::<Apart>(&mut left);
    let Ok(table) = Arc::new(alloc, table) else {
        return Err(Memory);
    };
    Ok(NewLink {
        left: SeatedEnd {
            table: Arc::try_clone(&table)?,
            seat: left,
            endpoint: PhantomData,
        },
        right: SeatedEnd {
            table,
            seat: right,
            endpoint: PhantomData,
        },
    })
}

/// A link whose two ends were handed in.
#[derive(Drop)]
pub(crate) struct JoinedSeat<M: Drop> {
    table: Arc<LinkTable<M>>,
    seat: LinkSeat<M>,
}

impl<M: Drop> Model for JoinedSeat<M> {
    ghost Value = { SeatView M };

    ghost view = { λ j. j.seat.me.0 };

    ghost invariant = { λ j. Meets j.seat.me.0 };
}

// Joins the two ends of a link, and learns that their journals agree.
pub(crate) fn join<M: Drop>(
    left: SeatedEnd<M, OnLeft>,
    right: SeatedEnd<M, OnRight>,
) -> JoinedSeat<M>
    requires { left.link ≡ right.link }
    ensures both { result ≡ both_ends left.me.0 right.me.0 }
    ensures meets { Meets result }
{
    let SeatedEnd {
        table,
        mut seat,
        endpoint: _,
    } = left;
    table.shared.join_seat::<Together>(&mut seat, right.seat);
    table.shared.load::<Learn>(&mut seat, 0);
    JoinedSeat { table, seat }
}
