ghost use Rattle.std.specs.Prelude.{◌≡◌, IsTrue, None};
ghost use Rattle.hj_base.specs.declared.outside.Role.TheVariants as role;
ghost use Rattle.hj_base.specs.Outside.{role_of, ChangesOnly, NamesStay};
ghost use Rattle.hj_event.specs.Arriving.{first_side, last_of, TakesArrival, TakesHead};
ghost use Rattle.hj_event.specs.Roles.{IsInStep};
ghost use Rattle.hj_event.specs.Sides.{new_side, new_sides};
ghost use Rattle.hj_event.specs.Taking.{LooksAt, IsTold};

use crate::row_source::RowSource;
use crate::stop::{MergeEnd, SideStop};
use hj_base::{Outside, Side};
use hj_value::{Schema, SharedRow};
use std::alloc::Global;
use std::marker::Model;

/// The rows of one side, of which the first may have been looked at.
#[derive(Drop)]
struct PeekedRows {
    source: RowSource,
    head: Option<SharedRow>,
}

impl Model for PeekedRows {
    ghost use Rattle.hj_event.specs.Sides.{SideState};

    ghost Value = { SideState };

    ghost view = { λ r. record r.source { head = r.head } };
}

impl PeekedRows {
    /// Makes a side of which nothing was read.
    fn new(alloc: Global, schema: Schema, slack: u64) -> Self
        ensures { result ≡ new_side schema.columns slack }
    {
        PeekedRows {
            source: RowSource::new(alloc, schema, slack),
            head: None,
        }
    }

    /// Looks at the first row, which is the head then; there is none at the end of the stream.
    #[inline(always)]
    fn look<O: Outside>(&mut self, side: Side, outside: &mut O) -> Result<(), SideStop>
        requires { IsInStep self.old.reading.ended (O.state outside.old (role_of side)) }
        ensures looks { LooksAt result self.old self.new (O.state outside.old (role_of side)) (O.state outside.new (role_of side)) }
        ensures others { ChangesOnly (role_of side) (O.state outside.old) (O.state outside.new) }
        ensures names { NamesStay (O.under outside.old) (O.under outside.new) }
    {
        if self.head.is_some() {
            return Ok(());
        }
        match self.source.take_straight()? {
            Some(row) => {
                self.head = Some(row);
                Ok(())
            }
            None => self.take_or_read(side, outside),
        }
    }

    /// Takes the first row where no row comes after those that wait, else reads it.
    #[inline(always)]
    fn take_or_read<O: Outside>(&mut self, side: Side, outside: &mut O) -> Result<(), SideStop>
        requires in_step { IsInStep self.old.reading.ended (O.state outside.old (role_of side)) }
        requires unknown { self.old.head ≡ None }
        ensures looks { LooksAt result self.old self.new (O.state outside.old (role_of side)) (O.state outside.new (role_of side)) }
        ensures others { ChangesOnly (role_of side) (O.state outside.old) (O.state outside.new) }
        ensures names { NamesStay (O.under outside.old) (O.under outside.new) }
    {
        match self.source.take_last() {
            Some(row) => {
                self.head = Some(row);
                Ok(())
            }
            None => self.read(side, outside),
        }
    }

    /// Reads the first row where none is known, in whatever form it is.
    #[inline(never)]
    fn read<O: Outside>(&mut self, side: Side, outside: &mut O) -> Result<(), SideStop>
        requires in_step { IsInStep self.old.reading.ended (O.state outside.old (role_of side)) }
        requires unknown { self.old.head ≡ None }
        ensures looks { LooksAt result self.old self.new (O.state outside.old (role_of side)) (O.state outside.new (role_of side)) }
        ensures others { ChangesOnly (role_of side) (O.state outside.old) (O.state outside.new) }
        ensures names { NamesStay (O.under outside.old) (O.under outside.new) }
    {
        self.head = self.source.next_row(side, outside)?;
        Ok(())
    }

    /// Returns whether the first row, or the end, can be told without a read.
    #[inline(always)]
    fn is_ready(&self) -> bool
        ensures { IsTrue result → IsTold self.now }
    {
        self.head.is_some() || self.source.is_ready()
    }
}

/// The rows of two streams in the order in which they arrive.
#[derive(Drop)]
pub(crate) struct Arrivals {
    left: PeekedRows,
    right: PeekedRows,
}

impl Model for Arrivals {
    ghost use Rattle.hj_event.specs.Sides.{Sides};

    ghost Value = { Sides };

    ghost view = { λ a. record { left = a.left; right = a.right } };
}

impl Arrivals {
    /// Makes the arrivals of two streams of which nothing was read, with rows by these schemas, which may be late by the slack.
    pub(crate) fn new(alloc: Global, left: Schema, right: Schema, slack: u64) -> Self
        ensures { result ≡ new_sides left.columns right.columns slack }
    {
        Arrivals {
            left: PeekedRows::new(alloc, left, slack),
            right: PeekedRows::new(alloc, right, slack),
        }
    }

    /// Takes the next arrival: of the heads of both sides the one with the lesser time, on a tie the left one. The left head
    /// is looked at first. A role is read only where its side's head isn't known.
    #[inline(always)]
    pub(crate) fn next_arrival<O: Outside>(
        &mut self,
        outside: &mut O,
    ) -> Result<(Side, SharedRow), MergeEnd>
        requires left { IsInStep self.old.left.reading.ended (O.state outside.old role.Left) }
        requires right { IsInStep self.old.right.reading.ended (O.state outside.old role.Right) }
        ensures takes { TakesArrival result self.old self.new (O.state outside.old) (O.state outside.new) }
        ensures names { NamesStay (O.under outside.old) (O.under outside.new) }
    {
        match self.left.look(Side::Left, outside) {
            Ok(()) => (),
            Err(stop) => return Err(last(Side::Left, stop)),
        }
        match self.right.look(Side::Right, outside) {
            Ok(()) => (),
            Err(stop) => return Err(last(Side::Right, stop)),
        }
        match self.take_head() {
            Some(arrival) => Ok(arrival),
            None => Err(MergeEnd::Done),
        }
    }

    /// Takes the head that arrives first; None where there is none.
    #[inline(always)]
    fn take_head(&mut self) -> Option<(Side, SharedRow)>
        ensures { TakesHead result self.old self.new }
    {
        let side = first_side(&self.left.head, &self.right.head);
        let row = match side {
            Side::Left => self.left.head.take()?,
            Side::Right => self.right.head.take()?,
        };
        Some((side, row))
    }

    /// Returns whether the next arrival can be told without a read.
    #[inline(always)]
    pub(crate) fn is_ready(&self) -> bool
        ensures { IsTrue result → IsTold self.now.left × IsTold self.now.right }
    {
        self.left.is_ready() && self.right.is_ready()
    }
}

/// Returns the side of the head that arrives first: the one with the lesser time, on a tie the left one.
#[inline(always)]
fn first_side(left: &Option<SharedRow>, right: &Option<SharedRow>) -> Side
    ensures { result ≡ first_side left.now right.now }
{
    match (left, right) {
        (Some(left), Some(right)) if left.row().time() <= right.row().time() => Side::Left,
        (_, Some(_)) => Side::Right,
        (_, None) => Side::Left,
    }
}

/// Returns how the merge ends where a side stops.
fn last(side: Side, stop: SideStop) -> MergeEnd
    ensures { result ≡ last_of side stop }
{
    match stop {
        SideStop::Bad { at, fault } => MergeEnd::Bad { side, at, fault },
        SideStop::Failed => MergeEnd::Failed(side),
        SideStop::Memory => MergeEnd::Memory,
    }
}
