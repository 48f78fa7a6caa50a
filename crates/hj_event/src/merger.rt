ghost use Rattle.std.specs.Prelude.{◌≡◌, IfOk, IsTrue, false};
ghost use Rattle.hj_base.specs.Outside.{NamesStay};
ghost use Rattle.hj_base.specs.declared.outside.Role.TheVariants as role;
ghost use Rattle.hj_event.specs.Merger.{answer_of, AnswersNext, LetsArrive, StepsToAnswer, IsNewMerger, ReadsNothingNext};
ghost use Rattle.hj_event.specs.Numbering.{has_due};
ghost use Rattle.hj_event.specs.Roles.{IsInStep};

use crate::RecordFault;
use crate::arrivals::Arrivals;
use crate::numbering::Numbering;
use crate::stop::MergeEnd;
use hj_base::{Memory, Outside, Side};
use hj_msg::Event;
use hj_query::Query;
use hj_value::SharedRow;
use std::alloc::Global;
use std::marker::Model;

/// The answer of a merger.
#[derive(Drop)]
pub enum Next {
    /// The next event.
    Event(Event<SharedRow>),
    /// Both streams have ended, and every event was given.
    Done,
    /// The record of a side, by its number from 1, is refused; every event before it was given.
    Bad {
        side: Side,
        at: u64,
        fault: RecordFault,
    },
    /// A read of this side failed; every event before it was given.
    Failed(Side),
    /// There would be one event more than the limit.
    TooMany,
    /// Memory ran out.
    Memory,
}

/// Merges the two streams of a query as it reads them, and numbers their events. It keeps the numbers of the live rows, and of
/// each side what was read and isn't cut yet, and the rows that aren't given yet: at most one where the query has no slack.
#[derive(Drop)]
pub struct Merger {
    arrivals: Arrivals,
    numbering: Numbering,
    /// The answer that every call gives from now on.
    over: Option<MergeEnd>,
}

impl Model for Merger {
    ghost use Rattle.hj_event.specs.Merger.{Merging};

    ghost Value = { Merging };

    ghost view = { λ m. record { sides = m.arrivals; numbering = m.numbering; over = m.over } };
}

impl Merger {
    /// Makes a merger of the streams of `query`, by its schemas, windows, slack and quiet number, that gives at most `limit`
    /// events. It fails only where memory runs out.
    pub fn new(alloc: Global, query: &Query, limit: u64) -> Result<Merger, Memory>
        ensures { IfOk result (λ merger. IsNewMerger query.now limit merger) }
    {
        let left = query.schema(Side::Left).copy(alloc)?;
        let right = query.schema(Side::Right).copy(alloc)?;
        let windows = (query.window(Side::Left), query.window(Side::Right));
        Ok(Merger {
            arrivals: Arrivals::new(alloc, left, right, query.slack()),
            numbering: Numbering::new(alloc, windows.0, windows.1, query.quiet(), limit),
            over: None,
        })
    }

    /// Gives the next event of the two streams, or how they end. It reads a role only where it doesn't know that side's next row, at
    /// most 4,096 bytes a read. Every answer other than an event is given again by every later call, which reads nothing.
    #[inline(always)]
    pub fn next<O: Outside>(&mut self, outside: &mut O) -> Next
        requires left { IsInStep self.old.sides.left.reading.ended (O.state outside.old role.Left) }
        requires right { IsInStep self.old.sides.right.reading.ended (O.state outside.old role.Right) }
        ensures answers { AnswersNext result self.old self.new (O.state outside.old) (O.state outside.new) }
        ensures names { NamesStay (O.under outside.old) (O.under outside.new) }
    {
        if let Some(last) = self.over {
            return answer(last);
        }
        match self.step(outside) {
            Ok(event) => Next::Event(event),
            Err(last) => {
                self.over = Some(last);
                answer(last)
            }
        }
    }

    /// Returns whether the next answer can be given without a read, as far as that can be told without one.
    #[inline(always)]
    pub fn is_ready(&self) -> bool
        ensures { IsTrue result → ReadsNothingNext self.now }
    {
        self.over.is_some() || self.numbering.has_due() || self.arrivals.is_ready()
    }

    /// Gives the next event, or the last answer.
    #[inline(always)]
    fn step<O: Outside>(&mut self, outside: &mut O) -> Result<Event<SharedRow>, MergeEnd>
        requires left { IsInStep self.old.sides.left.reading.ended (O.state outside.old role.Left) }
        requires right { IsInStep self.old.sides.right.reading.ended (O.state outside.old role.Right) }
        ensures steps { StepsToAnswer result self.old self.new (O.state outside.old) (O.state outside.new) }
        ensures names { NamesStay (O.under outside.old) (O.under outside.new) }
    {
        if self.numbering.has_due() {
            return self.numbering.give();
        }
        self.give_next(outside)
    }

    /// Takes the next arrival, and gives the first of its events.
    #[inline(never)]
    fn give_next<O: Outside>(&mut self, outside: &mut O) -> Result<Event<SharedRow>, MergeEnd>
        requires left { IsInStep self.old.sides.left.reading.ended (O.state outside.old role.Left) }
        requires right { IsInStep self.old.sides.right.reading.ended (O.state outside.old role.Right) }
        requires none { has_due self.old.numbering.due ≡ false }
        ensures steps { StepsToAnswer result self.old self.new (O.state outside.old) (O.state outside.new) }
        ensures names { NamesStay (O.under outside.old) (O.under outside.new) }
    {
        self.arrive(outside)?;
        self.numbering.give()
    }

    /// Takes the next arrival, whose events are due then.
    #[inline(always)]
    fn arrive<O: Outside>(&mut self, outside: &mut O) -> Result<(), MergeEnd>
        requires left { IsInStep self.old.sides.left.reading.ended (O.state outside.old role.Left) }
        requires right { IsInStep self.old.sides.right.reading.ended (O.state outside.old role.Right) }
        requires none { has_due self.old.numbering.due ≡ false }
        ensures arrives { LetsArrive result self.old self.new (O.state outside.old) (O.state outside.new) }
        ensures names { NamesStay (O.under outside.old) (O.under outside.new) }
    {
        let (side, row) = self.arrivals.next_arrival(outside)?;
        self.numbering.arrive(side, row)?;
        Ok(())
    }
}

/// Returns the answer of a merger that is over.
fn answer(last: MergeEnd) -> Next
    ensures { result ≡ answer_of last }
{
    match last {
        MergeEnd::Done => Next::Done,
        MergeEnd::Bad { side, at, fault } => Next::Bad { side, at, fault },
        MergeEnd::Failed(side) => Next::Failed(side),
        MergeEnd::TooMany => Next::TooMany,
        MergeEnd::Memory => Next::Memory,
    }
}
