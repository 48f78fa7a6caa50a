ghost use Rattle.hj_base.specs.declared.outside.Role.{Role};
ghost use Rattle.hj_base.specs.Outside.{NamesStay, NoneBegun};
ghost use Rattle.hj_opening.specs.Orders.{join_seen};
ghost use Rattle.hj_opening.specs.Ready.{MakesReady};
ghost use Rattle.hj_opening.specs.Words.{TextKind};

use crate::query::{open, query_of};
use crate::source::JoinOrder;
use hj_base::{Outside, Role};
use hj_notes::Note;
use hj_query::Query;
use std::alloc::Global;

/// Gets the query of a join, and opens its two streams, the left one first. The error is the note that says why that wasn't
/// done: the query, a stream, or memory.
pub fn make_ready<O: Outside>(
    alloc: Global,
    join: JoinOrder<'_>,
    outside: &mut O,
) -> Result<Query, Note>
    requires { NoneBegun (O.state outside.old) }
    ensures ready { (kind : TextKind) → MakesReady result (join_seen kind join.entry) (O.under outside.old) (O.state outside.old) (O.state outside.new) }
    ensures names { NamesStay (O.under outside.old) (O.under outside.new) }
{
    let query = query_of(alloc, join.source, outside)?;
    open(outside, Role::Left, join.left)?;
    open(outside, Role::Right, join.right)?;
    Ok(query)
}
