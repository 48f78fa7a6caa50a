ghost use Rattle.hj_base.specs.declared.outside.Role.{Role};
ghost use Rattle.hj_base.specs.Outside.{NamesStay, NoneBegun};
ghost use Rattle.hj_opening.specs.Orders.{chain_seen, checked_names_seen};
ghost use Rattle.hj_opening.specs.ReadyToCheck.{MakesReadyToCheck};

use crate::check_order::CheckOrder;
use crate::query::open;
use crate::ready::make_ready;
use crate::source::{JoinOrder, QuerySource};
use hj_base::{Outside, Role};
use hj_notes::Note;
use hj_query::Query;
use std::alloc::Global;

/// Gets the query of a check, and opens its two streams, its trace and its output, in this order. The error is the note that says why
/// that wasn't done: the query, a stream, or memory.
pub fn make_ready_to_check<O: Outside>(
    alloc: Global,
    check: CheckOrder<'_>,
    outside: &mut O,
) -> Result<Query, Note>
    requires { NoneBegun (O.state outside.old) }
    ensures ready { MakesReadyToCheck result (chain_seen check.entry.size) check.entry.query.now (checked_names_seen check.entry) check.entry.limit
        (O.under outside.old) (O.state outside.old) (O.state outside.new) }
    ensures names { NamesStay (O.under outside.old) (O.under outside.new) }
{
    let join = JoinOrder {
        source: QuerySource::Named(check.query),
        left: check.left,
        right: check.right,
        limit: check.limit,
    };
    let query = make_ready(alloc, join, outside)?;
    open(outside, Role::Trace, check.trace)?;
    open(outside, Role::Output, check.output)?;
    Ok(query)
}
