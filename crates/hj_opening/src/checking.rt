ghost use Rattle.hj_base.specs.declared.outside.Role.{Role};
ghost use Rattle.hj_base.specs.Outside.{NoneBegun};
ghost use Rattle.hj_opening.specs.Calls.{call};
ghost use Rattle.hj_opening.specs.Check.{SendsCanonical};
ghost use Rattle.hj_opening.specs.Run.{RunsOrder};
ghost use Rattle.hj_opening.specs.Words.{check_query};

use crate::query::read_query;
use hj_base::{Outside, Role, Sent, Sink, put_all};
use hj_notes::Note;
use hj_query::{Query, print};
use std::alloc::Global;

/// Writes the canonical text of the query under a name to `out`, in one write where the sink takes all of it. The error is the
/// note that says why that couldn't be done: the query's stream, its text, the sink, or memory.
pub fn check<O: Outside, K: Sink>(
    alloc: Global,
    name: &str,
    outside: &mut O,
    out: &mut K,
) -> Result<(), Note>
    requires { NoneBegun (O.state outside.old) }
    ensures { RunsOrder result (check_query name.now)
        (call (O.under outside.old) (O.state outside.old) (O.state outside.new) (K.told out.old) (K.told out.new)
        (K.faults out.old) (K.faults out.new)) }
{
    let query = read_query(alloc, Role::Query, name, outside)?;
    write_canonical(alloc, &query, out)
}

/// Writes the canonical text of a query to `out`. The error is the note that says why that couldn't be done: the sink, or memory.
fn write_canonical<K: Sink>(alloc: Global, query: &Query, out: &mut K) -> Result<(), Note>
    ensures { SendsCanonical result query.now (K.told out.old) (K.told out.new) (K.faults out.old) (K.faults out.new) }
{
    let canonical = print(alloc, query)?;
    match put_all(out, canonical.bytes()) {
        Sent::Whole => Ok(()),
        Sent::Failed => Err(Note::Sink),
        Sent::Memory => Err(Note::Memory),
    }
}
