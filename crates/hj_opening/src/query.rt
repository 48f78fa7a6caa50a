ghost use Rattle.std.specs.Prelude.{◌≡◌, List, ℕ};
ghost use Rattle.hj_base.specs.declared.outside.Role.{Role};
ghost use Rattle.hj_base.specs.declared.outside.Role.TheVariants as roles;
ghost use Rattle.hj_base.specs.Outside.{unbegun, ChangesOnly, IsOpen, NamesStay, NoneBegun};
ghost use Rattle.hj_opening.specs.Opening.{GetsQuery, Opens, Parses, ReadsText, refusal_of};
ghost use Rattle.hj_opening.specs.Orders.{source_seen};
ghost use Rattle.hj_opening.specs.Words.{named};

use crate::source::QuerySource;
use hj_base::{Got, Opened, Outside, Role};
use hj_notes::Note;
use hj_query::{MOST_BYTES, Query, QueryFault, equi, parse};
use std::alloc::Global;

/// How many bytes one read asks for.
const MOST_IN_READ: usize = 4_096;

/// A text that has so many bytes is no query, whatever follows.
const TOO_MANY: usize = MOST_BYTES + 1;

/// Gets the query of a join: that of `equi`, or the one that is read under a name. The error is the note that says why there is
/// none: its stream, its text, or memory.
pub fn query_of<O: Outside>(
    alloc: Global,
    source: QuerySource<'_>,
    outside: &mut O,
) -> Result<Query, Note>
    requires { NoneBegun (O.state outside.old) }
    ensures gets { GetsQuery result roles.Query (source_seen source.entry) (O.under outside.old) (O.state outside.old) (O.state outside.new) }
    ensures names { NamesStay (O.under outside.old) (O.under outside.new) }
{
    match source {
        QuerySource::Keyed(keyed) => Ok(equi(alloc, keyed.rows)?),
        QuerySource::Named(name) => read_query(alloc, Role::Query, name, outside),
    }
}

/// Opens the query of a role under a name, reads its text, and parses it. The error is the note that says why there is none: its
/// stream, its text, or memory.
pub fn read_query<O: Outside>(
    alloc: Global,
    role: Role,
    name: &str,
    outside: &mut O,
) -> Result<Query, Note>
    requires { (O.state outside.old role).phase ≡ unbegun }
    ensures gets { GetsQuery result role (named name.now) (O.under outside.old) (O.state outside.old) (O.state outside.new) }
    ensures names { (other : List ℕ) → O.under outside.new other ≡ O.under outside.old other }
{
    open(outside, role, name)?;
    let text = read_text(alloc, role, outside)?;
    parsed(alloc, &text)
}

/// Opens the stream of a role under a name. The error is the note that says why it isn't open: the stream, or memory.
pub fn open<O: Outside>(outside: &mut O, role: Role, name: &str) -> Result<(), Note>
    requires { (O.state outside.old role).phase ≡ unbegun }
    ensures opens { Opens result role name.now (O.under outside.old name.now) (O.state outside.old role) (O.state outside.new role) }
    ensures others { ChangesOnly role (O.state outside.old) (O.state outside.new) }
    ensures names { (other : List ℕ) → O.under outside.new other ≡ O.under outside.old other }
{
    match outside.start(role, name) {
        Opened::Ready => Ok(()),
        Opened::Failed => Err(Note::Source(role)),
        Opened::Memory => Err(Note::Memory),
    }
}

/// Reads the text of a role's open query to its end, or as far as it can be one.
fn read_text<O: Outside>(alloc: Global, role: Role, outside: &mut O) -> Result<Vec<u8>, Note>
    requires { IsOpen (O.state outside.old role).phase }
    ensures reads { ReadsText result role (O.state outside.old role) (O.state outside.new role) }
    ensures others { ChangesOnly role (O.state outside.old) (O.state outside.new) }
    ensures names { NamesStay (O.under outside.old) (O.under outside.new) }
{
    let mut text = Vec::new(alloc);
    let mut portion = [0; MOST_IN_READ];
    'reads: while text.len() < TOO_MANY {
        let room = MOST_IN_READ.min(TOO_MANY - text.len());
        match outside.read(role, &mut portion[..room]) {
            Got::Bytes(count) => text.extend_from_slice(&portion[..count])?,
            Got::End => return Ok(text),
            Got::Failed => return Err(Note::Source(role)),
        }
    }
    Ok(text)
}

/// Gives the query that a text spells, or the note of its first fault.
fn parsed(alloc: Global, text: &[u8]) -> Result<Query, Note>
    ensures { Parses result text.now }
{
    match parse(alloc, text) {
        Ok(query) => Ok(query),
        Err(fault) => Err(refusal(fault)),
    }
}

/// Gives the note of a fault of a query's text.
fn refusal(fault: QueryFault) -> Note
    ensures { result ≡ refusal_of fault }
{
    match fault {
        QueryFault::Memory => Note::Memory,
        _ => Note::BadQuery(fault),
    }
}
