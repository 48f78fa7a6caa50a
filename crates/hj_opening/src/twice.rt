ghost use Rattle.std.specs.Prelude.{◌≡◌, List, ℕ};
ghost use Rattle.std.specs.declared.option.Option.{Option};
ghost use Rattle.hj_base.specs.declared.outside.Role.{Role};
ghost use Rattle.hj_base.specs.declared.outside.Role.TheVariants as roles;
ghost use Rattle.hj_base.specs.Outside.{RoleState, unbegun, NamesStay, NoneBegun};
ghost use Rattle.hj_opening.specs.ReadyTwice.{GetsBoth, GetsSecond, GoesBehind, MakesTwiceReady, second_note};
ghost use Rattle.hj_opening.specs.RunTwice.{common, end_of_second, end_of_twice, twice_names};
ghost use Rattle.hj_opening.specs.Words.{TwiceNames};

use crate::ending::end_of;
use crate::query::{open, read_query};
use hj_base::{Outside, Role};
use hj_notes::{Note, TwiceNote};
use hj_query::Query;
use hj_relay::{TwiceOutcome, fits};
use hj_stream::Outcome;
use std::alloc::Global;

/// The order of two joins in a row, apart from how they are run.
#[derive(Clone, Copy, Debug)]
pub struct TwiceOrder<'a> {
    /// The name of the first join's query.
    pub query: &'a str,
    /// The name of its left stream.
    pub left: &'a str,
    /// The name of its right stream.
    pub right: &'a str,
    /// The name of the second join's query.
    pub second: &'a str,
    /// The name of the second join's right stream.
    pub third: &'a str,
    /// How many events each join numbers at most.
    pub limit: u64,
}

/// The queries of two joins in a row.
#[derive(Drop)]
pub struct TwoQueries {
    pub first: Query,
    /// Its left stream can be the pairs of the first join.
    pub second: Query,
}

/// Gets both queries of two joins in a row, the first one first, and opens their three streams in order. The error is the note that
/// says why that wasn't done: a query, that the second one doesn't fit the first, a stream, or memory.
pub fn make_twice_ready<O: Outside>(
    alloc: Global,
    joins: TwiceOrder<'_>,
    outside: &mut O,
) -> Result<TwoQueries, TwiceNote>
    requires { NoneBegun (O.state outside.old) }
    ensures ready { MakesTwiceReady result (twice_names joins.entry) joins.entry.limit (O.under outside.old) (O.state outside.old) (O.state outside.new) }
    ensures names { NamesStay (O.under outside.old) (O.under outside.new) }
{
    let queries = read_both(alloc, joins, outside)?;
    open(outside, Role::Left, joins.left)?;
    open(outside, Role::Right, joins.right)?;
    open(outside, Role::Third, joins.third)?;
    Ok(queries)
}

/// Reads both queries of two joins in a row, the first one first. The error is the note that says why they weren't got, or that the
/// second one can't read the pairs of the first join.
fn read_both<O: Outside>(
    alloc: Global,
    joins: TwiceOrder<'_>,
    outside: &mut O,
) -> Result<TwoQueries, TwiceNote>
    requires { NoneBegun (O.state outside.old) }
    ensures gets { GetsBoth result (twice_names joins.entry) joins.entry.limit (O.under outside.old) (O.state outside.old) (O.state outside.new) }
    ensures names { NamesStay (O.under outside.old) (O.under outside.new) }
{
    let first = read_query(alloc, Role::Query, joins.query, outside)?;
    read_behind(alloc, first, joins.second, outside)
}

/// Reads the second query under a name, behind this first one. The error is the note that says why it wasn't got, or that it can't read
/// the pairs of the first join.
fn read_behind<O: Outside>(
    alloc: Global,
    first: Query,
    name: &str,
    outside: &mut O,
) -> Result<TwoQueries, TwiceNote>
    requires { (O.state outside.old roles.SecondQuery).phase ≡ unbegun }
    ensures gets { (names : TwiceNames) (limit : ℕ) (under : List ℕ → Option (List ℕ)) (before : Role → RoleState)
        → GoesBehind first name.now names under before (O.under outside.old) (O.state outside.old)
        → GetsBoth result names limit under before (O.state outside.new) }
    ensures names { (other : List ℕ) → O.under outside.new other ≡ O.under outside.old other }
{
    let second = read_second(alloc, name, outside)?;
    if fits(&first, &second) {
        Ok(TwoQueries { first, second })
    } else {
        Err(TwiceNote::Shape)
    }
}

/// Reads the second query under a name. The error is the note that says why there is none: its stream, its text, or memory.
fn read_second<O: Outside>(alloc: Global, name: &str, outside: &mut O) -> Result<Query, TwiceNote>
    requires { (O.state outside.old roles.SecondQuery).phase ≡ unbegun }
    ensures gets { GetsSecond result name.now (O.under outside.old) (O.state outside.old) (O.state outside.new) }
    ensures names { (other : List ℕ) → O.under outside.new other ≡ O.under outside.old other }
{
    match read_query(alloc, Role::SecondQuery, name, outside) {
        Ok(query) => Ok(query),
        Err(note) => Err(second_note(note)),
    }
}

/// Gives the note of a second query that wasn't got, by the note that its reading gave.
fn second_note(note: Note) -> TwiceNote
    ensures { result ≡ second_note note }
{
    match note {
        Note::BadQuery(fault) => TwiceNote::BadSecondQuery(fault),
        _ => TwiceNote::Common(note),
    }
}

/// Gives the ending of a run whose two joins ended so. `limit` is how many events each of them numbers at most.
pub fn end_of_twice(limit: u64, ended: TwiceOutcome) -> Result<(), TwiceNote>
    ensures { result ≡ end_of_twice limit ended }
{
    match ended {
        TwiceOutcome::Done { .. } => Ok(()),
        TwiceOutcome::First(outcome) => common(end_of(limit, outcome)),
        TwiceOutcome::Second(outcome) => end_of_second(limit, outcome),
    }
}

/// Gives the ending of a run whose second join ended so.
fn end_of_second(limit: u64, outcome: Outcome) -> Result<(), TwiceNote>
    ensures { result ≡ end_of_second limit outcome }
{
    match outcome {
        Outcome::Bad { side, at, fault } => Err(TwiceNote::BadSecondRecord { side, at, fault }),
        _ => common(end_of(limit, outcome)),
    }
}

/// Gives an ending that another command may have too.
fn common(ended: Result<(), Note>) -> Result<(), TwiceNote>
    ensures { result ≡ common ended }
{
    match ended {
        Ok(()) => Ok(()),
        Err(note) => Err(TwiceNote::Common(note)),
    }
}
