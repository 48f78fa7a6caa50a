ghost use Rattle.std.specs.Prelude.{◌≡◌, ◌<◌, codes, length, IsTrue, MatchOption, MatchResult, OnOk};
ghost use Rattle.hj_lex.specs.declared.token.TokenKind.TheVariants as kinds;
ghost use Rattle.hj_query.specs.Faults.{FaultsSum, FaultsTerm};
ghost use Rattle.hj_query.specs.Grammar.{part_sign, side_word, EndsSum, IsSum, IsTerm};
ghost use Rattle.hj_query.specs.Lexemes.{next_is};
ghost use Rattle.hj_query.specs.Sides.{columns_in};
ghost use Rattle.hj_query.specs.Texts.{Unless};

use crate::cursor::Cursor;
use crate::schema::place_of_name;
use crate::schemas::Schemas;
use crate::{FurtherTerms, QueryFault, SignedTerm, Sum, Term, Wanted};
use hj_base::Side;
use std::alloc::Global;

/// Reads a sum, the longest that begins here.
pub fn sum(alloc: Global, schemas: &Schemas, cursor: &mut Cursor<'_>) -> Result<Sum, QueryFault>
    ensures shorter { OnOk result (length cursor.new < length cursor.old) }
    ensures read { MatchResult result
        (λ sum. IsSum (columns_in schemas.now) cursor.old sum cursor.new × EndsSum cursor.new)
        (λ fault. Unless fault (FaultsSum (columns_in schemas.now) cursor.old)) }
{
    let first = term(alloc, schemas, cursor)?;
    let mut rest = FurtherTerms::new(alloc);
    'parts: while let Some(plus) = part_sign(cursor) {
        cursor.skip();
        let term = term(alloc, schemas, cursor)?;
        rest.push(SignedTerm { plus, term })?;
    }
    Ok(Sum { first, rest })
}

/// Returns whether the next token adds a term to a sum or takes one off; None where it does neither.
fn part_sign(cursor: &Cursor<'_>) -> Option<bool>
    ensures { MatchOption result
        (EndsSum cursor.now)
        (λ plus. IsTrue (next_is kinds.Sign (part_sign plus) cursor.now)) }
{
    if cursor.is_sign(b"+") {
        Some(true)
    } else if cursor.is_sign(b"-") {
        Some(false)
    } else {
        None
    }
}

/// Reads a term.
fn term(alloc: Global, schemas: &Schemas, cursor: &mut Cursor<'_>) -> Result<Term, QueryFault>
    ensures shorter { OnOk result (length cursor.new < length cursor.old) }
    ensures read { MatchResult result
        (λ term. IsTerm (columns_in schemas.now) cursor.old term cursor.new)
        (λ fault. Unless fault (FaultsTerm (columns_in schemas.now) cursor.old)) }
{
    if cursor.is_word(b"l") {
        return column(schemas, cursor, Side::Left);
    }
    if cursor.is_word(b"r") {
        return column(schemas, cursor, Side::Right);
    }
    if cursor.is_number() {
        return Ok(Term::Number(cursor.number()? as i64));
    }
    if cursor.is_sign(b"-") {
        cursor.skip();
        return Ok(Term::Number(-(cursor.number()? as i64)));
    }
    Ok(Term::Text(cursor.text(alloc)?))
}

/// Reads a column of the side whose word comes.
fn column(schemas: &Schemas, cursor: &mut Cursor<'_>, side: Side) -> Result<Term, QueryFault>
    requires { IsTrue (next_is kinds.Name (side_word side) cursor.old) }
    ensures shorter { OnOk result (length cursor.new < length cursor.old) }
    ensures read { MatchResult result
        (λ term. IsTerm (columns_in schemas.now) cursor.old term cursor.new)
        (λ fault. Unless fault (FaultsTerm (columns_in schemas.now) cursor.old)) }
{
    cursor.skip();
    cursor.sign(b".", Wanted::Dot)?;
    let place = cursor.place();
    let name = cursor.name()?;
    match place_of_name(&schemas.of(side).columns, name) {
        Some(at) => Ok(Term::Column(side, at)),
        None => Err(QueryFault::UnknownColumn(place)),
    }
}
