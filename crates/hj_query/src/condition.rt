ghost use Rattle.std.specs.Prelude.{◌≡◌, ◌<◌, ◌≤◌, ◌+◌, List, codes, length, IsTrue, MatchOption, MatchResult, OnOk};
ghost use Rattle.hj_lex.specs.declared.token.TokenKind.TheVariants as kinds;
ghost use Rattle.hj_query.specs.declared.fault.QueryFault.TheVariants as faults;
ghost use Rattle.hj_query.specs.Faults.{EndsPred, FaultsAtom, FaultsCondition, FaultsConj, FaultsPred, FaultsUnary};
ghost use Rattle.hj_query.specs.Grammar.{most_depth, op_sign, EndsSum, IsAtom, IsCondition, IsConj, IsPred, IsSum, IsUnary};
ghost use Rattle.hj_query.specs.Lexemes.{next_is, place, Lexeme, LacksSign, LacksWord};
ghost use Rattle.hj_query.specs.Sides.{columns_in};
ghost use Rattle.hj_query.specs.Texts.{Unless};

use crate::cursor::Cursor;
use crate::schemas::Schemas;
use crate::term::sum;
use crate::types::{can_compare, can_subtract};
use crate::{Op, Pred, QueryFault, Sum, Wanted};
use std::alloc::Global;

/// How many `not` and `(` may stand around one another.
const MOST_DEPTH: u8 = 64;

/// Reads `on`, a condition, and the end of the text.
pub fn condition(
    alloc: Global,
    schemas: &Schemas,
    cursor: &mut Cursor<'_>,
) -> Result<Pred, QueryFault>
    ensures { MatchResult result
        (λ pred. IsCondition (columns_in schemas.now) cursor.old pred)
        (λ fault. Unless fault (FaultsCondition (columns_in schemas.now) cursor.old)) }
{
    cursor.word(b"on", Wanted::OnWord)?;
    let pred = pred(alloc, schemas, cursor, 0)?;
    if !cursor.is_sign(b"") {
        return Err(cursor.expected(Wanted::End));
    }
    Ok(pred)
}

/// Reads a condition inside this many `not` and `(`.
#[cycle(pred)]
fn pred(
    alloc: Global,
    schemas: &Schemas,
    cursor: &mut Cursor<'_>,
    depth: u8,
) -> Result<Pred, QueryFault>
    requires { depth ≤ most_depth }
    ensures shorter { OnOk result (length cursor.new < length cursor.old) }
    ensures read { MatchResult result
        (λ pred. IsPred (columns_in schemas.now) depth cursor.old pred cursor.new × EndsPred cursor.new)
        (λ fault. Unless fault (FaultsPred (columns_in schemas.now) depth cursor.old)) }
{
    let mut left = conj(alloc, schemas, cursor, depth)?;
    'disjuncts: while cursor.is_word(b"or") {
        cursor.skip();
        let right = conj(alloc, schemas, cursor, depth)?;
        left = Pred::Or(Box::new(alloc, left)?, Box::new(alloc, right)?);
    }
    Ok(left)
}

/// Reads the operands of an `or`.
#[cycle(pred)]
fn conj(
    alloc: Global,
    schemas: &Schemas,
    cursor: &mut Cursor<'_>,
    depth: u8,
) -> Result<Pred, QueryFault>
    requires { depth ≤ most_depth }
    ensures shorter { OnOk result (length cursor.new < length cursor.old) }
    ensures read { MatchResult result
        (λ pred. IsConj (columns_in schemas.now) depth cursor.old pred cursor.new × LacksWord (codes "and") cursor.new)
        (λ fault. Unless fault (FaultsConj (columns_in schemas.now) depth cursor.old)) }
{
    let mut left = unary(alloc, schemas, cursor, depth)?;
    'conjuncts: while cursor.is_word(b"and") {
        cursor.skip();
        let right = unary(alloc, schemas, cursor, depth)?;
        left = Pred::And(Box::new(alloc, left)?, Box::new(alloc, right)?);
    }
    Ok(left)
}

/// Reads an operand of an `and`.
#[cycle(pred)]
fn unary(
    alloc: Global,
    schemas: &Schemas,
    cursor: &mut Cursor<'_>,
    depth: u8,
) -> Result<Pred, QueryFault>
    requires { depth ≤ most_depth }
    ensures shorter { OnOk result (length cursor.new < length cursor.old) }
    ensures read { MatchResult result
        (λ pred. IsUnary (columns_in schemas.now) depth cursor.old pred cursor.new)
        (λ fault. Unless fault (FaultsUnary (columns_in schemas.now) depth cursor.old)) }
{
    if cursor.is_word(b"not") {
        let inside = deeper(cursor, depth)?;
        cursor.skip();
        let inner = unary(alloc, schemas, cursor, inside)?;
        return Ok(Pred::Not(Box::new(alloc, inner)?));
    }
    if cursor.is_sign(b"(") {
        let inside = deeper(cursor, depth)?;
        cursor.skip();
        let inner = pred(alloc, schemas, cursor, inside)?;
        cursor.sign(b")", Wanted::CloseParen)?;
        return Ok(inner);
    }
    atom(alloc, schemas, cursor)
}

/// Returns the depth inside a `not` or `(` that is the next token.
fn deeper(cursor: &Cursor<'_>, depth: u8) -> Result<u8, QueryFault>
    ensures { MatchResult result
        (λ inside. (inside ≡ depth + 1) × (depth < most_depth))
        (λ fault. (most_depth ≤ depth) × (fault ≡ faults.TooDeep (place cursor.now))) }
{
    if depth >= MOST_DEPTH {
        return Err(QueryFault::TooDeep(cursor.place()));
    }
    Ok(depth + 1)
}

/// Reads a comparison or a distance.
fn atom(alloc: Global, schemas: &Schemas, cursor: &mut Cursor<'_>) -> Result<Pred, QueryFault>
    ensures shorter { OnOk result (length cursor.new < length cursor.old) }
    ensures read { MatchResult result
        (λ pred. IsAtom (columns_in schemas.now) cursor.old pred cursor.new)
        (λ fault. Unless fault (FaultsAtom (columns_in schemas.now) cursor.old)) }
{
    let begin = cursor.place();
    let left = sum(alloc, schemas, cursor)?;
    if cursor.is_word(b"within") {
        distance(alloc, schemas, cursor, left, begin)
    } else {
        comparison(alloc, schemas, cursor, left, begin)
    }
}

/// Reads on from `within`, after the first sum of a distance that begins at this place.
fn distance(
    alloc: Global,
    schemas: &Schemas,
    cursor: &mut Cursor<'_>,
    left: Sum,
    begin: usize,
) -> Result<Pred, QueryFault>
    requires { IsTrue (next_is kinds.Name (codes "within") cursor.old) }
    ensures shorter { OnOk result (length cursor.new < length cursor.old) }
    ensures read { (here : List Lexeme) → IsSum (columns_in schemas.now) here left cursor.old → place here ≡ begin → MatchResult result
        (λ pred. IsAtom (columns_in schemas.now) here pred cursor.new)
        (λ fault. Unless fault (FaultsAtom (columns_in schemas.now) here)) }
{
    cursor.skip();
    let distance = cursor.number()?;
    cursor.word(b"of", Wanted::OfWord)?;
    let right = sum(alloc, schemas, cursor)?;
    if !can_subtract(schemas, &left, &right) {
        return Err(QueryFault::Types(begin));
    }
    Ok(Pred::Within(distance, left, right))
}

/// Reads on after the first sum of a comparison that begins at this place.
fn comparison(
    alloc: Global,
    schemas: &Schemas,
    cursor: &mut Cursor<'_>,
    left: Sum,
    begin: usize,
) -> Result<Pred, QueryFault>
    requires { LacksWord (codes "within") cursor.old }
    ensures shorter { OnOk result (length cursor.new < length cursor.old) }
    ensures read { (here : List Lexeme) → IsSum (columns_in schemas.now) here left cursor.old → EndsSum cursor.old → place here ≡ begin → MatchResult result
        (λ pred. IsAtom (columns_in schemas.now) here pred cursor.new)
        (λ fault. Unless fault (FaultsAtom (columns_in schemas.now) here)) }
{
    let Some(op) = operator(cursor) else {
        return Err(cursor.expected(Wanted::Comparison));
    };
    cursor.skip();
    let right = sum(alloc, schemas, cursor)?;
    if !can_compare(schemas, &left, &right) {
        return Err(QueryFault::Types(begin));
    }
    Ok(Pred::Compare(op, left, right))
}

/// Returns the operator of a comparison that is the next token; None where there is none.
fn operator(cursor: &Cursor<'_>) -> Option<Op>
    ensures { MatchOption result
        ((op : Op) → LacksSign (op_sign op) cursor.now)
        (λ op. IsTrue (next_is kinds.Sign (op_sign op) cursor.now)) }
{
    if cursor.is_sign(b"=") {
        Some(Op::Eq)
    } else if cursor.is_sign(b"!=") {
        Some(Op::Ne)
    } else if cursor.is_sign(b"<") {
        Some(Op::Lt)
    } else if cursor.is_sign(b"<=") {
        Some(Op::Le)
    } else if cursor.is_sign(b">") {
        Some(Op::Gt)
    } else if cursor.is_sign(b">=") {
        Some(Op::Ge)
    } else {
        None
    }
}
