ghost use Rattle.std.specs.Prelude.{◌≡◌, ◌++◌, OnOk};
ghost use Rattle.hj_query.specs.Canonical.{part_text, sum_text, term_text};
ghost use Rattle.hj_query.specs.declared.sum.Term.TheVariants as terms;
ghost use Rattle.hj_query.specs.Grammar.{columns_of, part_sign, side_word};

use super::pieces::{push_bytes, push_number, push_quoted};
use crate::{Query, SignedTerm, Sum, Term};
use hj_base::{Memory, Side};

/// Adds a sum to a text: its terms with signs between them.
pub fn push_sum(text: &mut Vec<u8>, query: &Query, sum: &Sum) -> Result<(), Memory>
    ensures { OnOk result (text.new.items ≡ text.old.items ++ sum_text (columns_of query.now) sum.now) }
{
    push_term(text, query, &sum.first)?;
    for at in 0..sum.rest.len() {
        let Some(part) = sum.rest.get(at) else {
            unreachable!();
        };
        push_part(text, query, part)?;
    }
    Ok(())
}

/// Adds a sign and a term after other terms.
fn push_part(text: &mut Vec<u8>, query: &Query, part: &SignedTerm) -> Result<(), Memory>
    ensures { OnOk result (text.new.items ≡ text.old.items ++ part_text (columns_of query.now) part.now) }
{
    push_bytes(text, b" ")?;
    push_bytes(text, part_sign(part.plus))?;
    push_bytes(text, b" ")?;
    push_term(text, query, &part.term)
}

/// Returns the sign of a term that comes after others.
fn part_sign(plus: bool) -> &'static [u8]
    ensures { result.now ≡ part_sign plus }
{
    if plus { b"+" } else { b"-" }
}

/// Adds a term to a text.
fn push_term(text: &mut Vec<u8>, query: &Query, term: &Term) -> Result<(), Memory>
    ensures { OnOk result (text.new.items ≡ text.old.items ++ term_text (columns_of query.now) term.now) }
{
    match term {
        Term::Column(side, at) => push_column(text, query, *side, *at),
        Term::Number(number) => push_number(text, *number),
        Term::Text(value) => push_quoted(text, value.bytes()),
    }
}

/// Adds a column's side and name, with a dot between them.
fn push_column(text: &mut Vec<u8>, query: &Query, side: Side, at: u16) -> Result<(), Memory>
    ensures { OnOk result (text.new.items ≡ text.old.items ++ term_text (columns_of query.now) (terms.Column side at)) }
{
    push_bytes(text, side_word(side))?;
    push_bytes(text, b".")?;
    match query.schema(side).columns.get(usize::from(at)) {
        Some(column) => push_bytes(text, column.name.bytes()),
        None => Ok(()),
    }
}

/// Returns the word of a side.
fn side_word(side: Side) -> &'static [u8]
    ensures { result.now ≡ side_word side }
{
    match side {
        Side::Left => b"l",
        Side::Right => b"r",
    }
}
