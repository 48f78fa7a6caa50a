ghost use Rattle.std.specs.Prelude.{◌≡◌, ℕ, ℤ, ◌+◌, ◌++◌, ◌-◌, ◌^◌, true, not, Bool, List, All, Some, IfSome, IfOk, OnOk, map, option_map};
ghost use Rattle.std.specs.Int.{saturate_to_bits};
ghost use Rattle.hj_value.specs.declared.field.Field.{Field};
ghost use Rattle.hj_query.specs.Grammar.{columns_of, is_text};
ghost use Rattle.hj_msg.specs.Quiet.{other_side};
ghost use Rattle.hj_eval.specs.Filter.{asked_by, asks_of, difference, high_key, key_of, least_of, low_key, most_of, number_of, own_key, pred_on, range_of, total, with_number, Implies, IsShort, KeepsMatches};
ghost use Rattle.hj_eval.specs.Holds.{holds};
ghost use Rattle.hj_eval.specs.Values.{IsTotalOf};

use hj_base::{Memory, Side};
use hj_query::{Op, Pred, Query, SignedTerm, Sum, Term};
use hj_rows::{KeyFilter, KeyRange};
use hj_value::{ColumnType, Field, Row, SharedRow};
use std::alloc::Global;

/// A comparison or a distance of two sums of numbers, without which a condition doesn't hold.
///
/// By it each row has a key, a number of 64 bits, and a row of the other side has a range of keys: those of the rows that it may
/// match.
#[derive(Clone, Copy)]
pub struct Filter<'a> {
    need: Need,
    first: &'a Sum,
    second: &'a Sum,
}

/// What is asked of a filter's two sums.
#[derive(Clone, Copy)]
pub enum Need {
    /// They compare so.
    Compare(Op),
    /// They differ by at most this number.
    Within(u64),
}

/// Gives the filters of a query: the comparisons, but `!=`, and the distances of two sums of numbers, among what is left of its
/// condition once all `and`s at the top are taken apart.
pub fn filters<'a>(alloc: Global, query: &'a Query) -> Result<Vec<Filter<'a>>, Memory>
    ensures all { IfOk result (λ filters. map asked_by filters.items ≡ asks_of (columns_of query.now) query.now.pred) }
    ensures keep { IfOk result (λ filters. All (KeepsMatches (holds query.now)) filters.items) }
{
    let mut found = Vec::new(alloc);
    add_filters(query, query.pred(), &mut found)?;
    Ok(found)
}

/// Adds the filters of a part of a query's condition.
fn add_filters<'a>(
    query: &'a Query,
    pred: &'a Pred,
    found: &mut Vec<Filter<'a>>,
) -> Result<(), Memory>
    ensures added { OnOk result (map asked_by found.new.items ≡ map asked_by found.old.items ++ asks_of (columns_of query.now) pred.now) }
    ensures keep { OnOk result ((matches : List Field → List Field → Bool) → Implies matches (pred_on query.now pred.now)
        → All (KeepsMatches matches) found.old.items → All (KeepsMatches matches) found.new.items) }
{
    match pred {
        Pred::And(left, right) => {
            add_filters(query, left, found)?;
            add_filters(query, right, found)
        }
        Pred::Compare(op, first, second) => {
            if *op != Op::Ne && is_number(query, &first.first) {
                found.push(Filter {
                    need: Need::Compare(*op),
                    first,
                    second,
                })?;
            }
            Ok(())
        }
        Pred::Within(distance, first, second) => {
            found.push(Filter {
                need: Need::Within(*distance),
                first,
                second,
            })?;
            Ok(())
        }
        Pred::Or(..) | Pred::Not(_) => Ok(()),
    }
}

/// Asks whether a term is a number by the query's schemas, if it is in a row at all.
fn is_number(query: &Query, term: &Term) -> bool
    ensures { result ≡ not (is_text (columns_of query.now) term.now) }
{
    match term {
        Term::Column(side, at) => match query.schema(*side).columns.get(usize::from(*at)) {
            Some(column) => column.kind != ColumnType::Text,
            None => true,
        },
        Term::Number(_) => true,
        Term::Text(_) => false,
    }
}

impl Filter<'_> {
    /// Gives the key of a row of `side`; 0 where the row lacks a value.
    pub fn own(&self, side: Side, row: &Row) -> u64
        ensures { result ≡ own_key self.now side row.now }
    {
        let reading = RowOfSide {
            side,
            row,
            has_numbers: false,
        };
        match self.difference(&reading) {
            Some(own) => key_of(own),
            None => 0,
        }
    }

    /// Gives the keys of the rows of `side` that may match `against`, a row of the other side; None where no row may.
    pub fn range(&self, side: Side, against: &Row) -> Option<KeyRange>
        ensures { result ≡ range_of self.now side against.now }
    {
        let reading = RowOfSide {
            side: other_side(side),
            row: against,
            has_numbers: true,
        };
        let other = self.difference(&reading)?;
        Some(KeyRange {
            low: self.need.low_key(other),
            high: self.need.high_key(other),
        })
    }

    /// Gives what the first sum is more than the second, as far as it is read: the nearest number of 128 bits; None where a term
    /// has no number.
    fn difference(&self, reading: &RowOfSide<'_>) -> Option<i128>
        ensures { result ≡ option_map (saturate_to_bits 127)
            (difference (number_of reading.now.side reading.now.row.now reading.now.has_numbers) self.now.first.now self.now.second.now) }
    {
        let first = reading.total(self.first)?;
        let second = reading.total(self.second)?;
        Some(first.saturating_sub(second))
    }
}

impl KeyFilter<SharedRow> for Filter<'_> {
    ghost key = { own_key };

    ghost range = { range_of };

    fn key_of(&self, side: Side, row: &SharedRow) -> u64 {
        self.own(side, row.row())
    }

    fn range_for(&self, side: Side, against: &SharedRow) -> Option<KeyRange> {
        self.range(side, against.row())
    }
}

impl Need {
    /// Gives the lowest key of a row that may match one which adds `other`, a number that was cut to 128 bits.
    fn low_key(self, other: i128) -> u64
        ensures { (exact : ℤ) → other ≡ saturate_to_bits 127 exact → result ≡ low_key (least_of self) exact }
    {
        match self.least() {
            Some(least) => key_of(least.saturating_sub(other)),
            None => 0,
        }
    }

    /// Gives the highest key of a row that may match one which adds `other`, a number that was cut to 128 bits.
    fn high_key(self, other: i128) -> u64
        ensures { (exact : ℤ) → other ≡ saturate_to_bits 127 exact → result ≡ high_key (most_of self) exact }
    {
        match self.most() {
            Some(most) => key_of(most.saturating_sub(other)),
            None => u64::MAX,
        }
    }

    /// Gives what the first sum has to be more than the second at least; None is no bound.
    fn least(self) -> Option<i128>
        ensures least { result ≡ least_of self }
        ensures short { IfSome result IsShort }
    {
        match self {
            Need::Compare(Op::Eq | Op::Ge) => Some(0),
            Need::Compare(Op::Gt) => Some(1),
            Need::Compare(Op::Ne | Op::Lt | Op::Le) => None,
            Need::Within(distance) => Some(-i128::from(distance)),
        }
    }

    /// Gives what the first sum may be more than the second at most; None is no bound.
    fn most(self) -> Option<i128>
        ensures most { result ≡ most_of self }
        ensures short { IfSome result IsShort }
    {
        match self {
            Need::Compare(Op::Eq | Op::Le) => Some(0),
            Need::Compare(Op::Lt) => Some(-1),
            Need::Compare(Op::Ne | Op::Gt | Op::Ge) => None,
            Need::Within(distance) => Some(i128::from(distance)),
        }
    }
}

/// The row of one side, of which the columns count in a sum. Numbers count where so said, and columns of the other side don't.
#[derive(Clone, Copy)]
struct RowOfSide<'a> {
    side: Side,
    row: &'a Row,
    has_numbers: bool,
}

impl RowOfSide<'_> {
    /// Gives what a sum comes to; None where a term has no number.
    fn total(&self, sum: &Sum) -> Option<i128>
        ensures { result ≡ total (number_of self.now.side self.now.row.now self.now.has_numbers) sum.now }
    {
        let mut total = i128::from(self.number(&sum.first)?);
        for at in 0..sum.rest.len() {
            let Some(part) = sum.rest.get(at) else {
                unreachable!();
            };
            total = self.with_part(total, part)?;
        }
        Some(total)
    }

    /// Gives a number with a term added to it or taken off it; None where the term has none.
    fn with_part(&self, total: i128, part: &SignedTerm) -> Option<i128>
        requires { IsTotalOf (2 ^ 64 - 1) total }
        ensures value { result ≡ with_number (number_of self.now.side self.now.row.now self.now.has_numbers) (Some total) part.now }
        ensures grows { (terms : ℕ) → IsTotalOf terms total → IfSome result (IsTotalOf (terms + 1)) }
    {
        let number = i128::from(self.number(&part.term)?);
        Some(if part.plus {
            total + number
        } else {
            total - number
        })
    }

    /// Gives the number that a term counts as; None where it has none.
    fn number(&self, term: &Term) -> Option<i64>
        ensures { result ≡ number_of self.now.side self.now.row.now self.now.has_numbers term.now }
    {
        match term {
            Term::Column(side, at) if *side == self.side => match self.row.get(usize::from(*at))? {
                Field::Int(number) => Some(number),
                Field::Text(_) => None,
            },
            Term::Number(number) if self.has_numbers => Some(*number),
            Term::Column(..) | Term::Number(_) => Some(0),
            Term::Text(_) => None,
        }
    }
}

/// Gives the other side.
fn other_side(side: Side) -> Side
    ensures { result ≡ other_side side }
{
    match side {
        Side::Left => Side::Right,
        Side::Right => Side::Left,
    }
}

/// Gives the number of 64 bits that is nearest to this one and 2^63 more, so that keys are in the order of their numbers.
fn key_of(number: i128) -> u64
    ensures { result ≡ key_of number }
{
    (number.clamp(i128::from(i64::MIN), i128::from(i64::MAX)) + (1 << 63)) as u64
}
