ghost use Rattle.std.specs.Prelude.{◌≡◌, ◌&&◌, [], true, length, List, OnOk, IfOk};
ghost use Rattle.std.specs.List.{list_all};
ghost use Rattle.hj_value.specs.declared.field.Field.{Field};
ghost use Rattle.hj_eval.specs.Filter.{pred_on};
ghost use Rattle.hj_eval.specs.Holds.{holds};
ghost use Rattle.hj_eval.specs.Tests.{all_hold, number_holds, texts_meet};

use crate::column_test::{NumberTest, TextTest, number_test, text_test};
use crate::condition::pred_holds;
use crate::row_pair::RowPair;
use hj_base::Memory;
use hj_query::{Pred, Query};
use hj_value::Row;
use std::alloc::Global;

/// A query's condition as what is left of it once all `and`s at its top are taken apart, ready for many rows.
///
/// The columns and the types of tests of two columns are looked up once. What costs least is tested first.
#[derive(Drop)]
pub struct Conjuncts<'a> {
    pub numbers: Vec<NumberTest>,
    pub texts: Vec<TextTest>,
    /// All other parts.
    pub others: Vec<&'a Pred>,
}

/// Adds the parts of a part of a query's condition. The left operands may stand as deep as the condition is long, so this keeps
/// little on the stack.
fn add_conjuncts<'a>(query: &Query, pred: &'a Pred, found: &mut Conjuncts<'a>) -> Result<(), Memory>
    ensures { OnOk result ((left right : List Field)
        → all_hold query.now found.new left right ≡ (all_hold query.now found.old left right && pred_on query.now pred.now left right)) }
{
    match pred {
        Pred::And(left, right) => {
            add_conjuncts(query, left, found)?;
            add_conjuncts(query, right, found)
        }
        Pred::Or(..) | Pred::Not(_) | Pred::Compare(..) | Pred::Within(..) => found.add(
            query, pred,
        ),
    }
}

impl<'a> Conjuncts<'a> {
    /// Makes a query's condition ready for many rows.
    pub fn of(alloc: Global, query: &'a Query) -> Result<Self, Memory>
        ensures { IfOk result (λ conjuncts. (left right : List Field) → all_hold query.now conjuncts left right ≡ holds query.now left right) }
    {
        let mut found = Conjuncts {
            numbers: Vec::new(alloc),
            texts: Vec::new(alloc),
            others: Vec::new(alloc),
        };
        add_conjuncts(query, query.pred(), &mut found)?;
        Ok(found)
    }

    /// Adds a part of a query's condition that is taken apart no further.
    fn add(&mut self, query: &Query, pred: &'a Pred) -> Result<(), Memory>
        ensures { OnOk result ((left right : List Field)
            → all_hold query.now self.new left right ≡ (all_hold query.now self.old left right && pred_on query.now pred.now left right)) }
    {
        if let Some(test) = number_test(query, pred) {
            self.numbers.push(test)?;
        } else if let Some(test) = text_test(query, pred) {
            self.texts.push(test)?;
        } else {
            self.others.push(pred)?;
        }
        Ok(())
    }

    /// Asks whether all parts hold for a left and a right row, under the query whose condition they are.
    // The first test of numbers is compiled into the caller, since most rows that are looked at fail it.
    #[inline(always)]
    pub fn hold(&self, query: &Query, left: &Row, right: &Row) -> bool
        ensures { result ≡ all_hold query.now self.now left.now right.now }
    {
        let Some((first, others)) = self.numbers.split_first() else {
            return self.rest_holds(query, &[], left, right);
        };
        first.holds(left, right)
            && (self.is_one_test() || self.rest_holds(query, others, left, right))
    }

    /// Returns whether there is a single part, which is a test of numbers; false says nothing.
    #[inline(always)]
    fn is_one_test(&self) -> bool
        ensures numbers { result ≡ true → length self.now.numbers.items ≡ 1 }
        ensures texts { result ≡ true → self.now.texts.items ≡ [] }
        ensures others { result ≡ true → self.now.others.items ≡ [] }
    {
        self.numbers.len() == 1 && self.texts.is_empty() && self.others.is_empty()
    }

    /// Asks whether these tests of numbers, and all parts that are none, hold for a left and a right row.
    #[inline(never)]
    fn rest_holds(&self, query: &Query, numbers: &[NumberTest], left: &Row, right: &Row) -> bool
        ensures { result ≡ (list_all (λ test. number_holds test left.now right.now) numbers.now
            && (list_all (λ test. texts_meet test.op test.columns left.now right.now) self.now.texts.items
            && list_all (λ pred. pred_on query.now pred.now left.now right.now) self.now.others.items)) }
    {
        numbers_hold(numbers, left, right)
            && self.texts_hold(left, right)
            && self.others_hold(query, left, right)
    }

    /// Asks whether all tests of texts hold for a left and a right row.
    #[inline(always)]
    fn texts_hold(&self, left: &Row, right: &Row) -> bool
        ensures { result ≡ list_all (λ test. texts_meet test.op test.columns left.now right.now) self.now.texts.items }
    {
        for test in &self.texts {
            if !test.holds(left, right) {
                return false;
            }
        }
        true
    }

    /// Asks whether all other parts hold for a left and a right row.
    #[inline(always)]
    fn others_hold(&self, query: &Query, left: &Row, right: &Row) -> bool
        ensures { result ≡ list_all (λ pred. pred_on query.now pred.now left.now right.now) self.now.others.items }
    {
        let rows = RowPair { query, left, right };
        for pred in &self.others {
            if !pred_holds(&rows, pred) {
                return false;
            }
        }
        true
    }
}

/// Asks whether tests of numbers hold for a left and a right row.
#[inline(always)]
fn numbers_hold(tests: &[NumberTest], left: &Row, right: &Row) -> bool
    ensures { result ≡ list_all (λ test. number_holds test left.now right.now) tests.now }
{
    for test in tests {
        if !test.holds(left, right) {
            return false;
        }
    }
    true
}
