ghost use Rattle.std.specs.Prelude.{◌≡◌, IfOk, IsOk};
ghost use Rattle.hj_eval.specs.Holds.{holds};

use crate::conjuncts::Conjuncts;
use hj_base::{Memory, Share};
use hj_msg::Join;
use hj_query::Query;
use hj_value::{Row, SharedRow};
use std::alloc::Global;
use std::marker::Model;

/// A query whose condition is ready for many rows, seen as the query: the condition's parts are a list, in which those that
/// compare two columns were looked up once.
#[derive(Drop)]
pub struct ReadyQuery<'a> {
    query: &'a Query,
    conjuncts: Conjuncts<'a>,
}

impl<'a> Model for ReadyQuery<'a> {
    ghost use Rattle.std.specs.Prelude.{◌≡◌, List};
    ghost use Rattle.hj_query.specs.QueryParts.{QueryParts};
    ghost use Rattle.hj_query.specs.contracts.pred.Pred as e;
    ghost use Rattle.std.specs.Coded.{codes};
    ghost use Rattle.hj_value.specs.declared.field.Field.{Field};
    ghost use Rattle.hj_eval.specs.Holds.{holds};
    ghost use Rattle.hj_eval.specs.Tests.{all_hold};

    ghost Value = { QueryParts };

    ghost coded = { Prim.hlevel (codes, e.the_row.coded) };

    ghost view = { λ c. c.query.now };

    ghost invariant = { λ c. (left right : List Field) → all_hold c.query.now c.conjuncts left right ≡ holds c.query.now left right };
}

impl<'a> ReadyQuery<'a> {
    /// Makes the condition of `query` ready.
    pub fn new(alloc: Global, query: &'a Query) -> Result<Self, Memory>
        ensures { IfOk result (λ ready. ready ≡ query.now) }
    {
        Ok(ReadyQuery {
            query,
            conjuncts: Conjuncts::of(alloc, query)?,
        })
    }

    /// Asks whether the condition holds for a left and a right row, as `holds` tells.
    #[inline(always)]
    pub fn holds(&self, left: &Row, right: &Row) -> bool
        ensures { result ≡ holds self.now left.now right.now }
    {
        self.conjuncts.hold(self.query, left, right)
    }
}

/// The join that a query's condition makes, seen as the query. To share it takes no memory.
#[derive(Drop)]
pub struct QueryJoin<'r> {
    ready: &'r ReadyQuery<'r>,
}

impl<'r> Model for QueryJoin<'r> {
    ghost use Rattle.hj_query.specs.QueryParts.{QueryParts};
    ghost use Rattle.hj_query.specs.contracts.pred.Pred as e;
    ghost use Rattle.std.specs.Coded.{codes};

    ghost Value = { QueryParts };

    ghost coded = { Prim.hlevel (codes, e.the_row.coded) };

    ghost view = { λ c. c.ready.now };
}

impl<'r> QueryJoin<'r> {
    /// Makes the join by the condition of a query that is ready.
    pub fn new<'q>(ready: &'r ReadyQuery<'q>) -> Self
        ensures { result ≡ ready.now }
    {
        QueryJoin { ready }
    }
}

impl Share for QueryJoin<'_> {
    /// Makes a value equal to this one. It takes no memory, and is never refused.
    fn share(&self) -> Result<Self, Memory>
        ensures equal { IfOk result (λ shared. shared ≡ self.now) }
        ensures made { IsOk result }
    {
        Ok(QueryJoin { ready: self.ready })
    }
}

impl Join<SharedRow> for QueryJoin<'_> {
    ghost predicate = { holds };

    #[inline(always)]
    fn matches(&self, left: &SharedRow, right: &SharedRow) -> bool {
        self.ready.holds(left.row(), right.row())
    }
}
