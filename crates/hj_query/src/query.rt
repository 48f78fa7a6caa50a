ghost use Rattle.std.specs.Prelude.{◌≡◌, ◌≤◌};
ghost use Rattle.hj_query.specs.Grammar.{IsSpelled, most_quiet, most_slack};
ghost use Rattle.hj_query.specs.Sides.{by_side};

use crate::Pred;
use crate::schemas::Schemas;
use hj_base::{Side, Window};
use hj_value::Schema;
use std::marker::Model;

/// Which rows of two streams are joined: the schemas and the windows of both, how late a row may be, how long a side may be
/// silent, and the condition on their rows.
#[derive(Debug, Drop)]
pub struct Query {
    schemas: Schemas,
    left_window: Window,
    right_window: Window,
    slack: u64,
    quiet: u32,
    pred: Pred,
}

impl Model for Query {
    ghost use Rattle.hj_query.specs.Grammar.{IsSpelled};
    ghost use Rattle.hj_query.specs.QueryParts.{QueryParts};
    ghost use Rattle.hj_query.specs.contracts.pred.Pred as e;
    ghost use Rattle.std.specs.Coded.{codes};

    ghost Value = { QueryParts };

    ghost coded = { Prim.hlevel (codes, e.the_row.coded) };

    ghost view = { λ q. record {
      left = q.schemas.left;
      right = q.schemas.right;
      left_window = q.left_window;
      right_window = q.right_window;
      slack = q.slack;
      quiet = q.quiet;
      pred = q.pred;
    } };

    ghost invariant = { λ q. IsSpelled (record {
      left = q.schemas.left;
      right = q.schemas.right;
      left_window = q.left_window;
      right_window = q.right_window;
      slack = q.slack;
      quiet = q.quiet;
      pred = q.pred;
    }) };
}

impl Query {
    /// Makes the query with these parts.
    pub(crate) fn new(
        schemas: Schemas,
        left_window: Window,
        right_window: Window,
        slack: u64,
        quiet: u32,
        pred: Pred,
    ) -> Self
        requires { IsSpelled (record {
          left = schemas.left;
          right = schemas.right;
          left_window = left_window;
          right_window = right_window;
          slack = slack;
          quiet = quiet;
          pred = pred;
        }) }
        ensures { result ≡ record {
          left = schemas.left;
          right = schemas.right;
          left_window = left_window;
          right_window = right_window;
          slack = slack;
          quiet = quiet;
          pred = pred;
        } }
    {
        Query {
            schemas,
            left_window,
            right_window,
            slack,
            quiet,
            pred,
        }
    }

    /// Returns how long the rows of a side live: a number of rows, or of the stream's own time units.
    pub fn window(&self, side: Side) -> Window
        ensures { result ≡ by_side self.now.left_window self.now.right_window side }
    {
        match side {
            Side::Left => self.left_window,
            Side::Right => self.right_window,
        }
    }

    /// Returns how much a row's time may be below the greatest time of the rows before it on its side: 0 to 2^62, in
    /// the stream's own time units.
    pub fn slack(&self) -> u64
        ensures slack { result ≡ self.now.slack }
        ensures range { result ≤ most_slack }
    {
        self.slack
    }

    /// Returns after how many arrivals of one side, with none of the other, the other one is taken for silent: 0 to
    /// 1,000,000, where 0 stands for never.
    pub fn quiet(&self) -> u32
        ensures quiet { result ≡ self.now.quiet }
        ensures range { result ≤ most_quiet }
    {
        self.quiet
    }

    /// Returns the columns of a side's rows, in their order.
    pub fn schema(&self, side: Side) -> &Schema
        ensures { result.now ≡ by_side self.now.left self.now.right side }
    {
        self.schemas.of(side)
    }

    /// Returns the condition on a left and a right row. The query is one that some tokens read as, so a column in it
    /// has a place in the schema of its side, and the types of both sides of a comparison agree.
    pub fn pred(&self) -> &Pred
        ensures pred { result.now ≡ self.now.pred }
        ensures readable { IsSpelled self.now }
    {
        &self.pred
    }
}
