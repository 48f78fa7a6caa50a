ghost use Rattle.std.specs.Prelude.{◌≡◌};
ghost use Rattle.std.proofs.Common.{rules};
ghost use Rattle.std.specs.Cmp.Rules.{comparing};
ghost use Rattle.std.specs.Ordering.{as_partial_cmp, eq_by_cmp};
ghost use Rattle.hj_event.specs.Late.{comes_before};

use hj_value::SharedRow;
use std::cmp::Ordering;

/// A row that came late. It is the greater the sooner it is to be given: by its time, then by its number.
#[derive(Drop)]
pub(crate) struct LateRow {
    pub(crate) time: i64,
    /// The number under which it came.
    pub(crate) no: u64,
    pub(crate) row: SharedRow,
}

impl LateRow {
    /// Returns whether it is to be given before another one.
    #[inline(always)]
    pub(crate) fn comes_before(&self, other: &Self) -> bool
        ensures { result ≡ comes_before self.now other.now }
    {
        self.time < other.time || self.time <= other.time && self.no < other.no
    }
}

impl Ord for LateRow {
    ghost use Rattle.hj_event.specs.Late.{late_cmp};

    ghost cmp = { late_cmp };

    ghost total = { Prim.search (comparing, rules) };

    ghost matches_partial_cmp = { Prim.search (comparing, rules) };

    ghost matches_eq = { Prim.search (comparing, rules) };

    fn cmp(&self, other: &Self) -> Ordering {
        if self.time == other.time {
            return other.no.cmp(&self.no);
        }
        other.time.cmp(&self.time)
    }
}

impl PartialOrd for LateRow {
    ghost use Rattle.hj_event.specs.Late.{late_cmp};

    ghost partial_cmp = { as_partial_cmp late_cmp };

    ghost laws = { Prim.search (comparing, rules) };

    fn partial_cmp(&self, other: &Self) -> Option<Ordering> {
        Some(self.cmp(other))
    }
}

impl PartialEq for LateRow {
    ghost use Rattle.hj_event.specs.Late.{late_cmp};

    ghost eq = { eq_by_cmp late_cmp };

    ghost laws = { Prim.search (comparing, rules) };

    fn eq(&self, other: &Self) -> bool {
        self.cmp(other).is_eq()
    }
}

impl Eq for LateRow {
    ghost laws = { Prim.search (comparing, rules) };
}
