ghost use Rattle.std.specs.Prelude.{◌≡◌};
ghost use Rattle.std.proofs.Common.{rules};
ghost use Rattle.std.specs.Cmp.Rules.{comparing};
ghost use Rattle.std.specs.Ordering.{as_partial_cmp, eq_by_cmp};
ghost use Rattle.hj_msg.specs.Emission.{comes_before};
ghost use Rattle.hj_msg.specs.Valid.{later, earlier};

use hj_msg::Pair;
use std::cmp::Ordering;

/// A pair that was met. It is the greater the sooner it is due: by the later number, then by the earlier one.
#[derive(Debug, Drop)]
pub struct KeptPair<P> {
    pub(crate) pair: Pair<P>,
}

impl<P> KeptPair<P> {
    /// Returns the number of the row that came later.
    pub(crate) fn later(&self) -> u64
        ensures { result ≡ later self.now.pair }
    {
        self.pair.left_no.0.max(self.pair.right_no.0)
    }

    /// Returns the number of the row that came earlier.
    pub(crate) fn earlier(&self) -> u64
        ensures { result ≡ earlier self.now.pair }
    {
        self.pair.left_no.0.min(self.pair.right_no.0)
    }

    /// Returns whether this pair is due before another one.
    #[inline(always)]
    pub(crate) fn is_due_before(&self, other: &Self) -> bool
        ensures { result ≡ comes_before self.now.pair other.now.pair }
    {
        let (number, last) = (self.later(), other.later());
        number < last || (number == last && self.earlier() < other.earlier())
    }
}

impl<P> Ord for KeptPair<P> {
    ghost use Rattle.hj_collect.specs.Due.{due_cmp};

    ghost cmp = { due_cmp };

    ghost total = { Prim.search (comparing, rules) };

    ghost matches_partial_cmp = { Prim.search (comparing, rules) };

    ghost matches_eq = { Prim.search (comparing, rules) };

    fn cmp(&self, other: &Self) -> Ordering {
        let by_later = other.later().cmp(&self.later());
        by_later.then(other.earlier().cmp(&self.earlier()))
    }
}

impl<P> PartialOrd for KeptPair<P> {
    ghost use Rattle.hj_collect.specs.Due.{due_cmp};

    ghost partial_cmp = { as_partial_cmp due_cmp };

    ghost laws = { Prim.search (comparing, rules) };

    fn partial_cmp(&self, other: &Self) -> Option<Ordering> {
        Some(self.cmp(other))
    }
}

impl<P> PartialEq for KeptPair<P> {
    ghost use Rattle.hj_collect.specs.Due.{due_cmp};

    ghost eq = { eq_by_cmp due_cmp };

    ghost laws = { Prim.search (comparing, rules) };

    fn eq(&self, other: &Self) -> bool {
        self.cmp(other).is_eq()
    }
}

impl<P> Eq for KeptPair<P> {
    ghost laws = { Prim.search (comparing, rules) };
}
