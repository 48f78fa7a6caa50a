ghost use Rattle.std.specs.Prelude.{◌≡◌, ℕ};
ghost use Rattle.std.specs.declared.option.Option.{Option};
ghost use Rattle.hj_base.specs.declared.numbers.Side.{Side};
ghost use Rattle.hj_rows.specs.declared.key_filter.KeyRange.{KeyRange};

use hj_base::Side;

/// The keys from `low` on up to `high`, which is one of them.
#[derive(Clone, Copy)]
pub struct KeyRange {
    pub low: u64,
    pub high: u64,
}

/// A key for each row, by which a row of the other stream tells whether the two may match.
pub trait KeyFilter<P> {
    /// The key of a row of a side.
    ghost key: { Self → Side → P → ℕ };

    /// The keys of the rows of a side that may match a row of the other one; none where none may.
    ghost range: { Self → Side → P → Option KeyRange };

    /// Gives the key of a row of a side.
    fn key_of(&self, side: Side, row: &P) -> u64
        ensures { result ≡ key self.now side row.now };

    /// Gives the keys of the rows of `side` that may match `against`, a row of the other side; None where no row may.
    fn range_for(&self, side: Side, against: &P) -> Option<KeyRange>
        ensures { result ≡ range self.now side against.now };
}
