ghost use Rattle.std.specs.Prelude.{◌≡◌, Bool};

use hj_base::Share;

/// A predicate on two rows, one of each stream. It is shared to give each core its own.
pub trait Join<P>: Share {
    /// Which rows satisfy it, a left row and a right one.
    ghost predicate: { Self → P → P → Bool };

    /// Returns whether a left row and a right row satisfy it.
    fn matches(&self, left: &P, right: &P) -> bool
        ensures { result ≡ predicate self.now left.now right.now };
}
