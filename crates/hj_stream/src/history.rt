ghost use Rattle.std.specs.Prelude.{◌≡◌, List, [], ◌∷◌, ◌++◌};
ghost use Rattle.std.specs.Borrow.{ftrue};

use std::marker::{Model, PhantomData};

/// Keeps what came so far, in its order, for proofs alone, which read it as `items`: it takes no memory, and its functions do
/// nothing at run time.
#[derive(Drop)]
pub(crate) struct History<T> {
    of: PhantomData<T>,
    pub(crate) ghost items: { List T },
}

impl<T> Model for History<T> {
    ghost also_owns = { λ _. ftrue };
}

impl<T> History<T> {
    /// Makes a history in which nothing came yet.
    pub(crate) fn new() -> History<T>
        ensures { result.items ≡ [] }
    {
        History::told_by(&(), &())
    }

    /// Makes the same history with one more after it.
    pub(crate) fn with_item(&self, item: &T) -> History<T>
        ensures { result.items ≡ self.now.items ++ item.now ∷ [] }
    {
        History::told_by(self, item)
    }

    /// Makes a history of the items that the caller's proof names, by these two values.
    fn told_by<A, B>(_first: &A, _second: &B) -> History<T>
        ghost items: { List T }
        ensures { result.items ≡ items }
    {
        History { of: PhantomData }
    }
}
