//! What has two ends, as links and queues do: made, and closed again, one after another.
ghost use Rattle.std.specs.Prelude.{◌≡◌, length, IfOk, Ok};
ghost use Rattle.std.specs.List.{AllZip, zip};
ghost use Rattle.hj_crew.specs.Room.{IsRoomOf};

use hj_base::Memory;
use std::alloc::Global;

/// Makes so many, and returns the first end of each, and the second ones in the same order.
pub(crate) fn make_all<A: Drop, B: Drop, F: Fn() -> Result<(A, B), Memory>>(
    alloc: Global,
    count: usize,
    make: F,
) -> Result<(Vec<A>, Vec<B>), Memory>
    requires { F.IsAlwaysCallable make }
    ensures count { IfOk result (λ ends. length ends.0.items ≡ count) }
    ensures made { IfOk result (λ ends.
        AllZip (λ first second. F.post make (Ok (first, second))) ends.0.items ends.1.items) }
{
    let mut firsts = Vec::with_capacity(alloc, count)?;
    let mut seconds = Vec::with_capacity(alloc, count)?;
    for _place in 0..count {
        let (first, second) = make()?;
        firsts.push(first)?;
        seconds.push(second)?;
    }
    Ok((firsts, seconds))
}

/// Closes what these ends are of, each first end with the second one at its place, into a list that has room for that.
pub(crate) fn close_all<A: Drop, B: Drop, C, F: Fn(A, B) -> C>(
    firsts: Vec<A>,
    seconds: Vec<B>,
    mut closed: Vec<C>,
    close: F,
) -> Vec<C>
    requires ends { AllZip (F.pre close) firsts.items seconds.items }
    requires room { IsRoomOf (length firsts.items) closed }
    ensures { AllZip (λ ends one. F.post close ends.0 ends.1 one) (zip firsts.items seconds.items) result.items }
{
    for (first, second) in firsts.into_iter().zip(seconds) {
        closed.push_reserved(close(first, second));
    }
    closed
}
