ghost use Rattle.std.specs.Prelude.{◌≡◌, ◌+◌, ◌^◌, ◌<◌, ◌∷◌, List, map, IfSome, Some};
ghost use Rattle.std.specs.declared.option.Option.{Option};
ghost use Rattle.hj_msg.specs.Punctuation.{Mark as Meaning, up_to};
ghost use Rattle.hj_collect.specs.Reach.{reached};

use crate::reach::Reach;
use hj_base::EventNo;
use std::cmp::Ordering;

/// The least of some marks, and how many of them it is.
#[derive(Clone, Copy, Debug)]
pub struct LeastMark {
    pub(crate) mark: Reach,
    pub(crate) holders: usize,
}

impl LeastMark {
    ghost use Rattle.hj_collect.specs.Least.{IsLeast};

    /// Takes the least of these marks in its place.
    // Called, so that what takes note of a report stays small enough to be compiled into the sweep over the actors.
    #[inline(never)]
    pub(crate) fn look_anew(&mut self, marks: &[Reach])
        ensures { IsLeast self.new (map reached marks.now) }
    {
        *self = LeastMark::of(marks);
    }

    /// Returns the least of these marks; past every number if there is none.
    #[inline(always)]
    pub(crate) fn of(marks: &[Reach]) -> Self
        ensures { IsLeast result (map reached marks.now) }
    {
        match LeastMark::of_numbers(marks) {
            Some(least) => least,
            None => LeastMark::of_any(marks),
        }
    }

    /// Returns the same where each mark is a number, as in the midst of a run; None where one isn't, or where there is none.
    #[inline(always)]
    fn of_numbers(marks: &[Reach]) -> Option<Self>
        ensures { IfSome result (λ least. IsLeast least (map reached marks.now)) }
    {
        let (first, others) = marks.split_first()?;
        let lowest = LeastNumber::of(first.number()?, others)?;
        Some(LeastMark {
            mark: Reach::UpTo(lowest.no),
            holders: lowest.holders,
        })
    }

    /// Returns the same, whatever the marks are.
    #[inline(never)]
    fn of_any(marks: &[Reach]) -> Self
        ensures { IsLeast result (map reached marks.now) }
    {
        let mut least = LeastMark {
            mark: Reach::All,
            holders: 0,
        };
        for mark in marks {
            least = least.with(*mark);
        }
        least
    }

    /// Returns the least of the marks and of one more.
    #[inline(always)]
    pub(crate) fn with(self, mark: Reach) -> Self
        requires { self.holders + 1 < 2 ^ 64 }
        ensures { (marks : List (Option Meaning)) → IsLeast self marks → IsLeast result (reached mark ∷ marks) }
    {
        match mark.compare(self.mark) {
            Ordering::Less => LeastMark { mark, holders: 1 },
            Ordering::Equal => LeastMark {
                mark,
                holders: self.holders + 1,
            },
            Ordering::Greater => self,
        }
    }

    /// Returns the least of the marks except one of them; None if no other of them is the least.
    #[inline(always)]
    pub(crate) fn without(self, mark: Reach) -> Option<Self>
        ensures least { (marks : List (Option Meaning)) → IsLeast self (reached mark ∷ marks) → IfSome result (λ least. IsLeast least marks) }
        ensures same { IfSome result (λ least. least.mark ≡ self.mark) }
    {
        if !mark.is_same(self.mark) {
            return Some(self);
        }
        let holders = self.holders.saturating_sub(1);
        if holders == 0 {
            return None;
        }
        Some(LeastMark {
            mark: self.mark,
            holders,
        })
    }
}

/// The least of some numbers, and how many of them it is.
#[derive(Clone, Copy, Debug)]
pub(crate) struct LeastNumber {
    no: EventNo,
    holders: usize,
}

impl LeastNumber {
    ghost use Rattle.hj_collect.specs.Least.{IsLowest};

    /// Returns the least of a number and of these marks, where each is a number; None where one isn't.
    #[inline(always)]
    fn of(first: EventNo, marks: &[Reach]) -> Option<Self>
        ensures { IfSome result (λ lowest. IsLowest lowest (Some (up_to first.0) ∷ map reached marks.now)) }
    {
        let mut lowest = LeastNumber {
            no: first,
            holders: 1,
        };
        for mark in marks {
            lowest = lowest.with(mark.number()?);
        }
        Some(lowest)
    }

    /// Returns the least of the numbers and of one more.
    #[inline(always)]
    fn with(self, no: EventNo) -> Self
        requires { self.holders + 1 < 2 ^ 64 }
        ensures { (marks : List (Option Meaning)) → IsLowest self marks → IsLowest result (Some (up_to no.0) ∷ marks) }
    {
        if no.0 < self.no.0 {
            return LeastNumber { no, holders: 1 };
        }
        if no.0 == self.no.0 {
            return LeastNumber {
                no,
                holders: self.holders + 1,
            };
        }
        self
    }
}
