ghost use Rattle.std.specs.Prelude.{◌≡◌, true, IfSome, Some};
ghost use Rattle.std.specs.declared.cmp.Ordering.TheVariants.{Less};
ghost use Rattle.hj_msg.specs.Punctuation.{up_to, lesser};
ghost use Rattle.hj_collect.specs.Marks.{compared, is_same, meaning_of, raised_to};
ghost use Rattle.hj_collect.specs.Reach.{reached};

use crate::Mark;
use hj_base::EventNo;
use std::cmp::Ordering;

/// How far a core has come on a side. It is one enum, and no mark in an option, since it is looked at for each report.
#[derive(Clone, Copy, Debug)]
pub enum Reach {
    /// It reported nothing.
    Nowhere,
    /// Up to this number, itself included.
    UpTo(EventNo),
    /// Past every number.
    All,
}

impl Reach {
    /// Returns how this stands to another one: by their numbers, where nowhere is below every number, and past every number is
    /// above them.
    #[inline(always)]
    pub(crate) fn compare(self, other: Reach) -> Ordering
        ensures { result ≡ compared (reached self) (reached other) }
    {
        match (self, other) {
            (Reach::UpTo(no), Reach::UpTo(last)) => no.0.cmp(&last.0),
            (Reach::Nowhere, Reach::Nowhere) | (Reach::All, Reach::All) => Ordering::Equal,
            (Reach::Nowhere, Reach::UpTo(_) | Reach::All) | (Reach::UpTo(_), Reach::All) => {
                Ordering::Less
            }
            (Reach::UpTo(_) | Reach::All, Reach::Nowhere) | (Reach::All, Reach::UpTo(_)) => {
                Ordering::Greater
            }
        }
    }

    /// Returns whether two are the same.
    #[inline(always)]
    pub(crate) fn is_same(self, other: Reach) -> bool
        ensures { result ≡ is_same (reached self) (reached other) }
    {
        match (self, other) {
            (Reach::UpTo(no), Reach::UpTo(last)) => no.0 == last.0,
            (Reach::Nowhere, Reach::Nowhere) | (Reach::All, Reach::All) => true,
            (Reach::Nowhere, Reach::UpTo(_) | Reach::All) | (Reach::UpTo(_), Reach::All) => false,
            (Reach::UpTo(_) | Reach::All, Reach::Nowhere) | (Reach::All, Reach::UpTo(_)) => false,
        }
    }

    /// Returns the lesser of two.
    #[inline(always)]
    pub(crate) fn min(self, other: Reach) -> Reach
        ensures { reached result ≡ lesser (reached self) (reached other) }
    {
        match (self, other) {
            (Reach::UpTo(no), Reach::UpTo(last)) => { if last.0 < no.0 { other } else { self } }
            (Reach::Nowhere, _) | (_, Reach::All) => self,
            (_, Reach::Nowhere) | (Reach::All, _) => other,
        }
    }

    /// Returns its number; None where nothing was reported, and past every number.
    #[inline(always)]
    pub(crate) fn number(self) -> Option<EventNo>
        ensures { IfSome result (λ no. reached self ≡ Some (up_to no.0)) }
    {
        match self {
            Reach::UpTo(no) => Some(no),
            Reach::Nowhere | Reach::All => None,
        }
    }

    /// Returns it as a mark; None where nothing was reported.
    #[inline(always)]
    pub(crate) fn mark(self) -> Option<Mark>
        ensures { meaning_of result ≡ reached self }
    {
        match self {
            Reach::Nowhere => None,
            Reach::UpTo(no) => Some(Mark::UpTo(no)),
            Reach::All => Some(Mark::All),
        }
    }

    /// Returns whether a core that reports a number has a number now, and the least one is below that which comes in its place.
    #[inline(always)]
    pub(crate) fn rises(self, least: Reach, no: EventNo) -> bool
        ensures after { result ≡ true → Less ≡ compared (reached least) (Some (up_to no.0)) }
        ensures raised { result ≡ true → raised_to no.0 (reached self) ≡ Some (up_to no.0) }
    {
        match (least, self) {
            (Reach::UpTo(least), Reach::UpTo(_)) => least.0 < no.0,
            _ => false,
        }
    }
}
