use hj_base::EventNo;

/// Up to which number all pairs have come (punctuation: Roy, Teubner and Gemulla, PVLDB 2014).
#[derive(Clone, Copy, Debug, PartialEq, Eq, PartialOrd, Ord)]
pub enum Mark {
    /// Up to this number, itself included.
    UpTo(EventNo),
    /// Past every number.
    All,
}
