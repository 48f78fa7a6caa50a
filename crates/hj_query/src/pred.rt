use crate::Sum;

/// A comparison of two numbers, or of two texts by their bytes: equal, not equal, less, less or equal, greater, greater or
/// equal.
#[derive(Clone, Copy, Debug, PartialEq, Eq)]
pub enum Op {
    Eq,
    Ne,
    Lt,
    Le,
    Gt,
    Ge,
}

/// A condition on a left and a right row.
#[derive(Debug)]
pub enum Pred {
    Or(Box<Pred>, Box<Pred>),
    And(Box<Pred>, Box<Pred>),
    Not(Box<Pred>),
    Compare(Op, Sum, Sum),
    /// The two sums differ by at most this number.
    Within(u64, Sum, Sum),
}

// A loop, since the left operands may stand as deep as the condition is long.
impl Drop for Pred {
    fn drop(mut self) {
        loop {
            match self {
                Pred::Or(left, _right) => self = Box::into_inner(left),
                Pred::And(left, _right) => self = Box::into_inner(left),
                Pred::Not(inner) => self = Box::into_inner(inner),
                Pred::Compare(_op, _left, _right) => return,
                Pred::Within(_distance, _left, _right) => return,
            }
        }
    }
}
