/// Why a trace isn't that of a run, or an output isn't that of the join. Lines are counted from 1.
#[derive(Clone, Copy, Debug, PartialEq, Eq)]
pub enum TraceFault {
    /// The line doesn't begin with an actor's text and a comma.
    Form(u64),
    /// The actor of the line isn't enabled there.
    NotEnabled(u64),
    /// The line isn't that of the actor's step.
    Text(u64),
    /// The trace ends before this line, and the chain isn't done.
    Early(u64),
    /// This line follows though the chain is done.
    Late(u64),
    /// The first byte, counted from 0, in which the output and the join's text differ, or where one of them has ended.
    Output(u64),
}
