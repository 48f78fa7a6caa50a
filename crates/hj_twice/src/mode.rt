use hj_crew::CrewPlan;
use hj_engine::SerialPlan;

/// Says how each of two joins in a row is run.
#[derive(Drop)]
pub enum Mode<'r, T, G> {
    /// On a serial chain.
    Serial(SerialPlan<'r, G>),
    /// On threads.
    Threads(CrewPlan<'r, T, G>),
}
