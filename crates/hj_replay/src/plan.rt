use hj_base::ChainSize;
use hj_chain::Chooser;

/// Says which run a trace tells.
#[derive(Clone, Copy)]
pub struct TracePlan {
    /// How large the chain is.
    pub size: ChainSize,
    /// The order of the steps.
    pub chooser: Chooser,
}
