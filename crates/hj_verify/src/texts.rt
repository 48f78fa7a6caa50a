use crate::output::OutputCheck;
use hj_trace::TextStream;

/// The texts that a run is compared with, and the line that is made for them.
#[derive(Drop)]
pub(crate) struct ComparedTexts {
    pub(crate) trace: TextStream,
    pub(crate) output: OutputCheck,
    /// Holds the last line that was made, and is used again.
    pub(crate) line: Vec<u8>,
}
