/// Which of the enabled actors of a chain makes the next step of a serial run.
#[derive(Clone, Copy, Debug, PartialEq, Eq)]
pub enum Chooser {
    /// The first one after that of the last step: the driver's put and its ports come first, then the ends of each
    /// core, then the collection of each core's reports, and then the driver's put again.
    InTurn,
    /// The one that a generator names that begins with this seed.
    Seeded(u64),
}
