use hj_msg::Partners;

/// What was made ready for a message.
#[derive(Drop)]
pub enum Prepared<P> {
    /// The message is only passed on.
    PassedOn,
    /// A row, with its partners and with as many equal rows as are reported and kept here.
    Arrival {
        partners: Partners<P>,
        reported: P,
        /// The row that rests here; None if this isn't its home.
        resting: Option<P>,
        /// The row that is kept in flight; None if it isn't.
        flying: Option<P>,
    },
}
