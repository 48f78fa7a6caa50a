use hj_base::EventNo;

/// A right row that was sent on, by the number of its arrival.
#[derive(Drop)]
pub struct Flying<P> {
    pub(crate) no: EventNo,
    pub(crate) row: P,
}
