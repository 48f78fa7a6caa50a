use hj_core::Sends;
use hj_msg::Msg;

/// What a worker has in hand.
#[derive(Drop)]
pub enum Hand<P> {
    Nothing,
    /// What its last turn made and it couldn't put yet.
    Rest(Sends<P>),
    /// The message for which memory ran out.
    Refused(Msg<P>),
}
