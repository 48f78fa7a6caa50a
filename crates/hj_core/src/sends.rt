ghost use Rattle.std.specs.Prelude.{◌≡◌, None, Some, option_to_list};
ghost use Rattle.hj_msg.specs.Core.{only_if};

use hj_msg::{Msg, Report};

/// What a core sends for a message, and what it reports.
#[derive(Drop)]
pub struct Sends<P> {
    /// Goes to the left.
    pub to_left: Option<Msg<P>>,
    /// Goes to the right.
    pub to_right: Option<Msg<P>>,
    /// Goes to the right, after `to_right`.
    pub to_right_then: Option<Msg<P>>,
    /// Goes to the core's reports.
    pub entry: Option<Report<P>>,
}

impl<P> Sends<P> {
    /// Makes one that sends nothing.
    #[inline(always)]
    pub(crate) fn nothing(entry: Option<Report<P>>) -> Self
        ensures { result ≡ record { to_left = None; to_right = None; to_right_then = None; entry = entry } }
    {
        Sends {
            to_left: None,
            to_right: None,
            to_right_then: None,
            entry,
        }
    }

    /// Makes one that sends a message to the left alone.
    #[inline(always)]
    pub(crate) fn left(msg: Msg<P>, entry: Option<Report<P>>) -> Self
        ensures { result ≡ record { to_left = Some msg; to_right = None; to_right_then = None; entry = entry } }
    {
        Sends {
            to_left: Some(msg),
            to_right: None,
            to_right_then: None,
            entry,
        }
    }

    /// Makes one that sends a message to the right alone.
    #[inline(always)]
    pub(crate) fn right(msg: Msg<P>, entry: Option<Report<P>>) -> Self
        ensures { result ≡ record { to_left = None; to_right = Some msg; to_right_then = None; entry = entry } }
    {
        Sends {
            to_left: None,
            to_right: Some(msg),
            to_right_then: None,
            entry,
        }
    }
}

/// Returns a message if it is to be sent.
#[inline(always)]
pub(crate) fn when<P: Drop>(holds: bool, msg: Msg<P>) -> Option<Msg<P>>
    ensures { option_to_list result ≡ only_if holds msg }
{
    if holds { Some(msg) } else { None }
}
