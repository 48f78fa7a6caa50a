//! The ends of a worker.
ghost use Rattle.std.specs.Prelude.{◌≡◌, Some, None, IfSome, IfNone};
ghost use Rattle.hj_worker.specs.declared.hand.Hand.TheVariants.{Nothing, Rest};

use crate::answers::Place;
use crate::hand::Hand;
use hj_base::{Full, Side};
use hj_core::{Sends, Way};
use hj_link::{LeftEnd, RightEnd, Sender};
use hj_msg::{Msg, Report};

/// Where a worker takes its messages and puts its own.
#[derive(Drop)]
pub struct WorkerEnds<P: Drop> {
    /// The right end of the link to the left.
    pub(crate) left: RightEnd<Msg<P>>,
    /// The left end of the link to the right.
    pub(crate) right: LeftEnd<Msg<P>>,
    pub(crate) reports: Sender<Report<P>>,
}

/// What wasn't put, with the place that was full.
#[derive(Drop)]
pub struct Unput<P> {
    pub(crate) place: Place,
    pub(crate) sends: Sends<P>,
}

impl<P: Drop> WorkerEnds<P> {
    ghost use Rattle.std.specs.Prelude.{ℕ};
    ghost use Rattle.hj_base.specs.declared.numbers.Side.TheVariants.{Left as OnLeft, Right as OnRight};
    ghost use Rattle.hj_worker.specs.Hands.{things_of, things_to_right};
    ghost use Rattle.hj_worker.specs.Outgoing.{passed, with_puts};
    ghost use Rattle.hj_worker.specs.Seen.{journals_of};
    ghost use Rattle.hj_worker.specs.Turning.{KeepsLinks, Puts, AreBlocked, FindsNone, Takes, LeavesInHand};

    /// Takes a message under a turn. Looks at the link on the side `first`, and only if that has none at the other one.
    #[inline(always)]
    pub(crate) fn take(&mut self, turn: u64, first: Side) -> Option<Msg<P>>
        ensures links { KeepsLinks self.old self.new }
        ensures taken { IfSome result (λ message. Takes turn first message self.old self.new) }
        ensures none { IfNone result ((journals_of self.new ≡ journals_of self.old) × FindsNone OnLeft self.old self.new × FindsNone OnRight self.old self.new) }
        ensures full_looks { (self.new.left.full_looks ≡ self.old.left.full_looks) × (self.new.right.full_looks ≡ self.old.right.full_looks) }
        ensures reports { self.new.reports ≡ self.old.reports }
    {
        match first {
            Side::Left => match self.left.take(turn) {
                Some(message) => Some(message),
                None => self.right.take(turn),
            },
            Side::Right => match self.right.take(turn) {
                Some(message) => Some(message),
                None => self.left.take(turn),
            },
        }
    }

    /// Puts a message that goes on this way. Where there was no room for it, it is in hand afterwards.
    #[inline(always)]
    pub(crate) fn pass_on(&mut self, hand: &mut Hand<P>, turn: u64, way: Way, message: Msg<P>)
        requires { hand.old ≡ Nothing }
        ensures links { KeepsLinks self.old self.new }
        ensures puts { LeavesInHand turn (passed way message) self.old hand.new self.new }
    {
        match way {
            Way::Left => {
                if let Err(Full(message)) = self.left.put(turn, message) {
                    keep_for_left(hand, message);
                }
            }
            Way::Right => {
                if let Err(Full(message)) = self.right.put(turn, message) {
                    keep_for_right(hand, message);
                }
            }
            Way::Nowhere => (),
        }
    }

    /// Puts what a core makes of a message, in order, up to the first full place. The rest is in hand afterwards.
    #[inline(always)]
    pub(crate) fn put_made(&mut self, hand: &mut Hand<P>, turn: u64, sends: Sends<P>)
        requires { hand.old ≡ Nothing }
        ensures links { KeepsLinks self.old self.new }
        ensures puts { LeavesInHand turn (things_of sends) self.old hand.new self.new }
    {
        if let Some(unput) = self.put_all(turn, sends) {
            *hand = Hand::Rest(unput.sends);
        }
    }

    /// Puts what a core sends for a message, in order, then its report, up to the first full place. Returns the rest.
    #[inline(always)]
    pub(crate) fn put_all(&mut self, turn: u64, sends: Sends<P>) -> Option<Unput<P>>
        ensures links { KeepsLinks self.old self.new }
        ensures all { IfNone result (journals_of self.new ≡ with_puts turn (journals_of self.old) (things_of sends)) }
        ensures some { IfSome result (λ unput. Puts turn (things_of sends) (journals_of self.old) (things_of unput.sends) (journals_of self.new)) }
        ensures blocked { IfSome result (λ unput. AreBlocked unput.place (things_of unput.sends) self.old self.new) }
    {
        let Sends {
            to_left,
            to_right,
            to_right_then,
            entry,
        } = sends;
        match self.left.put_some(turn, to_left) {
            Some(message) => Some(Unput {
                place: Place::Link(Side::Left),
                sends: Sends {
                    to_left: Some(message),
                    to_right,
                    to_right_then,
                    entry,
                },
            }),
            None => self.put_to_right(turn, to_right, to_right_then, entry),
        }
    }

    /// Puts what goes to the right, in order, then the report, up to the first full place. Returns the rest.
    #[inline(always)]
    fn put_to_right(
        &mut self,
        turn: u64,
        to_right: Option<Msg<P>>,
        to_right_then: Option<Msg<P>>,
        entry: Option<Report<P>>,
    ) -> Option<Unput<P>>
        ensures links { KeepsLinks self.old self.new }
        ensures all { IfNone result (journals_of self.new ≡ with_puts turn (journals_of self.old) (things_to_right to_right to_right_then entry)) }
        ensures some { IfSome result (λ unput. Puts turn (things_to_right to_right to_right_then entry) (journals_of self.old) (things_of unput.sends) (journals_of self.new)) }
        ensures blocked { IfSome result (λ unput. AreBlocked unput.place (things_of unput.sends) self.old self.new) }
    {
        if let Some(message) = self.right.put_some(turn, to_right) {
            return Some(Unput {
                place: Place::Link(Side::Right),
                sends: Sends {
                    to_left: None,
                    to_right: Some(message),
                    to_right_then,
                    entry,
                },
            });
        }
        if let Some(message) = self.right.put_some(turn, to_right_then) {
            return Some(Unput {
                place: Place::Link(Side::Right),
                sends: Sends {
                    to_left: None,
                    to_right: None,
                    to_right_then: Some(message),
                    entry,
                },
            });
        }
        let report = self.reports.put_some(turn, entry)?;
        Some(Unput {
            place: Place::Reports,
            sends: Sends {
                to_left: None,
                to_right: None,
                to_right_then: None,
                entry: Some(report),
            },
        })
    }
}

/// Keeps a message that is to go to the left.
// Called, since the room of all that may be in hand is cleared where a function begins.
#[cold]
fn keep_for_left<P: Drop>(hand: &mut Hand<P>, message: Msg<P>)
    ensures { hand.new ≡ Rest (record { to_left = Some message; to_right = None; to_right_then = None; entry = None }) }
{
    *hand = Hand::Rest(Sends {
        to_left: Some(message),
        to_right: None,
        to_right_then: None,
        entry: None,
    });
}

/// Keeps a message that is to go to the right.
#[cold]
fn keep_for_right<P: Drop>(hand: &mut Hand<P>, message: Msg<P>)
    ensures { hand.new ≡ Rest (record { to_left = None; to_right = Some message; to_right_then = None; entry = None }) }
{
    *hand = Hand::Rest(Sends {
        to_left: None,
        to_right: Some(message),
        to_right_then: None,
        entry: None,
    });
}
