ghost use Rattle.std.specs.Prelude.{◌≡◌, ◌++◌, OnOk, codes};
ghost use Rattle.std.specs.Option.{option_copied};
ghost use Rattle.hj_trace.specs.Actors.{actor_text};
ghost use Rattle.hj_trace.specs.StepAction.{action_in};
ghost use Rattle.hj_trace.specs.Line.{front_text, leftward, reported_text, rightward, taken_text};
ghost use Rattle.hj_trace.specs.Messages.{messages_text};

use crate::actors::push_actor;
use crate::messages::{push_message, push_report};
use crate::puts::{
    NOTHING, push_event_leftward, push_event_rightward, push_sent_leftward, push_sent_rightward,
};
use crate::text::push_words;
use hj_base::{CoreNo, Memory, Side};
use hj_chain::Actor;
use hj_msg::{Event, Msg, Report};

/// What an actor does in a step, with what it takes or puts.
#[derive(Drop)]
pub enum StepAction<'a, P> {
    /// The driver asks for the next event.
    Asks,
    /// The driver puts the message of this event.
    Admits(&'a Event<P>),
    /// The driver puts both closes.
    Closes,
    /// The driver takes this message at a port.
    Receives(Side, &'a Msg<P>),
    /// A core handles this message, which it takes at an end.
    Handles(CoreNo, Side, &'a Msg<P>),
    /// This report of a core is taken.
    Collects(CoreNo, &'a Report<P>),
}

/// Appends who makes a step, with a comma behind.
pub fn push_maker(text: &mut Vec<u8>, actor: Actor) -> Result<(), Memory>
    ensures { OnOk result (text.new.items ≡ text.old.items ++ (actor_text actor ++ codes ",")) }
{
    push_actor(text, actor)?;
    push_words(text, ",")
}

/// Appends what the line of a step in a chain of this many cores says behind the actor, up to its report: what is taken, and what is
/// put to the left and to the right.
pub fn push_front<P>(
    text: &mut Vec<u8>,
    doing: &StepAction<'_, P>,
    cores: usize,
) -> Result<(), Memory>
    ensures { OnOk result (text.new.items ≡ text.old.items ++ front_text cores (action_in doing.now)) }
{
    push_taken(text, doing)?;
    push_words(text, ",")?;
    push_putting(text, doing, cores)
}

/// Appends what is put to the left and to the right, with a comma behind each.
fn push_putting<P>(
    text: &mut Vec<u8>,
    doing: &StepAction<'_, P>,
    cores: usize,
) -> Result<(), Memory>
    ensures { OnOk result (text.new.items ≡ text.old.items ++ (messages_text (leftward cores (action_in doing.now)) ++ codes "," ++ messages_text (rightward cores (action_in doing.now)) ++ codes ",")) }
{
    push_leftward(text, doing, cores)?;
    push_words(text, ",")?;
    push_rightward(text, doing, cores)?;
    push_words(text, ",")
}

/// Appends the text of what is taken.
fn push_taken<P>(text: &mut Vec<u8>, doing: &StepAction<'_, P>) -> Result<(), Memory>
    ensures { OnOk result (text.new.items ≡ text.old.items ++ taken_text (action_in doing.now)) }
{
    match doing {
        StepAction::Receives(_, msg) | StepAction::Handles(_, _, msg) => push_message(text, *msg),
        StepAction::Collects(_, report) => push_report(text, *report),
        StepAction::Asks | StepAction::Admits(_) | StepAction::Closes => push_words(text, NOTHING),
    }
}

/// Appends the text of what is put to the left.
fn push_leftward<P>(
    text: &mut Vec<u8>,
    doing: &StepAction<'_, P>,
    cores: usize,
) -> Result<(), Memory>
    ensures { OnOk result (text.new.items ≡ text.old.items ++ messages_text (leftward cores (action_in doing.now))) }
{
    match doing {
        StepAction::Admits(event) => push_event_leftward(text, *event),
        StepAction::Closes => push_words(text, "CloseR"),
        StepAction::Handles(core, _, msg) => push_sent_leftward(
            text,
            usize::from(core.0),
            cores,
            *msg,
        ),
        StepAction::Asks | StepAction::Receives(..) | StepAction::Collects(..) => push_words(
            text, NOTHING,
        ),
    }
}

/// Appends the text of what is put to the right.
fn push_rightward<P>(
    text: &mut Vec<u8>,
    doing: &StepAction<'_, P>,
    cores: usize,
) -> Result<(), Memory>
    ensures { OnOk result (text.new.items ≡ text.old.items ++ messages_text (rightward cores (action_in doing.now))) }
{
    match doing {
        StepAction::Admits(event) => push_event_rightward(text, *event),
        StepAction::Closes => push_words(text, "CloseL"),
        StepAction::Handles(core, _, msg) => push_sent_rightward(
            text,
            usize::from(core.0),
            cores,
            *msg,
        ),
        StepAction::Asks | StepAction::Receives(..) | StepAction::Collects(..) => push_words(
            text, NOTHING,
        ),
    }
}

/// Appends the rest of a line: what is reported, if something is, and the line feed.
pub fn push_reported<P>(text: &mut Vec<u8>, report: Option<&Report<P>>) -> Result<(), Memory>
    ensures { OnOk result (text.new.items ≡ text.old.items ++ (reported_text (option_copied report.entry) ++ codes "\n")) }
{
    match report {
        Some(report) => push_report(text, report)?,
        None => push_words(text, NOTHING)?,
    }
    push_words(text, "\n")
}
