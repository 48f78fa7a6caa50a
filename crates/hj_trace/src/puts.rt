ghost use Rattle.std.specs.Prelude.{◌≡◌, ◌<◌, ◌^◌, ◌++◌, OnOk};
ghost use Rattle.hj_msg.specs.Core.{sends};
ghost use Rattle.hj_msg.specs.Driver.{message_of};
ghost use Rattle.hj_trace.specs.Messages.{message_text, messages_text};
ghost use Rattle.hj_trace.specs.Puts.{event_leftward, event_rightward};

use crate::messages::push_message;
use crate::text::{push_numbered, push_words};
use hj_base::{Memory, Side};
use hj_msg::{Event, Msg};

/// Stands where nothing is taken, put or reported.
pub const NOTHING: &str = "-";

/// Appends the text of what the put of an event puts to the left.
pub fn push_event_leftward<P>(text: &mut Vec<u8>, event: &Event<P>) -> Result<(), Memory>
    ensures { OnOk result (text.new.items ≡ text.old.items ++ messages_text (event_leftward event.now)) }
{
    match event.port() {
        Side::Left => push_words(text, NOTHING),
        Side::Right => push_message_of(text, event),
    }
}

/// Appends the text of what the put of an event puts to the right.
pub fn push_event_rightward<P>(text: &mut Vec<u8>, event: &Event<P>) -> Result<(), Memory>
    ensures { OnOk result (text.new.items ≡ text.old.items ++ messages_text (event_rightward event.now)) }
{
    match event.port() {
        Side::Left => push_message_of(text, event),
        Side::Right => push_words(text, NOTHING),
    }
}

/// Appends the text of an event's message.
fn push_message_of<P>(text: &mut Vec<u8>, event: &Event<P>) -> Result<(), Memory>
    ensures { OnOk result (text.new.items ≡ text.old.items ++ message_text (message_of event.now)) }
{
    let (kind, no) = match event {
        Event::Arrive {
            side: Side::Left,
            no,
            ..
        } => ("R", no),
        Event::Arrive {
            side: Side::Right,
            no,
            ..
        } => ("S", no),
        Event::Expire {
            side: Side::Left,
            of,
            ..
        } => ("ExpR", of),
        Event::Expire {
            side: Side::Right,
            of,
            ..
        } => ("ExpS", of),
        Event::Quiet {
            side: Side::Left,
            no,
        } => ("QuietL", no),
        Event::Quiet {
            side: Side::Right,
            no,
        } => ("QuietR", no),
    };
    push_numbered(text, kind, no.0)
}

/// Appends the text of what a core of this place among `cores` puts to the left for a message.
pub fn push_sent_leftward<P>(
    text: &mut Vec<u8>,
    place: usize,
    cores: usize,
    msg: &Msg<P>,
) -> Result<(), Memory>
    requires { place < 2 ^ 16 }
    ensures { OnOk result (text.new.items ≡ text.old.items ++ messages_text (sends place cores msg.now).left) }
{
    match msg {
        Msg::R { no, .. } if place + 1 == cores => push_numbered(text, "EndR", no.0),
        Msg::S { .. } | Msg::EndR(_) | Msg::ExpR(_) | Msg::QuietR(_) | Msg::CloseR => {
            push_message(text, msg)
        }
        _ => push_words(text, NOTHING),
    }
}

/// Appends the text of what a core of this place among `cores` puts to the right for a message.
pub fn push_sent_rightward<P>(
    text: &mut Vec<u8>,
    place: usize,
    cores: usize,
    msg: &Msg<P>,
) -> Result<(), Memory>
    requires { place < 2 ^ 16 }
    ensures { OnOk result (text.new.items ≡ text.old.items ++ messages_text (sends place cores msg.now).right) }
{
    match msg {
        Msg::S { no, .. } if place + 1 < cores && place == 0 => {
            push_numbered(text, "AckS", no.0)?;
            push_numbered(text, "+EndS", no.0)
        }
        Msg::S { no, .. } if place + 1 < cores => push_numbered(text, "AckS", no.0),
        Msg::S { no, .. } if place == 0 => push_numbered(text, "EndS", no.0),
        Msg::R { .. } | Msg::EndS(_) | Msg::ExpS(_) | Msg::QuietL(_) | Msg::CloseL => {
            push_message(text, msg)
        }
        _ => push_words(text, NOTHING),
    }
}
