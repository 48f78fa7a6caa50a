ghost use Rattle.std.specs.Prelude.{◌≡◌, ◌++◌, OnOk};
ghost use Rattle.hj_trace.specs.Messages.{message_text, partners_text, report_text, sign_before};

use crate::text::{push_number, push_numbered, push_words};
use hj_base::Memory;
use hj_msg::{Msg, Partners, Report};

/// Appends the text of a message.
pub fn push_message<P>(text: &mut Vec<u8>, msg: &Msg<P>) -> Result<(), Memory>
    ensures { OnOk result (text.new.items ≡ text.old.items ++ message_text msg.now) }
{
    match msg {
        Msg::R { no, .. } => push_numbered(text, "R", no.0),
        Msg::AckS(no) => push_numbered(text, "AckS", no.0),
        Msg::EndS(no) => push_numbered(text, "EndS", no.0),
        Msg::ExpS(no) => push_numbered(text, "ExpS", no.0),
        Msg::QuietL(no) => push_numbered(text, "QuietL", no.0),
        Msg::CloseL => push_words(text, "CloseL"),
        Msg::S { no, .. } => push_numbered(text, "S", no.0),
        Msg::EndR(no) => push_numbered(text, "EndR", no.0),
        Msg::ExpR(no) => push_numbered(text, "ExpR", no.0),
        Msg::QuietR(no) => push_numbered(text, "QuietR", no.0),
        Msg::CloseR => push_words(text, "CloseR"),
    }
}

/// Appends the text of a report.
pub fn push_report<P>(text: &mut Vec<u8>, report: &Report<P>) -> Result<(), Memory>
    ensures { OnOk result (text.new.items ≡ text.old.items ++ report_text report.now) }
{
    match report {
        Report::Handled { no, partners, .. } => {
            push_numbered(text, "H", no.0)?;
            push_partners(text, partners)
        }
        Report::Quiet { no, .. } => push_numbered(text, "Q", no.0),
        Report::Ended => push_words(text, "Ended"),
        Report::NoMemory => push_words(text, "NoMemory"),
    }
}

/// Appends the numbers of partners, with a sign before each.
fn push_partners<P>(text: &mut Vec<u8>, partners: &Partners<P>) -> Result<(), Memory>
    ensures { OnOk result (text.new.items ≡ text.old.items ++ partners_text partners.now) }
{
    for at in 0..partners.len() {
        let Some(partner) = partners.get(at) else {
            unreachable!();
        };
        push_numbered(text, sign_before(at), partner.no.0)?;
    }
    Ok(())
}

/// Returns what stands before the number of the partner at a place.
fn sign_before(place: usize) -> &'static str
    ensures { result.now ≡ sign_before place }
{
    if place == 0 { ":" } else { "+" }
}
