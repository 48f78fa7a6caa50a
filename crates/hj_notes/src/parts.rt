ghost use Rattle.std.specs.Prelude.{◌≡◌};
ghost use Rattle.std.specs.List.{flat_map};
ghost use Rattle.hj_base.specs.Output.{SendsPiece, CountsRefusals};
ghost use Rattle.hj_notes.specs.Notes.{role_name, side_name};
ghost use Rattle.hj_notes.specs.NoteWritten.{NoteWritten};
ghost use Rattle.hj_notes.specs.Parts.{part_text};

use hj_base::{Role, Sent, Side, Sink, put_all};
use itoa::Buffer;

/// A part of a note: words, or a number in decimal.
#[derive(Clone, Copy)]
pub enum NotePart {
    Words(&'static str),
    Number(u64),
    Signed(i64),
}

/// The part with no bytes.
pub const NOTHING: NotePart = NotePart::Words("");

/// Writes parts one after another, up to the first refusal.
pub fn put_parts<N: Sink>(notes: &mut N, parts: &[NotePart])
    ensures { NoteWritten (flat_map part_text parts.now) (N.told notes.old) (N.told notes.new) (N.refusals notes.old) (N.refusals notes.new) }
{
    for part in parts {
        match put_part(notes, *part) {
            Sent::Whole => (),
            Sent::Failed | Sent::Memory => return,
        }
    }
}

/// Writes a part whole, or as far as it is taken.
fn put_part<N: Sink>(notes: &mut N, part: NotePart) -> Sent
    ensures sends { SendsPiece result (part_text part) (N.told notes.old) (N.told notes.new) }
    ensures refusals { CountsRefusals result (N.refusals notes.old) (N.refusals notes.new) }
{
    let mut digits = Buffer::new();
    match part {
        NotePart::Words(words) => put_all(notes, words.as_bytes()),
        NotePart::Number(number) => put_all(notes, digits.format(number).as_bytes()),
        NotePart::Signed(number) => put_all(notes, digits.format(number).as_bytes()),
    }
}

/// Names a role.
pub fn role_name(role: Role) -> NotePart
    ensures { part_text result ≡ role_name role }
{
    match role {
        Role::Query => NotePart::Words("query"),
        Role::SecondQuery => NotePart::Words("second query"),
        Role::Left => NotePart::Words("left"),
        Role::Right => NotePart::Words("right"),
        Role::Third => NotePart::Words("third"),
        Role::Trace => NotePart::Words("trace"),
        Role::Output => NotePart::Words("output"),
    }
}

/// Names a side.
pub fn side_name(side: Side) -> NotePart
    ensures { part_text result ≡ side_name side }
{
    match side {
        Side::Left => NotePart::Words("left"),
        Side::Right => NotePart::Words("right"),
    }
}
