//! Why `verify` didn't end well, as a text, and as an exit status.
ghost use Rattle.hj_notes.specs.NoteWritten.{NoteWritten};
ghost use Rattle.hj_notes.specs.VerifyText.{line_note, refusal_note};

use crate::note::Note;
use crate::parts::{NotePart, put_parts};
use crate::reason::Reason;
use hj_base::Sink;
use hj_trace::TraceFault;

/// Why `verify` didn't end well.
#[derive(Clone, Copy, Debug)]
pub enum VerifyNote {
    /// A cause that other commands have too.
    Common(Note),
    /// The trace or the output is refused.
    Refused(TraceFault),
}

impl From<Note> for VerifyNote {
    ghost use Rattle.std.specs.Prelude.{◌≡◌};
    ghost use Rattle.hj_notes.specs.declared.verify_note.VerifyNote.TheVariants as verify;

    ghost from_gives = { λ note e. e ≡ verify.Common note };

    fn from(note: Note) -> Self {
        VerifyNote::Common(note)
    }
}

impl Reason for VerifyNote {
    ghost use Rattle.hj_notes.specs.VerifyText.{verify_status, verify_text};

    ghost status_of = { λ note. verify_status note };

    ghost text_of = { λ note. verify_text note };

    fn status(&self) -> u8 {
        match self {
            VerifyNote::Common(note) => note.status(),
            VerifyNote::Refused(_) => 8,
        }
    }

    fn write<N: Sink>(&self, notes: &mut N) {
        match *self {
            VerifyNote::Common(note) => note.write(notes),
            VerifyNote::Refused(fault) => put_refusal(notes, fault),
        }
    }
}

/// Writes the note of a trace or an output that is refused.
fn put_refusal<N: Sink>(notes: &mut N, fault: TraceFault)
    ensures { NoteWritten (refusal_note fault) (N.told notes.old) (N.told notes.new) (N.refusals notes.old) (N.refusals notes.new) }
{
    match fault {
        TraceFault::Form(line) => put_line(notes, line, "Form"),
        TraceFault::NotEnabled(line) => put_line(notes, line, "NotEnabled"),
        TraceFault::Text(line) => put_line(notes, line, "Text"),
        TraceFault::Early(line) => put_line(notes, line, "Early"),
        TraceFault::Late(line) => put_line(notes, line, "Late"),
        TraceFault::Output(at) => put_parts(
            notes,
            &[
                NotePart::Words("output byte "),
                NotePart::Number(at),
                NotePart::Words("\n"),
            ],
        ),
    }
}

/// Writes the note of a line of a trace that breaks a rule: its number, and the rule.
fn put_line<N: Sink>(notes: &mut N, line: u64, rule: &'static str)
    ensures { NoteWritten (line_note line rule.now) (N.told notes.old) (N.told notes.new) (N.refusals notes.old) (N.refusals notes.new) }
{
    put_parts(
        notes,
        &[
            NotePart::Words("trace line "),
            NotePart::Number(line),
            NotePart::Words(": "),
            NotePart::Words(rule),
            NotePart::Words("\n"),
        ],
    )
}
