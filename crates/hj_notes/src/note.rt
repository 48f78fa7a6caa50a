use crate::parts::{NotePart, put_parts, role_name, side_name};
use crate::query_note::put_query;
use crate::reason::Reason;
use crate::record_note::put_record;
use hj_base::{Memory, Role, Side, Sink};
use hj_event::RecordFault;
use hj_query::QueryFault;
use std::alloc::AllocError;

const USAGE: &str = "\
usage: equi W LEFT RIGHT | join [--cores N] [--threads N] [--flight N] [--max-events N] [--schedule SEED] QUERY LEFT RIGHT \
| check QUERY | gen N KEYS SEED W \
| raw [--cores N] [--threads N] [--flight N] [--max-events N] QUERY LEFT RIGHT \
| trace [--cores N] [--flight N] [--max-events N] [--schedule SEED] QUERY LEFT RIGHT \
| verify [--cores N] [--flight N] [--max-events N] QUERY LEFT RIGHT TRACE OUTPUT \
| twice [--cores N] [--threads N] [--flight N] [--max-events N] [--schedule SEED] QUERY LEFT RIGHT QUERY THIRD\n";

/// Why a run didn't end well.
#[derive(Clone, Copy, Debug)]
pub enum Note {
    /// The words spell no order.
    Usage,
    /// The text is no query.
    BadQuery(QueryFault),
    /// The record of a side, by its number from 1, is refused.
    BadRecord {
        side: Side,
        at: u64,
        fault: RecordFault,
    },
    /// The stream of a role couldn't be opened or read.
    Source(Role),
    /// The output failed.
    Sink,
    /// Memory ran out.
    Memory,
    /// There would be more events than this limit.
    TooManyEvents(u64),
}

impl From<Memory> for Note {
    ghost use Rattle.std.specs.Prelude.{◌≡◌};
    ghost use Rattle.hj_notes.specs.declared.note.Note.TheVariants as note;

    ghost from_gives = { λ _ e. e ≡ note.Memory };

    fn from(_: Memory) -> Self {
        Note::Memory
    }
}

impl From<AllocError> for Note {
    ghost use Rattle.std.specs.Prelude.{◌≡◌};
    ghost use Rattle.hj_notes.specs.declared.note.Note.TheVariants as note;

    ghost from_gives = { λ _ e. e ≡ note.Memory };

    fn from(_: AllocError) -> Self {
        Note::Memory
    }
}

impl Reason for Note {
    ghost use Rattle.hj_notes.specs.NoteText.{note_text, status_of};

    ghost status_of = { λ note. status_of note };

    ghost text_of = { λ note. note_text note };

    fn status(&self) -> u8 {
        match self {
            Note::Usage => 1,
            Note::BadQuery(_) => 2,
            Note::BadRecord { .. } => 3,
            Note::Source(_) => 4,
            Note::Sink => 5,
            Note::Memory => 6,
            Note::TooManyEvents(_) => 7,
        }
    }

    fn write<N: Sink>(&self, notes: &mut N) {
        match *self {
            Note::Usage => put_parts(notes, &[NotePart::Words(USAGE)]),
            Note::BadQuery(fault) => put_query(notes, role_name(Role::Query), fault),
            Note::BadRecord { side, at, fault } => put_record(notes, side_name(side), at, fault),
            Note::Source(role) => put_parts(
                notes,
                &[
                    NotePart::Words("source: "),
                    role_name(role),
                    NotePart::Words("\n"),
                ],
            ),
            Note::Sink => put_parts(notes, &[NotePart::Words("sink\n")]),
            Note::Memory => put_parts(notes, &[NotePart::Words("memory\n")]),
            Note::TooManyEvents(limit) => put_parts(
                notes,
                &[
                    NotePart::Words("events: limit "),
                    NotePart::Number(limit),
                    NotePart::Words("\n"),
                ],
            ),
        }
    }
}
