//! Why `twice` didn't end well, as a text, and as an exit status.
ghost use Rattle.std.specs.Prelude.{◌≡◌};
ghost use Rattle.hj_notes.specs.Parts.{part_text};
ghost use Rattle.hj_notes.specs.TwiceText.{second_name};

use crate::note::Note;
use crate::parts::{NotePart, put_parts, role_name};
use crate::query_note::put_query;
use crate::reason::Reason;
use crate::record_note::put_record;
use hj_base::{Role, Side, Sink};
use hj_event::RecordFault;
use hj_query::QueryFault;

/// Why `twice` didn't end well.
#[derive(Clone, Copy, Debug)]
pub enum TwiceNote {
    /// A cause that other commands have too; of a query or a record, it is one of the first join.
    Common(Note),
    /// The text of the second query is no query.
    BadSecondQuery(QueryFault),
    /// The columns of the second query's left stream aren't those of the first join's pairs.
    Shape,
    /// The record of a side of the second join, by its number from 1, is refused: on the left a pair of the first join.
    BadSecondRecord {
        side: Side,
        at: u64,
        fault: RecordFault,
    },
}

impl From<Note> for TwiceNote {
    ghost use Rattle.std.specs.Prelude.{◌≡◌};
    ghost use Rattle.hj_notes.specs.declared.twice_note.TwiceNote.TheVariants as twice;

    ghost from_gives = { λ note e. e ≡ twice.Common note };

    fn from(note: Note) -> Self {
        TwiceNote::Common(note)
    }
}

impl Reason for TwiceNote {
    ghost use Rattle.hj_notes.specs.TwiceText.{twice_status, twice_text};

    ghost status_of = { λ note. twice_status note };

    ghost text_of = { λ note. twice_text note };

    fn status(&self) -> u8 {
        match self {
            TwiceNote::Common(note) => note.status(),
            TwiceNote::BadSecondQuery(_) | TwiceNote::Shape => 2,
            TwiceNote::BadSecondRecord { .. } => 3,
        }
    }

    fn write<N: Sink>(&self, notes: &mut N) {
        match *self {
            TwiceNote::Common(note) => note.write(notes),
            TwiceNote::BadSecondQuery(fault) => {
                put_query(notes, role_name(Role::SecondQuery), fault);
            }
            TwiceNote::Shape => put_parts(notes, &[NotePart::Words("query: Shape\n")]),
            TwiceNote::BadSecondRecord { side, at, fault } => {
                put_record(notes, second_name(side), at, fault);
            }
        }
    }
}

/// Names a stream of the second join.
fn second_name(side: Side) -> NotePart
    ensures { part_text result ≡ second_name side }
{
    match side {
        Side::Left => NotePart::Words("relay"),
        Side::Right => role_name(Role::Third),
    }
}
