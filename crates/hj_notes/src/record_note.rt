ghost use Rattle.std.specs.Prelude.{◌≡◌};
ghost use Rattle.std.specs.List.{flat_map};
ghost use Rattle.hj_notes.specs.Notes.{piece_text, row_text, fault_text, stream_note};
ghost use Rattle.hj_notes.specs.NoteWritten.{NoteWritten};
ghost use Rattle.hj_notes.specs.Parts.{part_text};

use crate::parts::{NOTHING, NotePart, put_parts};
use hj_base::Sink;
use hj_event::{RecordFault, RowFault};
use hj_record::PieceFault;

/// Writes the note of a bad record: its stream's name, its number from 1, and its fault.
pub fn put_record<N: Sink>(notes: &mut N, stream: NotePart, at: u64, fault: RecordFault)
    ensures { NoteWritten (stream_note (part_text stream) at fault) (N.told notes.old) (N.told notes.new) (N.refusals notes.old) (N.refusals notes.new) }
{
    let [kind, first, between, second] = fault_parts(fault);
    let parts = [
        stream,
        NotePart::Words(" record "),
        NotePart::Number(at),
        NotePart::Words(": "),
        kind,
        first,
        between,
        second,
        NotePart::Words("\n"),
    ];
    put_parts(notes, &parts)
}

/// Spells the fault of a record.
fn fault_parts(fault: RecordFault) -> [NotePart; 4]
    ensures { flat_map part_text result ≡ fault_text fault }
{
    match fault {
        RecordFault::Piece(found) => [piece_name(found), NOTHING, NOTHING, NOTHING],
        RecordFault::Row(found) => row_parts(found),
        RecordFault::TimeBack(before, found) => [
            NotePart::Words("TimeBack "),
            NotePart::Signed(before),
            NotePart::Words(" "),
            NotePart::Signed(found),
        ],
    }
}

/// Names the fault of a piece.
fn piece_name(fault: PieceFault) -> NotePart
    ensures { part_text result ≡ piece_text fault }
{
    NotePart::Words(match fault {
        PieceFault::OpenQuote => "OpenQuote",
        PieceFault::NotOneRecord => "NotOneRecord",
        PieceFault::TooLong => "TooLong",
        PieceFault::StreamLong => "StreamLong",
        PieceFault::Memory => "Memory",
    })
}

/// Spells the fault of a row.
fn row_parts(fault: RowFault) -> [NotePart; 4]
    ensures { flat_map part_text result ≡ row_text fault }
{
    let (kind, number) = match fault {
        RowFault::FieldCount(found) => ("FieldCount ", found as u64),
        RowFault::NotNumber(column) => ("NotNumber column ", u64::from(column)),
        RowFault::NumberRange(column) => ("NumberRange column ", u64::from(column)),
        RowFault::NotText(column) => ("NotText column ", u64::from(column)),
        RowFault::Memory => return [NotePart::Words("Memory"), NOTHING, NOTHING, NOTHING],
    };
    [
        NotePart::Words(kind),
        NotePart::Number(number),
        NOTHING,
        NOTHING,
    ]
}
