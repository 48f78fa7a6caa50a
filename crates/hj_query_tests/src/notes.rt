//! Notes as they are written to a sink that takes a few bytes at a time.
use hj_base::{MemSink, Side};
use hj_event::RecordFault;
use hj_notes::{Note, Reason};
use hj_record::PieceFault;

#[test]
fn writes_notes(rt: HostRuntime) {
    let long = RecordFault::Piece(PieceFault::StreamLong);
    let bad = Note::BadRecord {
        side: Side::Right,
        at: u64::MAX,
        fault: long,
    };
    let table = [
        (Note::Memory, "memory\n"),
        (Note::TooManyEvents(3), "events: limit 3\n"),
        (bad, "right record 18446744073709551615: StreamLong\n"),
    ];
    for (note, text) in table {
        let mut notes = MemSink::new(rt.alloc(), 5);
        note.write(&mut notes);
        assert!(rt; notes.bytes() == text.as_bytes(), "at {text}");
    }
}
