ghost use Rattle.std.specs.Prelude.{◌≡◌, ◌≢◌, ◌≤◌, [], true, length, OnOk};
ghost use Rattle.csv.specs.Reading.{strip_bom};
ghost use Rattle.csv.specs.Records.{fields_of};
ghost use Rattle.hj_record.specs.Plain.{ReadsPieceText};
ghost use Rattle.hj_record.specs.Records.{AnswersPiece, ReadsInto, without_marks};

use crate::plain::{PlainRecord, cut_plain};
use crate::{Fields, PieceFault};
use csv::{ByteRecord, ReaderBuilder};
use hj_base::Memory;
use std::alloc::Global;

/// Reads the record of a piece of at most 65,536 bytes: its fields, or None if it holds no record.
pub fn read_piece(alloc: Global, piece: &[u8]) -> Result<Option<Fields>, PieceFault>
    requires { length piece.now ≤ 65536 }
    ensures { AnswersPiece result piece.now }
{
    let mut fields = Fields::new(alloc);
    if read_piece_into(piece, &mut fields)? {
        Ok(Some(fields))
    } else {
        Ok(None)
    }
}

/// Reads the record of a piece of at most 65,536 bytes into `fields`, in place of what they held. Returns true if the
/// piece holds a record, whose fields they then are; in every other case they are empty. A piece whose fields are each
/// in quotes, or without quote, comma and line end, is read into the memory that `fields` have, and more is asked for
/// only if that isn't enough. For any other piece a reader of `csv` is made.
pub fn read_piece_into(piece: &[u8], fields: &mut Fields) -> Result<bool, PieceFault>
    requires { length piece.now ≤ 65536 }
    ensures answer { ReadsInto result fields.new piece.now }
    ensures empty { result ≢ Ok true → fields.new ≡ [] }
{
    let answer = read_text(without_marks(piece), fields);
    if !matches!(answer, Ok(true)) {
        fields.clear();
    }
    answer
}

/// Returns the piece without the byte order marks at its start.
fn without_marks(mut piece: &[u8]) -> &[u8]
    ensures { result.now ≡ without_marks piece.now }
{
    while let [0xEF, 0xBB, 0xBF, rest @ ..] = piece {
        piece = rest;
    }
    piece
}

/// Reads the record of a text that begins with no mark, in the plain form or by `csv`.
fn read_text(text: &[u8], fields: &mut Fields) -> Result<bool, PieceFault>
    requires { strip_bom text.now ≡ text.now }
    ensures { ReadsPieceText result fields.new text.now }
{
    fields.clear();
    match cut_plain(text, fields)? {
        PlainRecord::Record => Ok(true),
        PlainRecord::NoRecord => Ok(false),
        PlainRecord::NotPlain => {
            fields.clear();
            read_by_csv(text, fields)
        }
    }
}

/// Reads the record of a text by a reader of `csv`, which takes some 10 microseconds.
#[inline(never)]
fn read_by_csv(text: &[u8], fields: &mut Fields) -> Result<bool, PieceFault>
    requires marks { strip_bom text.now ≡ text.now }
    requires empty { fields.old ≡ [] }
    ensures { ReadsPieceText result fields.new text.now }
{
    let alloc = fields.allocator();
    let mut reader = ReaderBuilder::new()
        .has_headers(false)
        .flexible(true)
        .from_reader(alloc, text);
    let mut record = ByteRecord::new(alloc);
    match reader.read_byte_record(&mut record) {
        Ok(true) => push_all(&record, fields)?,
        Ok(false) => return Ok(false),
        Err(_) => return Err(PieceFault::Memory),
    }
    match reader.read_byte_record(&mut record) {
        Ok(true) => Err(PieceFault::NotOneRecord),
        Ok(false) => Ok(true),
        Err(_) => Err(PieceFault::Memory),
    }
}

/// Appends each field of a record to `fields`, which are empty before.
fn push_all(row: &ByteRecord, fields: &mut Fields) -> Result<(), Memory>
    requires { fields.old ≡ [] }
    ensures { OnOk result (fields.new ≡ fields_of row.now) }
{
    for at in 0..row.len() {
        if let Some(field) = row.get(at) {
            fields.push(field)?;
        }
    }
    Ok(())
}
