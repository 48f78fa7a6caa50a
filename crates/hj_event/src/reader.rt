ghost use Rattle.std.specs.Prelude.{◌≡◌, ◌-◌, ◌<◌, ◌≤◌, [], true, false, not, length, take, slice_index, position, IfOk, IsTrue};
ghost use Rattle.hj_base.specs.Outside.{role_of, ChangesOnly, NamesStay};
ghost use Rattle.hj_record.specs.Blank.{is_blank};
ghost use Rattle.hj_record.specs.LineEnd.{inside_after};
ghost use Rattle.hj_record.specs.Cutter.{cleared};
ghost use Rattle.hj_event.specs.Roles.{IsInStep};
ghost use Rattle.hj_event.specs.Reads.{Fills};
ghost use Rattle.hj_event.specs.Rows.{with_time};
ghost use Rattle.hj_event.specs.Sides.{new_reading};
ghost use Rattle.hj_event.specs.Taking.{stop_of, ReadsPiece, Holds, Advances, IsNextLine, TakesNextLine, TellsRow, most_in_line};

use crate::record::{is_late, read_record};
use crate::schema::read_line;
use crate::stop::{ReadStep, SideStop};
use crate::{RecordFault, RowFault};
use hj_base::{Got, Memory, Outside, Side};
use hj_record::{CARRIAGE_RETURN, Cut, Cutter, Fed, Fields, LINE_FEED, PieceFault, QUOTE};
use hj_value::{ColumnType, Row, RowBlocks, Schema, SharedRow};
use std::alloc::Global;
use std::marker::Model;

/// How many bytes one read asks for.
const MOST_IN_READ: usize = 4_096;

/// How many bytes a stream's first line is thought to have.
const FIRST_LINE_BYTES: usize = 32;

/// How many bytes a stream may have.
const MOST_IN_STREAM: u64 = 1 << 62;

/// The rows of a side as they are read, one after another.
#[derive(Drop)]
pub(crate) struct Reader {
    alloc: Global,
    schema: Schema,
    /// How late a row may be.
    slack: u64,
    /// What the last read gave: of its first `filled` bytes the first `taken` were looked at.
    portion: [u8; MOST_IN_READ],
    taken: usize,
    filled: usize,
    /// A record that begins in the portion before this place has its end there.
    lines_end: usize,
    /// The next line may be in the form in which most lines are.
    straight: bool,
    /// Some column is a text.
    has_texts: bool,
    /// How many bytes the line took that was read straight last; for about as many there is room among the texts of the next row.
    line_bytes: usize,
    /// A read answered the end.
    ended: bool,
    cutter: Cutter,
    /// The fields of the record that was read last.
    fields: Fields,
    /// The blocks of the rows that were read.
    blocks: RowBlocks,
    /// The number that the next record has.
    record_no: u64,
    /// The greatest time of the rows before.
    greatest: Option<i64>,
}

impl Model for Reader {
    ghost use Rattle.hj_event.specs.Sides.{ReaderState};
    ghost use Rattle.hj_event.specs.Reads.{reading, IsReadable};

    ghost Value = { ReaderState };

    ghost view = { λ s. reading s.schema.columns s.slack s.cutter s.portion s.taken s.filled s.ended s.record_no s.greatest };

    ghost invariant = { λ s. IsReadable s.cutter s.portion s.taken s.filled s.lines_end };
}

impl Reader {
    /// Makes a side of which nothing was read.
    pub(crate) fn new(alloc: Global, schema: Schema, slack: u64) -> Self
        ensures { result ≡ new_reading schema.columns slack }
    {
        let has_texts = has_texts(&schema);
        Reader {
            alloc,
            schema,
            slack,
            portion: [0; MOST_IN_READ],
            taken: 0,
            filled: 0,
            lines_end: 0,
            straight: false,
            has_texts,
            line_bytes: FIRST_LINE_BYTES,
            ended: false,
            cutter: Cutter::new(alloc, MOST_IN_STREAM),
            fields: Fields::new(alloc),
            blocks: RowBlocks::new(alloc),
            record_no: 1,
            greatest: None,
        }
    }

    /// Returns whether there are bytes that were read and not looked at.
    #[inline(always)]
    pub(crate) fn has_rest(&self) -> bool
        ensures { result ≡ false → self.now.rest ≡ [] }
    {
        self.taken < self.filled
    }

    /// Returns how late a row may be, in the stream's own units of time.
    #[inline(always)]
    pub(crate) fn slack(&self) -> u64
        ensures { result ≡ self.now.slack }
    {
        self.slack
    }

    /// Returns the greatest time of the rows that were read; None before the first.
    #[inline(always)]
    pub(crate) fn greatest(&self) -> Option<i64>
        ensures { result ≡ self.now.time }
    {
        self.greatest
    }

    /// Returns whether a read answered the end.
    #[inline(always)]
    pub(crate) fn has_ended(&self) -> bool
        ensures { result ≡ self.now.ended }
    {
        self.ended
    }

    /// Returns whether the line that comes next, or a later one where this one is empty, has its end in the bytes that were read.
    #[inline(always)]
    pub(crate) fn has_line(&self) -> bool
        ensures { IsTrue result → TellsRow self.now }
    {
        if self.stands_at_line() {
            return true;
        }
        let unread = &self.portion[self.taken..self.filled];
        match self.cutter.piece().first() {
            Some(&first) => !is_blank(first) && self.cutter.has_end(unread),
            None => match first_written(unread) {
                Some(first) => {
                    self.taken + first < self.lines_end || self.cutter.has_end(&unread[first..])
                }
                None => false,
            },
        }
    }

    /// Returns whether a line begins with what is left, has its end there and is known not to be empty.
    #[inline(always)]
    fn stands_at_line(&self) -> bool
        ensures { IsTrue result → TellsRow self.now }
    {
        if self.lines_end <= self.taken {
            return false;
        }
        match self.cutter.piece().first() {
            Some(_) => false,
            None => !is_blank(self.portion[self.taken]),
        }
    }

    /// Reads the next bytes, once all that were read are looked at.
    pub(crate) fn fill<O: Outside>(&mut self, side: Side, outside: &mut O) -> Result<(), SideStop>
        requires in_step { IsInStep false (O.state outside.old (role_of side)) }
        requires going { self.old.ended ≡ false }
        requires rest { self.old.rest ≡ [] }
        ensures fills { Fills result self.old self.new (O.state outside.old (role_of side)) (O.state outside.new (role_of side)) }
        ensures others { ChangesOnly (role_of side) (O.state outside.old) (O.state outside.new) }
        ensures names { NamesStay (O.under outside.old) (O.under outside.new) }
    {
        match outside.read(side.role(), &mut self.portion) {
            Got::Bytes(count) => {
                self.taken = 0;
                self.filled = count;
                self.lines_end = lines_end(&self.portion[..count], self.cutter.is_inside());
                self.straight = true;
                Ok(())
            }
            Got::End => {
                self.ended = true;
                Ok(())
            }
            Got::Failed => Err(SideStop::Failed),
        }
    }

    /// Takes the row of the next line, if that is in the form in which most are, and not too late: while its end is looked for,
    /// its fields are read. None changes nothing that is seen.
    #[inline(always)]
    pub(crate) fn take_line(&mut self) -> Result<Option<SharedRow>, Memory>
        ensures { TakesNextLine result self.old self.new }
    {
        let most = self.most_in_line();
        if most == 0 {
            return Ok(None);
        }
        let mut row = Row::with_capacity(self.alloc, self.schema.columns.len(), self.text_room())?;
        let used = self.read_line(most, &mut row)?;
        if used == 0 {
            self.straight = false;
            return Ok(None);
        }
        let time = row.time();
        if is_late(self.slack, self.greatest, time) {
            return Ok(None);
        }
        let next = self.record_no.checked_add(1).ok_or(Memory)?;
        let greatest = later(self.greatest, time);
        let shared = self.blocks.share(row)?;
        self.line_bytes = used;
        self.cutter.skip_piece(used);
        self.taken += used;
        self.record_no = next;
        self.greatest = Some(greatest);
        Ok(Some(shared))
    }

    /// Returns how many bytes the next line may have; 0 where a try isn't worth it: no whole line stands in front of what is left, or
    /// another form was met in this portion.
    #[inline(always)]
    fn most_in_line(&self) -> usize
        ensures { 0 < result → result ≡ most_in_line self.now }
    {
        if !self.straight || self.lines_end <= self.taken {
            return 0;
        }
        let unread = &self.portion[self.taken..self.filled];
        self.cutter.most_in_next().min(unread.len())
    }

    /// Returns for how many bytes of texts there is room in the next row.
    #[inline(always)]
    fn text_room(&self) -> usize {
        if self.has_texts { self.line_bytes } else { 0 }
    }

    /// Reads the row of the next line, if that is in the form in which most are; `row` is empty before. Returns how many bytes the
    /// line takes, or 0.
    #[inline(always)]
    fn read_line(&self, most: usize, row: &mut Row) -> Result<usize, Memory>
        requires most { most ≡ most_in_line self.now }
        requires empty { row.old ≡ [] }
        ensures { IfOk result (λ used. 0 < used → IsNextLine row.new used self.now) }
    {
        let unread = &self.portion[self.taken..self.filled];
        read_line(&self.schema, &unread[..most], row)
    }

    /// Goes on to the end of the next piece in the bytes that were read, in whatever form it is.
    #[inline(never)]
    pub(crate) fn cut(&mut self) -> Result<ReadStep, SideStop>
        ensures { Advances result self.old self.new }
    {
        let portion: &[u8] = &self.portion;
        match self.cutter.cut(&portion[self.taken..self.filled]) {
            Cut::Lent(used) => {
                let piece = &portion[self.taken..self.taken + used];
                let row = read_record(
                    self.alloc,
                    &self.schema,
                    self.slack,
                    self.greatest,
                    piece,
                    &mut self.fields,
                );
                self.taken += used;
                self.hold(row)
            }
            Cut::Piece(used) => {
                self.taken += used;
                let row = read_kept(
                    self.alloc,
                    &self.schema,
                    self.slack,
                    self.greatest,
                    &mut self.cutter,
                    &mut self.fields,
                );
                self.hold(row)
            }
            Cut::More => {
                self.taken = self.filled;
                if self.ended {
                    self.close()
                } else {
                    Ok(ReadStep::More)
                }
            }
            Cut::Bad(fault) => Err(stop(self.record_no, RecordFault::Piece(fault))),
        }
    }

    /// Comes to the end of the stream, once all its bytes were looked at.
    fn close(&mut self) -> Result<ReadStep, SideStop>
        requires ended { self.old.ended ≡ true }
        requires rest { self.old.rest ≡ [] }
        ensures { Advances result self.old self.new }
    {
        match self.cutter.end() {
            Fed::Piece(_) => {
                let row = read_kept(
                    self.alloc,
                    &self.schema,
                    self.slack,
                    self.greatest,
                    &mut self.cutter,
                    &mut self.fields,
                );
                self.hold(row)
            }
            Fed::More => Ok(ReadStep::End),
            Fed::Bad(fault) => Err(stop(self.record_no, RecordFault::Piece(fault))),
        }
    }

    /// Counts the row of a piece, and gives it to be shared.
    #[inline(always)]
    fn hold(&mut self, row: Result<Option<Row>, RecordFault>) -> Result<ReadStep, SideStop>
        ensures { Holds row result self.old self.new }
    {
        let row = match row {
            Ok(Some(row)) => row,
            Ok(None) => return Ok(ReadStep::NoRecord),
            Err(fault) => return Err(stop(self.record_no, fault)),
        };
        let time = row.time();
        let shared = self.blocks.share(row)?;
        self.record_no = self.record_no.checked_add(1).ok_or(SideStop::Memory)?;
        self.greatest = Some(later(self.greatest, time));
        Ok(ReadStep::Row(shared))
    }
}

/// Returns whether a line may have this byte and be empty: one of a line's end, or of a byte order mark.
#[inline(always)]
fn is_blank(byte: u8) -> bool
    ensures { result ≡ is_blank byte }
{
    matches!(byte, CARRIAGE_RETURN | LINE_FEED | 0xEF | 0xBB | 0xBF)
}

/// Finds the place of the first byte that no empty line has.
#[inline(always)]
fn first_written(bytes: &[u8]) -> Option<usize>
    ensures { result ≡ position (λ byte. not (is_blank byte)) bytes.now }
{
    bytes.iter().position(|&byte| !is_blank(byte))
}

/// Finds the place after the last line feed outside quotes of bytes that begin inside quotes, or outside; 0 where none stands
/// there.
fn lines_end(bytes: &[u8], inside: bool) -> usize
    ensures within { result ≤ length bytes.now }
    ensures line_feed { 0 < result → slice_index bytes.now (result - 1) ≡ 10 }
    ensures outside { 0 < result → inside_after inside (take (result - 1) bytes.now) ≡ false }
{
    let mut inside = ends_inside(bytes, inside);
    for at in (0..bytes.len()).rev() {
        let byte = bytes[at];
        if byte == LINE_FEED && !inside {
            return at + 1;
        }
        if byte == QUOTE {
            inside = !inside;
        }
    }
    0
}

/// Returns whether bytes that begin inside quotes, or outside, end inside. It looks at several of them at a time.
fn ends_inside(bytes: &[u8], mut inside: bool) -> bool
    ensures { result ≡ inside_after inside bytes.now }
{
    for &byte in bytes {
        inside ^= byte == QUOTE;
    }
    inside
}

/// Returns whether some column is a text.
fn has_texts(schema: &Schema) -> bool {
    for at in 0..schema.columns.len() {
        if let Some(column) = schema.columns.get(at)
            && column.kind == ColumnType::Text
        {
            return true;
        }
    }
    false
}

/// Returns the greatest time, with one more.
#[inline(always)]
fn later(greatest: Option<i64>, time: i64) -> i64
    ensures { result ≡ with_time greatest time }
{
    match greatest {
        Some(greatest) if time < greatest => greatest,
        _ => time,
    }
}

/// Reads the row of the piece that a cutter keeps, and makes the cutter ready for the next one.
fn read_kept(
    alloc: Global,
    schema: &Schema,
    slack: u64,
    greatest: Option<i64>,
    cutter: &mut Cutter,
    fields: &mut Fields,
) -> Result<Option<Row>, RecordFault>
    ensures row { ReadsPiece result schema.now.columns slack greatest cutter.old.piece }
    ensures cleared { cutter.new ≡ cleared cutter.old }
{
    let row = read_record(alloc, schema, slack, greatest, cutter.piece(), fields);
    cutter.clear();
    row
}

/// Returns why the stream stops at the record of this number.
fn stop(at: u64, fault: RecordFault) -> SideStop
    ensures { result ≡ stop_of at fault }
{
    match fault {
        RecordFault::Piece(PieceFault::Memory) | RecordFault::Row(RowFault::Memory) =>
            SideStop::Memory,
        _ => SideStop::Bad { at, fault },
    }
}
