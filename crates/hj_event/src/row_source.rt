ghost use Rattle.std.specs.Prelude.{◌≡◌, ◌≢◌, IsTrue, [], false, true, is_some, IfOk, OnOk};
ghost use Rattle.hj_event.specs.declared.row_source.Ahead.TheVariants as known;
ghost use Rattle.hj_base.specs.Outside.{role_of, ChangesOnly, NamesStay};
ghost use Rattle.hj_record.specs.Pieces.{Stream};
ghost use Rattle.hj_event.specs.Roles.{IsInStep};
ghost use Rattle.hj_event.specs.Reads.{Fills};
ghost use Rattle.hj_event.specs.Sides.{new_side, rows_ahead, MayFollow};
ghost use Rattle.hj_event.specs.Waiting.{AreInOrder, TakesSure, has_sure};
ghost use Rattle.hj_event.specs.Taking.{read_by, step_by, unseen, SideGoesOn, ReadsLine, ReadsLines, TakesRow, TakesStraight, IsTold};

use crate::RecordFault;
use crate::reader::Reader;
use crate::stop::{ReadStep, SideStop};
use crate::waiting::{WaitingRows, is_held};
use hj_base::{Memory, Outside, Side};
use hj_value::{Schema, SharedRow};
use std::alloc::Global;
use std::marker::Model;

/// What is known of what comes after the rows that wait, where rows may be late.
#[derive(Clone, Copy)]
enum Ahead {
    Unknown,
    /// No row comes.
    Over,
    /// The record of this number, after those of the rows that wait, is refused.
    Refused { at: u64, fault: RecordFault },
}

/// What reading a line gives, whose row waits from then on.
#[derive(Drop)]
enum LineStep {
    /// The first row that waits, which is sure and is taken.
    Next(SharedRow),
    /// No row that waits is sure.
    NoneSure,
    /// There is no line in the form in which most are.
    NoLine,
}

/// The rows of a side in order, of which no more is read than is looked at.
///
/// Without a slack they come as they are read. With one they wait until no row that is still to be read can come before them.
#[derive(Drop)]
pub(crate) struct RowSource {
    reader: Reader,
    /// The next row, where it is sure. Then nothing is known of what comes after those that wait.
    next: Option<SharedRow>,
    /// The rows that were read and not given, after the next one.
    waiting: WaitingRows,
    ahead: Ahead,
}

impl Model for RowSource {
    ghost use Rattle.std.specs.Prelude.{None, ◌++◌, option_to_list};
    ghost use Rattle.hj_event.specs.Sides.{SideState};
    ghost use Rattle.hj_event.specs.Taking.{refused_in, KeepsBehind};

    ghost Value = { SideState };

    ghost view = { λ s. record { head = None; reading = s.reader; waiting = option_to_list s.next ++ s.waiting; stop = refused_in s.ahead } };

    ghost invariant = { λ s. KeepsBehind s.reader s.next s.waiting s.ahead };
}

impl RowSource {
    /// Makes a source of which nothing was read.
    pub(crate) fn new(alloc: Global, schema: Schema, slack: u64) -> Self
        ensures { result ≡ new_side schema.columns slack }
    {
        RowSource {
            reader: Reader::new(alloc, schema, slack),
            next: None,
            waiting: WaitingRows::new(alloc, slack),
            ahead: Ahead::Unknown,
        }
    }

    /// Takes the next row; None at the end of the stream. It reads only where the bytes that were read give no row.
    #[inline(always)]
    pub(crate) fn next_row<O: Outside>(
        &mut self,
        side: Side,
        outside: &mut O,
    ) -> Result<Option<SharedRow>, SideStop>
        requires { IsInStep self.old.reading.ended (O.state outside.old (role_of side)) }
        ensures takes { TakesRow result (unseen self.old) (unseen self.new) (O.state outside.old (role_of side)) (O.state outside.new (role_of side)) }
        ensures others { ChangesOnly (role_of side) (O.state outside.old) (O.state outside.new) }
        ensures names { NamesStay (O.under outside.old) (O.under outside.new) }
    {
        for _ in 0..u64::MAX {
            match self.go_on()? {
                ReadStep::Row(row) => return Ok(Some(row)),
                ReadStep::NoRecord => (),
                ReadStep::More => self.fill(side, outside)?,
                ReadStep::End => return Ok(None),
            }
        }
        Err(SideStop::Memory)
    }

    /// Takes the next row, where it is known, or its line is read straight. None changes nothing that is seen.
    #[inline(always)]
    pub(crate) fn take_straight(&mut self) -> Result<Option<SharedRow>, Memory>
        ensures { TakesStraight result self.old self.new }
    {
        if self.reader.slack() == 0 {
            return self.reader.take_line();
        }
        if let Some(row) = self.next.take() {
            self.read_on()?;
            return Ok(Some(row));
        }
        Ok(None)
    }

    /// Takes the first row that waits, where no row comes after those that wait. None changes nothing that is seen. It stands apart,
    /// so that what calls it has no registers to save for it.
    #[inline(never)]
    pub(crate) fn take_last(&mut self) -> Option<SharedRow>
        ensures { TakesStraight (Ok result) self.old self.new }
    {
        match self.ahead {
            Ahead::Unknown => None,
            _ => self.waiting.take(),
        }
    }

    /// Reads the next bytes, once all that were read are looked at.
    fn fill<O: Outside>(&mut self, side: Side, outside: &mut O) -> Result<(), SideStop>
        requires in_step { IsInStep false (O.state outside.old (role_of side)) }
        requires going { self.old.reading.ended ≡ false }
        requires rest { self.old.reading.rest ≡ [] }
        ensures fills { Fills result self.old.reading self.new.reading (O.state outside.old (role_of side)) (O.state outside.new (role_of side)) }
        ensures same { self.new ≡ record self.old { reading = self.new.reading } }
        ensures others { ChangesOnly (role_of side) (O.state outside.old) (O.state outside.new) }
        ensures names { NamesStay (O.under outside.old) (O.under outside.new) }
    {
        self.reader.fill(side, outside)
    }

    /// Returns whether the next row, or the end, can be told without a read.
    #[inline(always)]
    pub(crate) fn is_ready(&self) -> bool
        ensures { IsTrue result → IsTold (unseen self.now) }
    {
        self.reader.has_ended()
            || if self.reader.slack() == 0 {
                self.reader.has_line()
            } else {
                self.knows_next()
            }
    }

    /// Returns whether it is known what comes next.
    #[inline(always)]
    fn knows_next(&self) -> bool
        ensures known { IsTrue result → IsTold (unseen self.now) }
        ensures unknown { result ≡ false → self.now.stop ≡ None }
    {
        is_known(&self.next, &self.ahead)
    }

    /// Goes on by a piece of what was read, in whatever form it is, or by a row that waits.
    #[inline(always)]
    fn go_on(&mut self) -> Result<ReadStep, SideStop>
        ensures { SideGoesOn result self.old self.new }
    {
        if self.reader.slack() == 0 {
            return self.reader.cut();
        }
        if let Some(row) = self.next.take() {
            self.read_on()?;
            return Ok(ReadStep::Row(row));
        }
        self.go_on_in_order()
    }

    /// Goes on where rows may be late and none is known to be the next one.
    #[inline(never)]
    fn go_on_in_order(&mut self) -> Result<ReadStep, SideStop>
        requires { self.old.reading.slack ≢ 0 }
        ensures { SideGoesOn result self.old self.new }
    {
        match self.ahead {
            Ahead::Unknown => self.read_more(),
            Ahead::Over => match self.waiting.take() {
                Some(row) => Ok(ReadStep::Row(row)),
                None => Ok(ReadStep::End),
            },
            Ahead::Refused { at, fault } => match self.waiting.take() {
                Some(row) => Ok(ReadStep::Row(row)),
                None => Err(SideStop::Bad { at, fault }),
            },
        }
    }

    /// Reads rows in the bytes that were read, until it is known what comes next or more bytes are wanted.
    #[inline(always)]
    fn read_more(&mut self) -> Result<ReadStep, SideStop>
        requires late { self.old.reading.slack ≢ 0 }
        requires going { self.old.stop ≡ None }
        ensures { SideGoesOn result self.old self.new }
    {
        self.read_on()?;
        if self.knows_next() {
            return Ok(ReadStep::NoRecord);
        }
        if self.read_other()? {
            Ok(ReadStep::More)
        } else {
            Ok(ReadStep::NoRecord)
        }
    }

    /// Reads rows in the bytes that were read, at least one, until the next one is known. So `is_ready` can tell, and the rows that
    /// wait grow in number only where the slack holds them back.
    #[inline(never)]
    fn read_on(&mut self) -> Result<(), Memory>
        requires late { self.old.reading.slack ≢ 0 }
        requires going { self.old.stop ≡ None }
        ensures ended { self.new.reading.ended ≡ self.old.reading.ended }
        ensures slack { self.new.reading.slack ≡ self.old.reading.slack }
        ensures same { OnOk result ((stream : Stream) → MayFollow self.new.reading.ended stream → rows_ahead self.old stream ≡ rows_ahead self.new stream) }
    {
        for _ in 0..u64::MAX {
            self.read_straight()?;
            if self.knows_next() {
                return Ok(());
            }
            if !self.reader.has_rest() {
                self.look();
                return Ok(());
            }
            self.read_other()?;
        }
        Err(Memory)
    }

    /// Reads lines that are in the form in which most are, until the next row is known or there is no such line.
    #[inline(always)]
    fn read_straight(&mut self) -> Result<(), Memory>
        requires { self.old.reading.slack ≢ 0 }
        ensures goes_on { SideGoesOn (read_by result) self.old self.new }
        ensures slack { self.new.reading.slack ≡ self.old.reading.slack }
    {
        if is_known(&self.next, &self.ahead) {
            return Ok(());
        }
        if let Some(next) = read_lines(&mut self.reader, &mut self.waiting)? {
            self.next = Some(next);
        }
        Ok(())
    }

    /// Reads the row of the next piece, in whatever form it is, unless it is known what comes next. The row waits from then on, and the
    /// first one that waits may be sure by it. Returns whether more bytes are wanted.
    // Called, and seldom, so that what is mostly done is compiled into the loop over rows.
    #[cold]
    fn read_other(&mut self) -> Result<bool, Memory>
        requires late { self.old.reading.slack ≢ 0 }
        requires going { self.old.stop ≡ None }
        ensures goes_on { SideGoesOn (step_by result) self.old self.new }
        ensures slack { self.new.reading.slack ≡ self.old.reading.slack }
    {
        if is_known(&self.next, &self.ahead) {
            return Ok(false);
        }
        match self.reader.cut() {
            Ok(ReadStep::Row(row)) => {
                self.waiting.put(row.row().time(), row)?;
                self.next = take_sure(&self.reader, &mut self.waiting);
            }
            Ok(ReadStep::NoRecord) => (),
            Ok(ReadStep::More) => {
                self.next = take_sure(&self.reader, &mut self.waiting);
                return Ok(self.next.is_none());
            }
            Ok(ReadStep::End) => self.ahead = Ahead::Over,
            Err(SideStop::Bad { at, fault }) => self.ahead = Ahead::Refused { at, fault },
            // Nothing is read from outside here, so no read fails.
            Err(SideStop::Failed | SideStop::Memory) => return Err(Memory),
        }
        Ok(false)
    }

    /// Takes the first row that waits as the next one, if it is sure and it isn't known what comes next.
    fn look(&mut self)
        requires late { self.old.reading.slack ≢ 0 }
        ensures same { self.new ≡ self.old }
    {
        if !is_known(&self.next, &self.ahead) {
            self.next = take_sure(&self.reader, &mut self.waiting);
        }
    }
}

/// Reads lines that are in the form in which most are, until the first row that waits is sure, which is taken; None where there is
/// no such line. The rows wait from then on.
fn read_lines(reader: &mut Reader, waiting: &mut WaitingRows) -> Result<Option<SharedRow>, Memory>
    ensures ended { reader.new.ended ≡ reader.old.ended }
    ensures slack { reader.new.slack ≡ reader.old.slack }
    ensures reads { IfOk result (λ next. ReadsLines next reader.old waiting.old reader.new waiting.new) }
{
    let mut none_sure = false;
    for _ in 0..u64::MAX {
        match read_line(reader, waiting, none_sure)? {
            LineStep::Next(row) => return Ok(Some(row)),
            LineStep::NoneSure => none_sure = true,
            LineStep::NoLine => return Ok(None),
        }
    }
    Err(Memory)
}

/// Reads a line that is in the form in which most are: its row waits from then on, and the first one that waits may be sure by it. Where
/// none was sure, and this row changes nothing of it, that isn't looked at.
fn read_line(
    reader: &mut Reader,
    waiting: &mut WaitingRows,
    none_sure: bool,
) -> Result<LineStep, Memory>
    requires { none_sure ≡ true → has_sure reader.old.slack reader.old.time waiting.old ≡ false }
    ensures ended { reader.new.ended ≡ reader.old.ended }
    ensures slack { reader.new.slack ≡ reader.old.slack }
    ensures reads { IfOk result (λ step. ReadsLine step reader.old waiting.old reader.new waiting.new) }
{
    let Some(row) = reader.take_line()? else {
        return Ok(LineStep::NoLine);
    };
    let time = row.row().time();
    waiting.put(time, row)?;
    if none_sure && is_held(reader.slack(), reader.greatest(), time) {
        return Ok(LineStep::NoneSure);
    }
    match take_sure(reader, waiting) {
        Some(next) => Ok(LineStep::Next(next)),
        None => Ok(LineStep::NoneSure),
    }
}

/// Returns whether the next row is known, or what comes after those that wait.
#[inline(always)]
fn is_known(next: &Option<SharedRow>, ahead: &Ahead) -> bool
    ensures known { result ≡ true → is_some next.now ≡ false → ahead.now ≢ known.Unknown }
    ensures next { result ≡ false → is_some next.now ≡ false }
    ensures ahead { result ≡ false → ahead.now ≡ known.Unknown }
{
    next.is_some() || !matches!(ahead, Ahead::Unknown)
}

/// Takes the first row that waits, if it is sure by what was read; None where there is none that is.
#[inline(always)]
fn take_sure(reader: &Reader, waiting: &mut WaitingRows) -> Option<SharedRow>
    ensures takes { TakesSure result reader.now.slack reader.now.time waiting.old waiting.new }
    ensures in_order { AreInOrder waiting.old }
{
    waiting.take_sure(reader.slack(), reader.greatest())
}
