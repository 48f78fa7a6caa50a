ghost use Rattle.std.specs.Prelude.{◌≡◌, ◌≤◌, ◌<◌, ℕ, length, true, false, drop, option_copied, IfOk, IsSomeAnd, OnOk, OnErr, Some, [], ◌∷◌, ◌++◌, unwrap_or, string_bytes};
ghost use Rattle.hj_base.specs.Counts.{one_more};
ghost use Rattle.hj_base.specs.Outside.{IsOpen, Starts, Reads};
ghost use Rattle.hj_base.specs.MemOutside.{new_stream, AnswersStart, after_start, read_answer, AnswersRead, after_read, filled};
ghost use Rattle.hj_base.specs.Stream.{phase_of, left_of, begun_phase};
ghost use Rattle.hj_base.specs.Unread.{OpenState};

use crate::{Got, Memory, Opened};
use std::alloc::Global;
use std::marker::Model;

/// A copy of the bytes of a stream that is open, some of which were read.
#[derive(Debug, Drop)]
struct Unread {
    name: String,
    bytes: Vec<u8>,
    taken: usize,
    ended: bool,
}

impl Model for Unread {
    ghost use Rattle.std.specs.Prelude.{◌≤◌, drop, vec_len, string_bytes};
    ghost use Rattle.hj_base.specs.Unread.{OpenState};

    ghost Value = { OpenState };

    ghost view = { λ u. record { name = string_bytes u.name; ended = u.ended; left = drop u.taken u.bytes.items } };

    ghost invariant = { λ u. u.taken ≤ vec_len u.bytes };
}

impl Unread {
    fn new(alloc: Global, name: String, bytes: &[u8]) -> Result<Unread, Memory>
        ensures { IfOk result (λ unread. unread ≡ record { name = string_bytes name; ended = false; left = bytes.now }) }
    {
        Ok(Unread {
            name,
            bytes: Vec::from_slice(alloc, bytes)?,
            taken: 0,
            ended: false,
        })
    }

    fn read(&mut self, chunk: usize, buf: &mut [u8]) -> Got
        ensures answer { result ≡ read_answer chunk (length buf.old) self.old.left }
        ensures ended { result ≡ Got.End → self.new ≡ record self.old { ended = true } }
        ensures left { (m : ℕ) → result ≡ Got.Bytes m → self.new ≡ record self.old { left = drop m self.old.left } }
        ensures filled { buf.new ≡ filled result self.old.left buf.old }
    {
        let left = &self.bytes[self.taken..];
        if left.is_empty() {
            self.ended = true;
            return Got::End;
        }
        let count = chunk.min(buf.len().min(left.len()));
        buf[..count].copy_from_slice(&left[..count]);
        self.taken += count;
        Got::Bytes(count)
    }
}

/// How far a stream has come.
#[derive(Debug, Drop)]
enum Stage {
    Unbegun,
    Opened(Unread),
    Refused(String),
}

impl Stage {
    fn begun(alloc: Global, name: &str, found: Option<&[u8]>) -> Result<Stage, Memory>
        ensures phase { IfOk result (λ stage. phase_of stage ≡ begun_phase name.now (option_copied found.entry)) }
        ensures left { IfOk result (λ stage. left_of stage ≡ option_copied found.entry) }
    {
        let name = String::from_str(alloc, name)?;
        match found {
            Some(bytes) => Ok(Stage::Opened(Unread::new(alloc, name, bytes)?)),
            None => Ok(Stage::Refused(name)),
        }
    }
}

/// A stream that is read from a copy of its bytes, and fails at the listed start and reads.
#[derive(Debug, Drop)]
pub struct Stream {
    stage: Stage,
    faults: u64,
    start_fails: bool,
    reads: u64,
    failing: Vec<u64>,
}

impl Model for Stream {
    ghost use Rattle.hj_base.specs.MemOutside.{StreamState};

    ghost Value = { StreamState };

    ghost use Rattle.hj_base.specs.Stream.{phase_of, left_of};

    ghost view = { λ s. record {
      role = record { phase = phase_of s.stage; faults = s.faults; left = left_of s.stage };
      start_fails = s.start_fails;
      reads = s.reads;
      failing = s.failing.items;
    } };
}

impl Stream {
    /// Makes a stream that isn't begun and never fails.
    pub fn new(alloc: Global) -> Stream
        ensures { result ≡ new_stream }
    {
        Stream {
            stage: Stage::Unbegun,
            faults: 0,
            start_fails: false,
            reads: 0,
            failing: Vec::new(alloc),
        }
    }

    /// Makes the start fail.
    pub fn fail_start(&mut self)
        ensures { self.new ≡ record self.old { start_fails = true } }
    {
        self.start_fails = true;
    }

    /// Makes the `nth` read fail, counted from 1.
    pub fn fail_read(&mut self, nth: u64) -> Result<(), Memory>
        ensures listed { OnOk result (self.new ≡ record self.old { failing = self.old.failing ++ nth ∷ [] }) }
        ensures refused { OnErr result (self.new ≡ self.old) }
    {
        self.failing.push(nth)?;
        Ok(())
    }

    /// Begins the stream under a name with a copy of what was found there.
    pub fn start(&mut self, alloc: Global, name: &str, found: Option<&[u8]>) -> Opened
        ensures starts { Starts result name.now (Some (unwrap_or (option_copied found.entry) [])) self.old.role self.new.role }
        ensures answer { AnswersStart result self.old.start_fails (option_copied found.entry) }
        ensures after { self.new ≡ after_start result name.now (option_copied found.entry) self.old }
    {
        let found = if self.start_fails { None } else { found };
        let Ok(stage) = Stage::begun(alloc, name, found) else {
            return Opened::Memory;
        };
        self.stage = stage;
        if found.is_some() {
            Opened::Ready
        } else {
            self.count_fault();
            Opened::Failed
        }
    }

    /// Reads at most a chunk of what is left into the start of a buffer, unless this read fails.
    pub fn read(&mut self, chunk: usize, buf: &mut [u8]) -> Got
        requires open { IsOpen self.old.role.phase }
        requires chunk { 1 ≤ chunk }
        requires room { 0 < length buf.old }
        ensures reads { Reads result buf.new self.old.role self.new.role }
        ensures answer { IsSomeAnd self.old.role.left (λ bytes. AnswersRead result chunk (length buf.old) bytes self.old) }
        ensures after { self.new ≡ after_read result self.old }
        ensures filled { IsSomeAnd self.old.role.left (λ bytes. buf.new ≡ filled result bytes buf.old) }
    {
        self.reads = self.reads.saturating_add(1);
        if self.failing.contains(&self.reads) {
            self.count_fault();
            return Got::Failed;
        }
        match &mut self.stage {
            Stage::Opened(unread) => unread.read(chunk, buf),
            Stage::Unbegun | Stage::Refused(_) => unreachable!(),
        }
    }

    fn count_fault(&mut self)
        ensures after { self.new ≡ record self.old { role = record self.old.role { faults = one_more self.old.role.faults } } }
        ensures later { self.old.role.faults ≤ self.new.role.faults }
    {
        self.faults = self.faults.saturating_add(1);
    }
}
