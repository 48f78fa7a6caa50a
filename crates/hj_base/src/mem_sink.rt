ghost use Rattle.std.specs.Prelude.{◌≡◌, ◌≤◌, ◌<◌, ◌-◌, ◌^◌, ◌↔◌, ◌∷◌, ◌++◌, [], length, OnErr, OnOk, Some};
ghost use Rattle.hj_base.specs.Sink.{Writes, CountsFault, CountsRefusal};
ghost use Rattle.hj_base.specs.MemSink.{IsFailing, TakesAll, after_write};

use crate::{Memory, Put, Sink};
use std::alloc::Global;
use std::marker::Model;

/// A sink that keeps its bytes in memory, takes at most a chunk of them per write, and fails at the listed writes.
#[derive(Debug, Drop)]
pub struct MemSink {
    bytes: Vec<u8>,
    chunk: usize,
    writes: u64,
    failing: Vec<u64>,
    faults: u64,
    refusals: u64,
}

impl Model for MemSink {
    ghost use Rattle.std.specs.Prelude.{◌≤◌};
    ghost use Rattle.hj_base.specs.MemSink.{SinkState};

    ghost Value = { SinkState };

    ghost view = { λ s. record { bytes = s.bytes.items; chunk = s.chunk; writes = s.writes; failing = s.failing.items; faults = s.faults; refusals = s.refusals } };

    ghost invariant = { λ s. 1 ≤ s.chunk };
}

impl MemSink {
    /// Makes an empty sink that takes at most `chunk` bytes per write.
    pub fn new(alloc: Global, chunk: usize) -> MemSink
        requires { 1 ≤ chunk }
        ensures { result ≡ record { bytes = []; chunk = chunk; writes = 0; failing = []; faults = 0; refusals = 0 } }
    {
        MemSink {
            bytes: Vec::new(alloc),
            chunk,
            writes: 0,
            failing: Vec::new(alloc),
            faults: 0,
            refusals: 0,
        }
    }

    /// Makes the `nth` write fail, counted from 1 over all writes except those refused because memory ran out.
    pub fn fail_write(&mut self, nth: u64) -> Result<(), Memory>
        requires first { 1 ≤ nth }
        requires last { nth ≤ 2 ^ 64 - 2 }
        ensures listed { OnOk result (self.new ≡ record self.old { failing = self.old.failing ++ nth ∷ [] }) }
        ensures refused { OnErr result (self.new ≡ self.old) }
    {
        self.failing.push(nth)?;
        Ok(())
    }

    /// Returns the bytes written so far.
    pub fn bytes(&self) -> &[u8]
        ensures { result.now ≡ self.now.bytes }
    {
        &self.bytes
    }
}

impl Sink for MemSink {
    ghost told = { λ s. Some s.bytes };

    ghost faults = { λ s. s.faults };

    ghost refusals = { λ s. s.refusals };

    fn write(&mut self, piece: &[u8]) -> Put
        requires { 0 < length piece.now }
        ensures writes { Writes result piece.now (Some self.old.bytes) (Some self.new.bytes) }
        ensures faults { CountsFault result self.old.faults self.new.faults }
        ensures refusals { CountsRefusal result self.old.refusals self.new.refusals }
        ensures failing { (result ≡ Put.Failed) ↔ IsFailing self.old }
        ensures all { TakesAll result self.old.chunk piece.now }
        ensures after { self.new ≡ after_write result piece.now self.old }
    {
        let call = self.writes.saturating_add(1);
        if self.failing.contains(&call) {
            self.writes = call;
            self.faults = self.faults.saturating_add(1);
            self.refusals = self.refusals.saturating_add(1);
            return Put::Failed;
        }
        let count = piece.len().min(self.chunk);
        match self.bytes.extend_from_slice(&piece[..count]) {
            Ok(()) => {
                self.writes = call;
                Put::Wrote(count)
            }
            Err(_) => {
                self.refusals = self.refusals.saturating_add(1);
                Put::Memory
            }
        }
    }
}
