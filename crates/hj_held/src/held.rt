ghost use Rattle.std.specs.Prelude.{◌≡◌, ◌<◌, List, ℕ, [], false, length, None, Some};
ghost use Rattle.hj_base.specs.Outside.{unbegun, IsOpen, Starts, Reads, ChangesOnly};
ghost use Rattle.hj_base.specs.Sink.{Writes, CountsFault, CountsRefusal};
ghost use Rattle.hj_held.specs.Held.{held_role, open_role};

use hj_base::{Bytes, Got, Opened, Outside, Put, Role, Sink};
use std::alloc::Global;
use std::marker::Model;

/// A stream in memory, open from the start, of which some bytes were read. No read of it fails.
#[derive(Debug, Drop)]
pub struct HeldStream {
    bytes: Bytes,
    taken: usize,
    ended: bool,
}

impl Model for HeldStream {
    ghost use Rattle.std.specs.Prelude.{◌≤◌, drop, length};
    ghost use Rattle.hj_held.specs.Held.{HeldState};

    ghost Value = { HeldState };

    ghost view = { λ s. record { rest = drop s.taken s.bytes; ended = s.ended } };

    ghost invariant = { λ s. s.taken ≤ length s.bytes };
}

impl HeldStream {
    /// Makes the stream of these bytes, of which nothing was read.
    pub fn new(bytes: Bytes) -> HeldStream
        ensures { result ≡ record { rest = bytes; ended = false } }
    {
        HeldStream {
            bytes,
            taken: 0,
            ended: false,
        }
    }

    /// Reads as many of the next bytes as fit the buffer, or answers their end.
    pub fn read(&mut self, buf: &mut [u8]) -> Got
        requires { 0 < length buf.old }
        ensures { Reads result buf.new (open_role self.old) (open_role self.new) }
    {
        let rest = &self.bytes.bytes()[self.taken..];
        if rest.is_empty() {
            self.ended = true;
            return Got::End;
        }
        let count = buf.len().min(rest.len());
        buf[..count].copy_from_slice(&rest[..count]);
        self.taken += count;
        Got::Bytes(count)
    }
}

/// Two streams in memory, both open from the start. No read of them fails. There is no other role.
#[derive(Debug, Drop)]
pub struct HeldStreams {
    left: HeldStream,
    right: HeldStream,
}

impl Model for HeldStreams {
    ghost use Rattle.hj_held.specs.Held.{TwoHeld};

    ghost Value = { TwoHeld };

    ghost view = { λ s. record { left = s.left; right = s.right } };
}

impl HeldStreams {
    /// Makes the streams of these bytes, of which nothing was read.
    pub fn new(left: Bytes, right: Bytes) -> HeldStreams
        ensures { result ≡ record { left = record { rest = left; ended = false }; right = record { rest = right; ended = false } } }
    {
        HeldStreams {
            left: HeldStream::new(left),
            right: HeldStream::new(right),
        }
    }
}

impl Outside for HeldStreams {
    ghost state = { held_role };

    ghost under = { λ _ _. None };

    fn start(&mut self, role: Role, _name: &str) -> Opened {
        match role {
            Role::Left | Role::Right => unreachable!(),
            // There is room for no other.
            _ => Opened::Memory,
        }
    }

    fn read(&mut self, role: Role, buf: &mut [u8]) -> Got {
        match role {
            Role::Left => self.left.read(buf),
            Role::Right => self.right.read(buf),
            _ => unreachable!(),
        }
    }
}

/// A sink that keeps its bytes in memory. No write fails, but memory may run out.
#[derive(Debug, Drop)]
pub struct KeptText {
    text: Vec<u8>,
    refusals: u64,
}

impl Model for KeptText {
    ghost use Rattle.hj_held.specs.Held.{KeptState};

    ghost Value = { KeptState };

    ghost view = { λ s. record { text = s.text.items; refusals = s.refusals } };
}

impl KeptText {
    /// Makes a sink that holds no bytes.
    pub fn new(alloc: Global) -> KeptText
        ensures { result ≡ record { text = []; refusals = 0 } }
    {
        KeptText {
            text: Vec::new(alloc),
            refusals: 0,
        }
    }

    /// Lends all bytes that were written, in their order.
    pub fn bytes(&self) -> &[u8]
        ensures { result.now ≡ self.now.text }
    {
        &self.text
    }

    /// Gives up all bytes that were written, in their order.
    pub fn into_bytes(self) -> Bytes
        ensures { result ≡ self.text }
    {
        Bytes::from_vec(self.text)
    }
}

impl Sink for KeptText {
    ghost told = { λ s. Some s.text };

    ghost faults = { λ _. 0 };

    ghost refusals = { λ s. s.refusals };

    fn write(&mut self, piece: &[u8]) -> Put {
        match self.text.extend_from_slice(piece) {
            Ok(()) => Put::Wrote(piece.len()),
            Err(_) => {
                self.refusals = self.refusals.saturating_add(1);
                Put::Memory
            }
        }
    }
}
