ghost use Rattle.std.specs.Prelude.{◌<◌, List, ℕ, length};
ghost use Rattle.std.specs.declared.option.Option.{Option};
ghost use Rattle.hj_base.specs.Sink.{Writes, CountsFault, CountsRefusal};

/// The answer to a write: how many bytes of the piece were taken.
#[derive(Clone, Copy, Debug, PartialEq, Eq)]
pub enum Put {
    Wrote(usize),
    Failed,
    Memory,
}

/// Where bytes go. It only appends.
pub trait Sink {
    /// The bytes written so far, if the object tells them.
    ghost told: { Self → Option (List ℕ) };

    /// How often a write failed.
    ghost faults: { Self → ℕ };

    /// How often a write was refused, for a fault or because memory ran out.
    ghost refusals: { Self → ℕ };

    /// Appends a prefix of the piece, at least one byte, or nothing.
    fn write(&mut self, piece: &[u8]) -> Put
        requires { 0 < length piece.now }
        ensures writes { Writes result piece.now (told self.old) (told self.new) }
        ensures faults { CountsFault result (faults self.old) (faults self.new) }
        ensures refusals { CountsRefusal result (refusals self.old) (refusals self.new) };
}
