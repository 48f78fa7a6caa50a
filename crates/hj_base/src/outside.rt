ghost use Rattle.std.specs.Prelude.{◌≡◌, ◌<◌, List, ℕ, length};
ghost use Rattle.std.specs.declared.option.Option.{Option};
ghost use Rattle.hj_base.specs.Outside.{Phase, unbegun, RoleState, IsOpen, Starts, Reads, ChangesOnly};

/// What a stream is read for.
#[derive(Clone, Copy, Debug, PartialEq, Eq, PartialOrd, Ord, Hash)]
pub enum Role {
    Query,
    /// The query of a second join, over the pairs of the first.
    SecondQuery,
    Left,
    Right,
    /// The right stream of a second join.
    Third,
    /// A trace that is to be checked.
    Trace,
    /// An output that is to be checked.
    Output,
}

/// The answer to a start.
#[derive(Clone, Copy, Debug, PartialEq, Eq)]
pub enum Opened {
    Ready,
    Failed,
    Memory,
}

/// The answer to a read: how many bytes came, or the end of them.
#[derive(Clone, Copy, Debug, PartialEq, Eq)]
pub enum Got {
    Bytes(usize),
    End,
    Failed,
}

/// Where streams come from. Each role is begun at most once, under a name, and is read to its end in portions.
pub trait Outside {
    ghost use Rattle.hj_base.specs.declared.outside.Role.{Role};

    /// The state of each role.
    ghost state: { Self → Role → RoleState };

    /// The bytes under a name, if the object tells them.
    ghost under: { Self → List ℕ → Option (List ℕ) };

    /// Opens the stream of a role under a name.
    fn start(&mut self, role: Role, name: &str) -> Opened
        requires { (state self.old role).phase ≡ unbegun }
        ensures starts { Starts result name.now (under self.old name.now) (state self.old role) (state self.new role) }
        ensures others { ChangesOnly role (state self.old) (state self.new) }
        ensures names { (other : List ℕ) → under self.new other ≡ under self.old other };

    /// Reads the next bytes of an open role into the start of a buffer.
    fn read(&mut self, role: Role, buf: &mut [u8]) -> Got
        requires open { IsOpen (state self.old role).phase }
        requires room { 0 < length buf.old }
        ensures reads { Reads result buf.new (state self.old role) (state self.new role) }
        ensures others { ChangesOnly role (state self.old) (state self.new) }
        ensures names { (other : List ℕ) → under self.new other ≡ under self.old other };
}
