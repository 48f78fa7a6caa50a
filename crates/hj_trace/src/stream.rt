ghost use Rattle.std.specs.Prelude.{◌≡◌, ◌<◌, ◌∷◌, ◌++◌, [], true, false, None, Some, IfSome, length, drop, slice_get};
ghost use Rattle.hj_trace.specs.Actors.{IsNumbered, actor_text};
ghost use Rattle.hj_base.specs.Outside.{ChangesOnly, NamesStay};
ghost use Rattle.hj_trace.specs.Stream.{Compares, GoesWithRole, IsActorOf, ReadsActor, StandsNext, Uses, look_failed};

use crate::actors::{MOST_IN_ACTOR, read_actor};
use hj_base::{Got, Outside, Role};
use hj_chain::Actor;
use std::marker::Model;

/// How many bytes one read asks for.
const MOST_IN_READ: usize = 4_096;

/// What stands next in a stream.
#[derive(Clone, Copy, Debug, PartialEq, Eq)]
pub enum NextByte {
    Byte(u8),
    /// Nothing is left.
    End,
    /// A read failed.
    Failed,
}

/// How bytes compare with those of a stream.
#[derive(Clone, Copy, Debug, PartialEq, Eq)]
pub enum Compared {
    Same,
    /// So many bytes are the same; then the stream has another one, or has ended.
    Differs(usize),
    /// A read failed.
    Failed,
}

/// What a stream goes on with where an actor's text and a comma may stand.
#[derive(Clone, Copy, Debug, PartialEq, Eq)]
pub enum ActorFound {
    Actor(Actor),
    /// Something else.
    Other,
    /// A read failed.
    Failed,
}

/// A stream that is read in portions and used byte by byte, so that it is never held whole.
#[derive(Drop)]
pub struct TextStream {
    role: Role,
    /// What the last read gave: of its first `filled` bytes the first `used` were used.
    portion: [u8; MOST_IN_READ],
    used: usize,
    filled: usize,
    /// A read answered the end.
    ended: bool,
}

impl Model for TextStream {
    ghost use Rattle.std.specs.Prelude.{◌≤◌, drop, take, length};
    ghost use Rattle.hj_trace.specs.Stream.{TextStreamState};

    ghost Value = { TextStreamState };

    ghost view = { λ s. record { role = s.role; unused = drop s.used (take s.filled s.portion); ended = s.ended } };

    ghost invariant = { λ s. (s.used ≤ s.filled) × (s.filled ≤ length s.portion) };
}

impl TextStream {
    /// Makes the stream of a role of which nothing was read.
    pub fn new(role: Role) -> Self
        ensures { result ≡ record { role = role; unused = []; ended = false } }
    {
        TextStream {
            role,
            portion: [0; MOST_IN_READ],
            used: 0,
            filled: 0,
            ended: false,
        }
    }

    /// Returns what stands next, and reads on where no byte waits. It uses nothing.
    #[inline(always)]
    pub fn look<O: Outside>(&mut self, outside: &mut O) -> NextByte
        requires { GoesWithRole self.old (O.state outside.old self.old.role) }
        ensures looks { Uses (look_failed result) [] self.old (O.state outside.old self.old.role) self.new (O.state outside.new self.old.role) }
        ensures next { StandsNext result self.new }
        ensures others { ChangesOnly self.old.role (O.state outside.old) (O.state outside.new) }
        ensures names { NamesStay (O.under outside.old) (O.under outside.new) }
    {
        if self.used < self.filled {
            return NextByte::Byte(self.portion[self.used]);
        }
        if self.ended {
            return NextByte::End;
        }
        self.look_further(outside)
    }

    /// Reads on where no byte waits and the end wasn't answered, and returns what stands next.
    fn look_further<O: Outside>(&mut self, outside: &mut O) -> NextByte
        requires goes { GoesWithRole self.old (O.state outside.old self.old.role) }
        requires going { self.old.ended ≡ false }
        requires none_waits { self.old.unused ≡ [] }
        ensures looks { Uses (look_failed result) [] self.old (O.state outside.old self.old.role) self.new (O.state outside.new self.old.role) }
        ensures next { StandsNext result self.new }
        ensures others { ChangesOnly self.old.role (O.state outside.old) (O.state outside.new) }
        ensures names { NamesStay (O.under outside.old) (O.under outside.new) }
    {
        match outside.read(self.role, &mut self.portion) {
            Got::Bytes(count) => {
                self.used = 0;
                self.filled = count;
                NextByte::Byte(self.portion[0])
            }
            Got::End => {
                self.used = 0;
                self.filled = 0;
                self.ended = true;
                NextByte::End
            }
            Got::Failed => {
                self.used = 0;
                self.filled = 0;
                NextByte::Failed
            }
        }
    }

    /// Uses the byte that stands next.
    #[inline(always)]
    pub fn skip(&mut self)
        requires { 0 < length self.old.unused }
        ensures { self.new ≡ record self.old { unused = drop 1 self.old.unused } }
    {
        self.used += 1;
    }

    /// Compares bytes with those that stand next, up to the first that differs, and uses those that are the same.
    pub fn compare<O: Outside>(&mut self, expected: &[u8], outside: &mut O) -> Compared
        requires { GoesWithRole self.old (O.state outside.old self.old.role) }
        ensures compares { Compares result expected.now self.old (O.state outside.old self.old.role) self.new (O.state outside.new self.old.role) }
        ensures others { ChangesOnly self.old.role (O.state outside.old) (O.state outside.new) }
        ensures names { NamesStay (O.under outside.old) (O.under outside.new) }
    {
        // Mostly all of them wait.
        if self.use_waiting(expected) {
            return Compared::Same;
        }
        self.compare_each(expected, outside)
    }

    /// Uses bytes where all of them wait, and tells whether they do.
    fn use_waiting(&mut self, expected: &[u8]) -> bool
        ensures waits { result ≡ true → self.old.unused ≡ expected.now ++ drop (length expected.now) self.old.unused }
        ensures used { result ≡ true → self.new ≡ record self.old { unused = drop (length expected.now) self.old.unused } }
        ensures kept { result ≡ false → self.new ≡ self.old }
    {
        if self.portion[self.used..self.filled].starts_with(expected) {
            self.used += expected.len();
            return true;
        }
        false
    }

    /// Does what `compare` does, byte by byte.
    fn compare_each<O: Outside>(&mut self, expected: &[u8], outside: &mut O) -> Compared
        requires { GoesWithRole self.old (O.state outside.old self.old.role) }
        ensures compares { Compares result expected.now self.old (O.state outside.old self.old.role) self.new (O.state outside.new self.old.role) }
        ensures others { ChangesOnly self.old.role (O.state outside.old) (O.state outside.new) }
        ensures names { NamesStay (O.under outside.old) (O.under outside.new) }
    {
        for (at, byte) in expected.iter().enumerate() {
            match self.look(outside) {
                NextByte::Byte(found) => {
                    if found != *byte {
                        return Compared::Differs(at);
                    }
                    self.skip();
                }
                NextByte::End => return Compared::Differs(at),
                NextByte::Failed => return Compared::Failed,
            }
        }
        Compared::Same
    }

    /// Reads the text of an actor and the comma behind it, and uses them. It uses one byte more at most than the longest text has.
    pub fn actor<O: Outside>(&mut self, outside: &mut O) -> ActorFound
        requires { GoesWithRole self.old (O.state outside.old self.old.role) }
        ensures reads { ReadsActor result self.old (O.state outside.old self.old.role) self.new (O.state outside.new self.old.role) }
        ensures others { ChangesOnly self.old.role (O.state outside.old) (O.state outside.new) }
        ensures names { NamesStay (O.under outside.old) (O.under outside.new) }
    {
        // Mostly all of it waits.
        if let Some(actor) = self.use_waiting_actor() {
            return ActorFound::Actor(actor);
        }
        self.actor_by_bytes(outside)
    }

    /// Uses the text of an actor and the comma behind it, where both wait.
    fn use_waiting_actor(&mut self) -> Option<Actor>
        ensures found { IfSome result (λ actor. IsNumbered actor × (self.old.unused ≡ actor_text actor ++ 44 ∷ self.new.unused)) }
        ensures role { self.new.role ≡ self.old.role }
        ensures ended { self.new.ended ≡ self.old.ended }
        ensures kept { result ≡ None → self.new ≡ self.old }
    {
        let waiting = &self.portion[self.used..self.filled];
        let length = first_comma(waiting)?;
        let actor = read_actor(&waiting[..length])?;
        self.used += length + 1;
        Some(actor)
    }

    /// Does what `actor` does, byte by byte.
    fn actor_by_bytes<O: Outside>(&mut self, outside: &mut O) -> ActorFound
        requires { GoesWithRole self.old (O.state outside.old self.old.role) }
        ensures reads { ReadsActor result self.old (O.state outside.old self.old.role) self.new (O.state outside.new self.old.role) }
        ensures others { ChangesOnly self.old.role (O.state outside.old) (O.state outside.new) }
        ensures names { NamesStay (O.under outside.old) (O.under outside.new) }
    {
        let mut text = [0; MOST_IN_ACTOR + 1];
        for length in 0..MOST_IN_ACTOR + 1 {
            let byte = match self.look(outside) {
                NextByte::Byte(byte) => byte,
                NextByte::End => return ActorFound::Other,
                NextByte::Failed => return ActorFound::Failed,
            };
            self.skip();
            if byte == b',' {
                return actor_of(&text[..length]);
            }
            text[length] = byte;
        }
        ActorFound::Other
    }
}

/// Returns the actor whose text this is, if it is one.
fn actor_of(text: &[u8]) -> ActorFound
    ensures { IsActorOf result text.now }
{
    match read_actor(text) {
        Some(actor) => ActorFound::Actor(actor),
        None => ActorFound::Other,
    }
}

/// Returns where a comma stands first, if there is one.
fn first_comma(bytes: &[u8]) -> Option<usize>
    ensures { IfSome result (λ at. slice_get bytes.now at ≡ Some 44) }
{
    for (at, byte) in bytes.iter().enumerate() {
        if *byte == b',' {
            return Some(at);
        }
    }
    None
}
