ghost use Rattle.std.specs.Prelude.{◌≡◌, ◌≢◌, ◌≤◌, ◌<◌, ◌-◌, ◌^◌, ◌∷◌, ◌++◌, true, ℕ, List, [], length, OnOk, OnErr, IfOk, IsSomeAnd, Some, option_copied, position, bytes_eq};
ghost use Rattle.hj_base.specs.Outside.{unbegun, IsOpen, Starts, Reads, ChangesOnly};
ghost use Rattle.hj_base.specs.MemOutside.{lookup, told_under, role_at, stream_at, with_stream, new_stream, AnswersStart, after_start, AnswersRead, after_read, filled};

use crate::stream::Stream;
use crate::{Got, Memory, Opened, Outside, Role};
use std::alloc::Global;
use std::marker::Model;

/// What stands under a name.
#[derive(Debug, Drop)]
struct Content {
    name: String,
    bytes: Vec<u8>,
}

impl Model for Content {
    ghost use Rattle.std.specs.Prelude.{ℕ, List, string_bytes};

    ghost Value = { List ℕ × List ℕ };

    ghost view = { λ c. (string_bytes c.name, c.bytes.items) };
}

impl Content {
    fn new(alloc: Global, name: &str, bytes: &[u8]) -> Result<Content, Memory>
        ensures { IfOk result (λ content. content ≡ (name.now, bytes.now)) }
    {
        Ok(Content {
            name: String::from_str(alloc, name)?,
            bytes: Vec::from_slice(alloc, bytes)?,
        })
    }
}

/// Streams whose bytes are in memory, each under a name. The start of a missing name fails, and so do the starts and
/// reads that were listed; nothing else does.
#[derive(Debug, Drop)]
pub struct MemOutside {
    alloc: Global,
    chunk: usize,
    contents: Vec<Content>,
    query: Stream,
    second_query: Stream,
    left: Stream,
    right: Stream,
    third: Stream,
    trace: Stream,
    output: Stream,
}

impl Model for MemOutside {
    ghost use Rattle.std.specs.Prelude.{◌≤◌};
    ghost use Rattle.hj_base.specs.MemOutside.{OutsideState};

    ghost Value = { OutsideState };

    ghost view = { λ o. record { chunk = o.chunk; contents = o.contents.items; query = o.query; second_query = o.second_query; left = o.left; right = o.right; third = o.third; trace = o.trace; output = o.output } };

    ghost invariant = { λ o. 1 ≤ o.chunk };
}

impl MemOutside {
    /// Makes an outside with no names, of which one read gives at most `chunk` bytes.
    pub fn new(alloc: Global, chunk: usize) -> MemOutside
        requires { 1 ≤ chunk }
        ensures { result ≡ record { chunk = chunk; contents = []; query = new_stream; second_query = new_stream; left = new_stream; right = new_stream; third = new_stream; trace = new_stream; output = new_stream } }
    {
        MemOutside {
            alloc,
            chunk,
            contents: Vec::new(alloc),
            query: Stream::new(alloc),
            second_query: Stream::new(alloc),
            left: Stream::new(alloc),
            right: Stream::new(alloc),
            third: Stream::new(alloc),
            trace: Stream::new(alloc),
            output: Stream::new(alloc),
        }
    }

    /// Puts bytes under a name, in place of what stood there. A stream that has begun keeps the bytes it began with.
    #[tactic(auto, using(crate::proofs::Lookups::lookup_set_same, crate::proofs::Lookups::lookup_set_other, crate::proofs::Lookups::lookup_push_same, crate::proofs::Lookups::lookup_push_other))]
    pub fn add(&mut self, name: &str, bytes: &[u8]) -> Result<(), Memory>
        ensures added { OnOk result (lookup self.new.contents name.now ≡ Some bytes.now) }
        ensures others { (other : List ℕ) → other ≢ name.now → lookup self.new.contents other ≡ lookup self.old.contents other }
        ensures streams { self.new ≡ record self.old { contents = self.new.contents } }
        ensures refused { OnErr result (self.new ≡ self.old) }
    {
        let content = Content::new(self.alloc, name, bytes)?;
        match position(&self.contents, name) {
            Some(index) => self.contents[index] = content,
            None => self.contents.push(content)?,
        }
        Ok(())
    }
}

impl MemOutside {
    /// Makes the start of a role fail. An error changes nothing.
    pub fn fail_start(&mut self, role: Role) -> Result<(), Memory>
        ensures listed { OnOk result (self.new ≡ with_stream self.old role (record (stream_at self.old role) { start_fails = true })) }
        ensures refused { OnErr result (self.new ≡ self.old) }
    {
        match role {
            Role::Query => self.query.fail_start(),
            Role::SecondQuery => self.second_query.fail_start(),
            Role::Left => self.left.fail_start(),
            Role::Right => self.right.fail_start(),
            Role::Third => self.third.fail_start(),
            Role::Trace => self.trace.fail_start(),
            Role::Output => self.output.fail_start(),
        }
        Ok(())
    }

    /// Makes the `nth` read of a role fail, counted from 1 over all its reads. An error changes nothing.
    pub fn fail_read(&mut self, role: Role, nth: u64) -> Result<(), Memory>
        requires first { 1 ≤ nth }
        requires last { nth ≤ 2 ^ 64 - 2 }
        ensures listed { OnOk result (self.new ≡ with_stream self.old role (record (stream_at self.old role) { failing = (stream_at self.old role).failing ++ nth ∷ [] })) }
        ensures refused { OnErr result (self.new ≡ self.old) }
    {
        match role {
            Role::Query => self.query.fail_read(nth),
            Role::SecondQuery => self.second_query.fail_read(nth),
            Role::Left => self.left.fail_read(nth),
            Role::Right => self.right.fail_read(nth),
            Role::Third => self.third.fail_read(nth),
            Role::Trace => self.trace.fail_read(nth),
            Role::Output => self.output.fail_read(nth),
        }
    }
}

impl Outside for MemOutside {
    ghost state = { role_at };

    ghost under = { told_under };

    fn start(&mut self, role: Role, name: &str) -> Opened
        requires { (role_at self.old role).phase ≡ unbegun }
        ensures starts { Starts result name.now (told_under self.old name.now) (role_at self.old role) (role_at self.new role) }
        ensures others { ChangesOnly role (role_at self.old) (role_at self.new) }
        ensures names { (other : List ℕ) → told_under self.new other ≡ told_under self.old other }
        ensures answer { AnswersStart result (stream_at self.old role).start_fails (lookup self.old.contents name.now) }
        ensures after { self.new ≡ with_stream self.old role (after_start result name.now (lookup self.old.contents name.now) (stream_at self.old role)) }
    {
        let found = find(&self.contents, name);
        match role {
            Role::Query => self.query.start(self.alloc, name, found),
            Role::SecondQuery => self.second_query.start(self.alloc, name, found),
            Role::Left => self.left.start(self.alloc, name, found),
            Role::Right => self.right.start(self.alloc, name, found),
            Role::Third => self.third.start(self.alloc, name, found),
            Role::Trace => self.trace.start(self.alloc, name, found),
            Role::Output => self.output.start(self.alloc, name, found),
        }
    }

    fn read(&mut self, role: Role, buf: &mut [u8]) -> Got
        requires open { IsOpen (role_at self.old role).phase }
        requires room { 0 < length buf.old }
        ensures reads { Reads result buf.new (role_at self.old role) (role_at self.new role) }
        ensures others { ChangesOnly role (role_at self.old) (role_at self.new) }
        ensures names { (other : List ℕ) → told_under self.new other ≡ told_under self.old other }
        ensures answer { IsSomeAnd (role_at self.old role).left (λ bytes. AnswersRead result self.old.chunk (length buf.old) bytes (stream_at self.old role)) }
        ensures after { self.new ≡ with_stream self.old role (after_read result (stream_at self.old role)) }
        ensures filled { IsSomeAnd (role_at self.old role).left (λ bytes. buf.new ≡ filled result bytes buf.old) }
    {
        match role {
            Role::Query => self.query.read(self.chunk, buf),
            Role::SecondQuery => self.second_query.read(self.chunk, buf),
            Role::Left => self.left.read(self.chunk, buf),
            Role::Right => self.right.read(self.chunk, buf),
            Role::Third => self.third.read(self.chunk, buf),
            Role::Trace => self.trace.read(self.chunk, buf),
            Role::Output => self.output.read(self.chunk, buf),
        }
    }
}

fn find<'a>(contents: &'a [Content], name: &str) -> Option<&'a [u8]>
    ensures { option_copied result ≡ lookup contents.now name.now }
{
    contents
        .iter()
        .find(|content| content.name.as_str() == name)
        .map(|content| content.bytes.as_slice())
}

fn position(contents: &[Content], name: &str) -> Option<usize>
    ensures { result ≡ position (λ content. bytes_eq content.0 name.now) contents.now }
{
    contents
        .iter()
        .position(|content| content.name.as_str() == name)
}
