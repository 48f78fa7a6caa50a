ghost use Rattle.std.specs.Prelude.{◌≡◌, ◌≢◌, ◌<◌, length, string_bytes};
ghost use Rattle.hj_base.specs.Outside.{IsOpen};

use crate::role_stream::RoleStream;
use hj_base::{Got, Opened, Role};
use std::io::Read;

/// The streams of all roles.
#[derive(Drop)]
pub struct RoleStreams<S: Read + Drop> {
    query: RoleStream<S>,
    second_query: RoleStream<S>,
    left: RoleStream<S>,
    right: RoleStream<S>,
    third: RoleStream<S>,
    trace: RoleStream<S>,
    output: RoleStream<S>,
}

impl<S: Read + Drop> RoleStreams<S> {
    ghost use Rattle.hj_base.specs.declared.outside.Role.{Role};
    ghost use Rattle.hj_base.specs.Outside.{new_role};
    ghost use Rattle.hj_net.specs.RoleStream.{role_of, Begins, ReadsOn};
    ghost use Rattle.hj_net.specs.RoleStreams.{stream_at};

    /// Makes roles of which none is begun.
    pub fn new() -> RoleStreams<S>
        ensures { (role : Role) → role_of (stream_at result role) ≡ new_role }
    {
        RoleStreams {
            query: RoleStream::new(),
            second_query: RoleStream::new(),
            left: RoleStream::new(),
            right: RoleStream::new(),
            third: RoleStream::new(),
            trace: RoleStream::new(),
            output: RoleStream::new(),
        }
    }

    /// Begins a role under a name with the stream that was opened for it, if one was.
    pub fn begin(&mut self, role: Role, name: String, opened: Option<S>) -> Opened
        ensures begins { Begins result (string_bytes name) opened (stream_at self.old role) (stream_at self.new role) }
        ensures others { (other : Role) → other ≢ role → stream_at self.new other ≡ stream_at self.old other }
    {
        match role {
            Role::Query => self.query.begin(name, opened),
            Role::SecondQuery => self.second_query.begin(name, opened),
            Role::Left => self.left.begin(name, opened),
            Role::Right => self.right.begin(name, opened),
            Role::Third => self.third.begin(name, opened),
            Role::Trace => self.trace.begin(name, opened),
            Role::Output => self.output.begin(name, opened),
        }
    }

    /// Reads the next bytes of the stream of a role into the start of a buffer.
    pub fn read(&mut self, role: Role, buf: &mut [u8]) -> Got
        requires open { IsOpen (role_of (stream_at self.old role)).phase }
        requires room { 0 < length buf.old }
        ensures reads { ReadsOn S.remaining result buf.new (stream_at self.old role) (stream_at self.new role) }
        ensures others { (other : Role) → other ≢ role → stream_at self.new other ≡ stream_at self.old other }
    {
        match role {
            Role::Query => self.query.read(buf),
            Role::SecondQuery => self.second_query.read(buf),
            Role::Left => self.left.read(buf),
            Role::Right => self.right.read(buf),
            Role::Third => self.third.read(buf),
            Role::Trace => self.trace.read(buf),
            Role::Output => self.output.read(buf),
        }
    }
}
