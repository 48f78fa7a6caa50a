ghost use Rattle.std.specs.Prelude.{◌≡◌, ◌<◌, length, IsSomeAnd, None};
ghost use Rattle.std.specs.Io.KnownBytes.{ReadConsumes};
ghost use Rattle.hj_base.specs.Counts.{one_more};
ghost use Rattle.hj_base.specs.Outside.{unbegun, IsOpen, Starts, Reads, ChangesOnly};
ghost use Rattle.hj_net.specs.Answers.{as_read};

use crate::Output;
use crate::channel::{Channel, open};
use crate::role_streams::RoleStreams;
use hj_base::{Got, Opened, Outside, Role};
use std::alloc::Global;
use std::io::Write;
use std::net::Net;
use std::rt::Files;

/// The streams of all roles, from files or from peers.
type RealStreams<R> = RoleStreams<
    Channel<<R as Files>::File, <R as Net>::Listener, <R as Net>::Stream>,
>;

/// The streams of the system: each name is a file's, or `listen:PORT`, a port of this machine whose first peer is read. It
/// counts the faults of each role, and tells no bytes. Before each read it hands on the output, so that all that was
/// written is seen before the program waits for input.
#[derive(Drop)]
pub struct RealOutside<'a, R: Files + Net + Drop, W: Write + Drop> {
    rt: R,
    alloc: Global,
    standard: &'a Output<W>,
    streams: RealStreams<R>,
}

impl<'a, R: Files + Net + Drop, W: Write + Drop> RealOutside<'a, R, W> {
    ghost use Rattle.hj_base.specs.Outside.{new_role};
    ghost use Rattle.hj_net.specs.RealOutside.{role_at};
    ghost use Rattle.hj_base.specs.declared.outside.Role.{Role};

    /// Makes one with no stream begun.
    pub fn new(rt: R, alloc: Global, output: &'a Output<W>) -> RealOutside<'a, R, W>
        ensures { (role : Role) → role_at result role ≡ new_role }
    {
        RealOutside {
            rt,
            alloc,
            standard: output,
            streams: RoleStreams::new(),
        }
    }
}

impl<R: Files + Net + Drop, W: Write + Drop> Outside for RealOutside<'_, R, W> {
    ghost use Rattle.hj_net.specs.Address.{address_of};
    ghost use Rattle.hj_net.specs.Channel.{IsOpenedFor};
    ghost use Rattle.hj_net.specs.RealOutside.{channel_at, role_at, remaining_at};

    ghost state = { role_at };

    ghost under = { λ _ _. None };

    fn start(&mut self, role: Role, name: &str) -> Opened
        requires { (role_at self.old role).phase ≡ unbegun }
        ensures starts { Starts result name.now None (role_at self.old role) (role_at self.new role) }
        ensures others { ChangesOnly role (role_at self.old) (role_at self.new) }
        ensures fault { result ≡ Opened.Failed
            → (role_at self.new role).faults ≡ one_more (role_at self.old role).faults }
        ensures channel { result ≡ Opened.Ready
            → IsSomeAnd (channel_at self.new role) (IsOpenedFor (address_of name.now)) }
    {
        let Ok(kept) = String::from_str(self.alloc, name) else {
            return Opened::Memory;
        };
        let opened = open(&self.rt, name);
        self.streams.begin(role, kept, opened)
    }

    fn read(&mut self, role: Role, buf: &mut [u8]) -> Got
        requires open { IsOpen (role_at self.old role).phase }
        requires room { 0 < length buf.old }
        ensures reads { Reads result buf.new (role_at self.old role) (role_at self.new role) }
        ensures others { ChangesOnly role (role_at self.old) (role_at self.new) }
        ensures fault { result ≡ Got.Failed → (role_at self.new role).faults ≡ one_more (role_at self.old role).faults }
        ensures bytes { ReadConsumes (remaining_at R.File.remaining R.Stream.remaining self.old role)
            (remaining_at R.File.remaining R.Stream.remaining self.new role) (as_read result) buf.new }
    {
        // A refusal is kept: the output's next write returns it, and the end of the run sees it.
        let _ = self.standard.hand_on();
        self.streams.read(role, buf)
    }
}
