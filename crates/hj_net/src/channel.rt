ghost use Rattle.std.specs.Prelude.{IfSome, OnOk};
ghost use Rattle.std.specs.Io.{ReadsAtMost};
ghost use Rattle.std.specs.Io.KnownBytes.{ReadConsumes};
ghost use Rattle.hj_net.specs.Address.{address_of};
ghost use Rattle.hj_net.specs.Channel.{IsOpenedFor};

use crate::address::{Address, address_of, socket_of};
use std::fs::OpenFile;
use std::io::Read;
use std::net::{Net, OpenListener, TcpListener};
use std::rt::Files;
use std::{fs, io};

/// Where the bytes of an open role come from.
#[derive(Drop)]
pub enum Channel<F, L, S> {
    File(F),
    /// Nobody has connected yet. The first read waits for a peer.
    Listening(L),
    /// The one peer that is read. Nobody listens any more.
    Connected(S),
}

impl<F, L, S> Read for Channel<F, L, S>
where
    F: Read + Drop,
    L: OpenListener<Stream = S> + Drop,
    S: Read + Drop,
{
    ghost use Rattle.hj_net.specs.Channel.{left_of, IsConnected};

    ghost remaining = { left_of F.remaining S.remaining };

    /// Reads the next bytes of the file or of the peer into the start of a buffer, and waits for the peer where nobody
    /// has connected yet. Returns how many bytes came, 0 at the end; it fails where the read or the connection does.
    fn read(&mut self, buf: &mut [u8]) -> io::Result<usize>
        ensures bound { ReadsAtMost result buf.new }
        ensures bytes { ReadConsumes (left_of F.remaining S.remaining self.old)
            (left_of F.remaining S.remaining self.new) result buf.new }
        ensures connected { OnOk result (IsConnected self.new) }
    {
        if let Channel::Listening(listener) = self {
            let (stream, _peer) = listener.accept()?;
            *self = Channel::Connected(stream);
        }
        match self {
            Channel::File(file) => file.read(buf),
            Channel::Connected(stream) => stream.read(buf),
            Channel::Listening(_) => unreachable!(),
        }
    }
}

/// Opens the channel of a name, if it can. A listener is bound at once, so a peer may connect before the first read.
pub fn open<R: Files + Net>(rt: &R, name: &str) -> Option<Channel<R::File, R::Listener, R::Stream>>
    ensures { IfSome result (IsOpenedFor (address_of name.now)) }
{
    match address_of(name)? {
        Address::File => Some(Channel::File(open_file(rt, name)?)),
        Address::Port(port) => {
            let listener = TcpListener::bind(rt, socket_of(port)).ok()?;
            Some(Channel::Listening(listener))
        }
    }
}

/// Opens the file of a name, unless it is a folder's.
fn open_file<R: Files>(rt: &R, name: &str) -> Option<R::File> {
    let file = fs::open(rt, name).ok()?;
    let is_folder = file.metadata().ok()?.is_dir();
    (!is_folder).then_some(file)
}
