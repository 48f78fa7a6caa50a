//! The real edge: files and ports that are read, and output that is collected before it is handed on.

ghost use Rattle.std.specs.Prelude.{◌≡◌, ◌<◌, length};
ghost use Rattle.hj_base.specs.Outside.{unbegun, IsOpen};
ghost use Rattle.hj_base.specs.declared.outside.Role.TheVariants as role;
ghost use Rattle.hj_net.specs.RealOutside.{role_at};
ghost use Rattle.hj_net.specs.RoleStream.{role_of};

use crate::outsides::{fails_to_start, reads_once, starts};
use crate::texts::same;
use hj_base::{Got, Opened, Outside, Put, Role, Sink};
use hj_net::{Channel, Output, RealOutside, RealSink, RoleStream};
use std::alloc::Global;
use std::cell::Cell;
use std::io::{ErrorKind, Read, Sink as Nowhere, Write};
use std::net::{Ipv4Addr, Net, OpenListener, SocketAddr, TcpListener, TcpStream};
use std::process::Abort;
use std::rt::Files;
use std::{fs, io};

/// How many writes there were, and how many bytes they took.
#[derive(Drop)]
struct Written {
    writes: Cell<usize>,
    bytes: Cell<usize>,
}

impl Written {
    fn new() -> Written {
        Written {
            writes: Cell::new(0),
            bytes: Cell::new(0),
        }
    }

    /// Counts a write.
    fn count(&self, bytes: usize) {
        self.writes.set(self.writes.get().saturating_add(1));
        self.bytes.set(self.bytes.get().saturating_add(bytes));
    }
}

/// A writer that takes at most 3,000 bytes per write, and counts them.
#[derive(Drop)]
struct Counting<'a> {
    written: &'a Written,
}

impl Write for Counting<'_> {
    fn write(&mut self, piece: &[u8]) -> io::Result<usize> {
        let count = piece.len().min(3_000);
        self.written.count(count);
        Ok(count)
    }

    fn flush(&mut self) -> io::Result<()> {
        Ok(())
    }
}

/// A writer whose first write fails, and which takes all later ones.
#[derive(Drop)]
struct Refusing<'a> {
    written: &'a Written,
}

impl Write for Refusing<'_> {
    fn write(&mut self, piece: &[u8]) -> io::Result<usize> {
        if self.written.writes.get() == 0 {
            self.written.count(0);
            return Err(io::Error::from(ErrorKind::BrokenPipe));
        }
        self.written.count(piece.len());
        Ok(piece.len())
    }

    fn flush(&mut self) -> io::Result<()> {
        Ok(())
    }
}

/// Asserts what the counts are.
fn has_written(rt: &impl Abort, written: &Written, writes: usize, bytes: usize) {
    assert_eq!(rt;
        (written.writes.get(), written.bytes.get()),
        (writes, bytes)
    );
}

/// Makes an output over this writer.
fn output_to<W: Write + Drop>(rt: &impl Abort, alloc: Global, writer: W) -> Output<W> {
    Output::new(alloc, writer).expect(rt, "memory")
}

/// Writes a piece once, and asserts the answer.
fn puts<S: Sink>(rt: &impl Abort, sink: &mut S, piece: &[u8], put: Put)
    requires { 0 < length piece.now }
{
    assert_eq!(rt; sink.write(piece), put);
}

fn puts_lines<W: Write + Drop>(rt: &impl Abort, output: &Output<W>) {
    let mut sink = RealSink::output(output);
    for _ in 0..800 {
        puts(rt, &mut sink, b"1,7,2,7,8\n", Put::Wrote(10));
    }
}

fn hands_on<W: Write + Drop>(rt: &impl Abort, output: &Output<W>) {
    assert!(rt; output.hand_on().is_ok());
}

#[test]
fn collects_until_handed_on(rt: HostRuntime) {
    let written = Written::new();
    let output = output_to(&rt, rt.alloc(), Counting { written: &written });
    puts_lines(&rt, &output);
    has_written(&rt, &written, 0, 0);
    hands_on(&rt, &output);
    hands_on(&rt, &output);
    has_written(&rt, &written, 3, 8_000);
}

#[test]
fn tells_how_much_was_taken(rt: HostRuntime) {
    let written = Written::new();
    let output = output_to(&rt, rt.alloc(), Counting { written: &written });
    let mut sink = RealSink::output(&output);
    puts(&rt, &mut sink, &[b'x'; 10_000], Put::Wrote(3_000));
    has_written(&rt, &written, 1, 3_000);
}

/// Writes lines past the room of the output, which has 5 bytes, and notes after it.
fn puts_past_the_room<W: Write + Drop, E: Write + Drop>(
    rt: &impl Abort,
    output: &Output<W>,
    writer: E,
) {
    let mut sink = RealSink::output(output);
    let mut notes = RealSink::errors(output, writer);
    puts(rt, &mut sink, b"1,7\n", Put::Wrote(4));
    puts(rt, &mut notes, b"note\n", Put::Wrote(5));
    puts(rt, &mut sink, b"2,7\n", Put::Wrote(4));
    puts(rt, &mut notes, b"no", Put::Failed);
    puts(rt, &mut sink, b"3,7\n", Put::Failed);
}

fn fills(rt: &impl Abort, alloc: Global, room: &mut [u8], written: &mut [u8]) {
    let output = output_to(rt, alloc, room);
    puts_past_the_room(rt, &output, written);
}

#[test]
fn keeps_a_refusal(rt: HostRuntime) {
    let (mut room, mut written) = ([0; 5], [0; 7]);
    fills(&rt, rt.alloc(), &mut room, &mut written);
    same(&rt, "lines", &room, b"1,7\n2");
    same(&rt, "notes", &written, b"note\n\0\0");
}

fn puts_a_pair<W: Write + Drop>(rt: &impl Abort, output: &Output<W>) {
    let mut sink = RealSink::output(output);
    puts(rt, &mut sink, b"a pair\n", Put::Wrote(7));
}

/// Writes a pair, and lets the output go.
fn lets_go<W: Write + Drop>(rt: &impl Abort, output: Output<W>) {
    puts_a_pair(rt, &output);
}

/// Writes a pair, asserts that it is refused when it is handed on, and lets the output go.
fn is_refused_once<W: Write + Drop>(rt: &impl Abort, output: Output<W>) {
    puts_a_pair(rt, &output);
    assert!(rt; output.hand_on().is_err());
}

#[test]
fn hands_on_what_waits_at_its_end(rt: HostRuntime) {
    let written = Written::new();
    let writer = Counting { written: &written };
    lets_go(&rt, output_to(&rt, rt.alloc(), writer));
    has_written(&rt, &written, 1, 7);
}

#[test]
fn hands_on_nothing_after_a_refusal(rt: HostRuntime) {
    let written = Written::new();
    let writer = Refusing { written: &written };
    is_refused_once(&rt, output_to(&rt, rt.alloc(), writer));
    has_written(&rt, &written, 1, 0);
}

/// Makes the streams of the system, beside an output.
fn edge<R: Files + Net + Drop, W: Write + Drop>(
    rt: R,
    alloc: Global,
    output: &Output<W>,
) -> RealOutside<'_, R, W>
    ensures { (role_at result role.Left).phase ≡ unbegun }
{
    RealOutside::new(rt, alloc, output)
}

/// Starts the left stream, and asserts that its one line is read.
fn reads_a_line<O: Outside>(rt: &impl Abort, outside: &mut O, name: &str)
    requires { (O.state outside.old role.Left).phase ≡ unbegun }
{
    starts(rt, outside, Role::Left, name);
    let mut buf = [0; 5];
    reads_once(rt, outside, Role::Left, &mut buf, "1,7\n");
    same(rt, name, &buf, b"1,7\n\0");
}

/// Writes a line into a file of this name.
fn makes_a_file(rt: &(impl Files + Abort), name: &str) {
    assert!(rt; fs::write(rt, name, "1,7\n").is_ok());
}

fn removes(rt: &(impl Files + Abort), name: &str) {
    assert!(rt; fs::remove_file(rt, name).is_ok());
}

/// Makes a file of this name, reads it beside an output, and removes it.
fn reads_a_file<R, W>(rt: &R, alloc: Global, output: &Output<W>, name: &str)
where
    R: Files + Net + Abort,
    W: Write + Drop,
{
    makes_a_file(rt, name);
    reads_a_line(rt, &mut edge(rt, alloc, output), name);
    removes(rt, name);
}

#[test]
fn hands_on_before_it_reads(rt: HostRuntime) {
    let written = Written::new();
    let output = output_to(&rt, rt.alloc(), Counting { written: &written });
    puts_a_pair(&rt, &output);
    reads_a_file(&rt, rt.alloc(), &output, "hands_on_before_it_reads.csv");
    has_written(&rt, &written, 1, 7);
}

fn nowhere(rt: &impl Abort, alloc: Global) -> Output<Nowhere> {
    output_to(rt, alloc, io::sink())
}

#[test]
fn opens_a_file_under_exactly_its_name(rt: HostRuntime) {
    let output = nowhere(&rt, rt.alloc());
    for name in [" with a blank at each end ", "./listen:80", "listen"] {
        reads_a_file(&rt, rt.alloc(), &output, name);
    }
}

/// Asserts that nothing is opened under a name.
fn is_refused<R: Files + Net + Abort>(rt: &R, alloc: Global, name: &str) {
    let output = nowhere(rt, alloc);
    fails_to_start(rt, &mut edge(rt, alloc, &output), Role::Left, name);
}

/// Returns a listener of a port that was free, and the port.
fn free_port<R: Net + Abort>(rt: &R) -> (R::Listener, u16) {
    let listener = TcpListener::bind(rt, (Ipv4Addr::LOCALHOST, 0)).expect(rt, "a port");
    let port = listener.local_addr().expect(rt, "an address").port();
    (listener, port)
}

/// Makes the name under which a role listens to a port.
fn listening(rt: &impl Abort, alloc: Global, port: u16) -> String {
    format!(in alloc; "listen:{port}").expect(rt, "memory")
}

#[test]
fn refuses_what_it_cannot_open(rt: HostRuntime) {
    for name in ["no_such_file.csv", ".", ""] {
        is_refused(&rt, rt.alloc(), name);
    }
    let (_taken, port) = free_port(&rt);
    is_refused(&rt, rt.alloc(), &listening(&rt, rt.alloc(), port));
}

/// Asserts that nothing is opened under a name, even where a file has it.
fn is_no_address(rt: &(impl Files + Net + Abort), alloc: Global, name: &str) {
    makes_a_file(rt, name);
    is_refused(rt, alloc, name);
    removes(rt, name);
}

#[test]
fn refuses_what_is_no_port(rt: HostRuntime) {
    for name in [
        "listen:",
        "listen:0",
        "listen:65536",
        "listen:+80",
        "listen:80 ",
    ] {
        is_no_address(&rt, rt.alloc(), name);
    }
}

/// A reader whose second read fails.
#[derive(Drop)]
struct Interrupted<'a> {
    reads: u32,
    bytes: &'a [u8],
}

impl Read for Interrupted<'_> {
    fn read(&mut self, buf: &mut [u8]) -> io::Result<usize> {
        self.reads = self.reads.saturating_add(1);
        if self.reads == 2 {
            return Err(io::Error::from(ErrorKind::Interrupted));
        }
        self.bytes.read(buf)
    }
}

/// A listener to which no peer comes.
#[derive(Drop)]
struct Lonely;

impl OpenListener for Lonely {
    type Stream = Interrupted<'static>;

    fn accept(&self) -> io::Result<(Interrupted<'static>, SocketAddr)> {
        Err(io::Error::from(ErrorKind::ConnectionAborted))
    }
}

/// A channel over readers and listeners that fail.
type FailingChannel = Channel<Interrupted<'static>, Lonely, Interrupted<'static>>;

/// Begins a role with a stream, and asserts that it is ready.
fn begun<S: Read + Drop>(rt: &impl Abort, alloc: Global, stream: S) -> RoleStream<S>
    ensures { IsOpen (role_of result).phase }
{
    let mut role_stream = RoleStream::new();
    let name = String::from_str(alloc, "name").expect(rt, "memory");
    let opened = role_stream.begin(name, Some(stream));
    assert!(rt; matches!(opened, Opened::Ready));
    role_stream
}

/// Reads the stream of a role once, and asserts the answer.
fn answers<S: Read + Drop>(
    rt: &impl Abort,
    role_stream: &mut RoleStream<S>,
    buf: &mut [u8],
    got: Got,
)
    requires open { IsOpen (role_of role_stream.old).phase }
    requires room { 0 < length buf.old }
    ensures { IsOpen (role_of role_stream.new).phase }
{
    assert_eq!(rt; role_stream.read(buf), got);
}

#[test]
fn reads_on_after_a_failed_read(rt: HostRuntime) {
    let stream = Interrupted {
        reads: 0,
        bytes: b"abcd",
    };
    let channel: FailingChannel = Channel::File(stream);
    let mut role_stream = begun(&rt, rt.alloc(), channel);
    let mut buf = [0; 3];
    answers(&rt, &mut role_stream, &mut buf, Got::Bytes(3));
    answers(&rt, &mut role_stream, &mut buf, Got::Failed);
    answers(&rt, &mut role_stream, &mut buf, Got::Bytes(1));
    same(&rt, "what was read", &buf, b"dbc");
    answers(&rt, &mut role_stream, &mut buf, Got::End);
}

#[test]
fn fails_where_no_peer_comes(rt: HostRuntime) {
    let channel: FailingChannel = Channel::Listening(Lonely);
    let mut role_stream = begun(&rt, rt.alloc(), channel);
    let mut buf = [0; 3];
    answers(&rt, &mut role_stream, &mut buf, Got::Failed);
    answers(&rt, &mut role_stream, &mut buf, Got::Failed);
}

/// Returns whether a peer can connect to a port at an address.
fn connects(rt: &impl Net, address: Ipv4Addr, port: u16) -> bool {
    TcpStream::connect(rt, (address, port)).is_ok()
}

/// Starts the left stream at a port, and asserts that a peer can connect to it at the address of this machine alone.
fn listens_here<O: Outside>(rt: &(impl Net + Abort), outside: &mut O, name: &str, port: u16)
    requires { (O.state outside.old role.Left).phase ≡ unbegun }
{
    starts(rt, outside, Role::Left, name);
    assert!(rt; !connects(rt, Ipv4Addr::new(127, 0, 0, 2), port));
    assert!(rt; connects(rt, Ipv4Addr::LOCALHOST, port));
}

#[test]
fn listens_to_this_machine_alone(rt: HostRuntime) {
    let (_, port) = free_port(&rt);
    let name = listening(&rt, rt.alloc(), port);
    let output = nowhere(&rt, rt.alloc());
    listens_here(&rt, &mut edge(&rt, rt.alloc(), &output), &name, port);
}

/// Connects to a port, sends bytes and closes.
fn send(rt: &(impl Net + Abort), port: u16, bytes: &[u8]) {
    let mut peer = TcpStream::connect(rt, (Ipv4Addr::LOCALHOST, port)).expect(rt, "a peer");
    assert!(rt; peer.write_all(bytes).is_ok());
}

/// Starts the left stream at a port to which two peers send, and asserts that it has the bytes of the first one.
fn reads_one_peer<O: Outside>(rt: &(impl Net + Abort), outside: &mut O, name: &str, port: u16)
    requires { (O.state outside.old role.Left).phase ≡ unbegun }
{
    starts(rt, outside, Role::Left, name);
    send(rt, port, b"1,7");
    send(rt, port, b"2,7\n");
    let mut buf = [0; 4];
    reads_once(rt, outside, Role::Left, &mut buf, "1,7");
    same(rt, name, &buf, b"1,7\0");
    reads_once(rt, outside, Role::Left, &mut buf, "end");
}

#[test]
fn reads_the_first_peer_alone(rt: HostRuntime) {
    let (_, port) = free_port(&rt);
    // Zeros in front don't change a port.
    let name = format!(in rt.alloc(); "listen:0{port}").expect(&rt, "memory");
    let output = nowhere(&rt, rt.alloc());
    reads_one_peer(&rt, &mut edge(&rt, rt.alloc(), &output), &name, port);
}
