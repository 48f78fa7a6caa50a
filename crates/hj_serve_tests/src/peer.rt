//! A run of `serve` over a peer of a port and a file.
use crate::cases::words_of;
use hj_base::{MemSink, OpenGate};
use hj_net::{Output, RealOutside};
use hj_serve::{Parties, serve};
use std::alloc::Global;
use std::fs;
use std::io::{self, ErrorKind, Write};
use std::net::{Ipv4Addr, Net, TcpStream};
use std::process::Abort;
use std::rt::Files;
use std::sync::Wait;
use std::thread::{self, Threads};
use std::time::Clock;

const PORT: u16 = 47_811;

/// Sends bytes to the port as soon as somebody listens there, in at most 1,000,000 tries, and closes.
fn send(net: &impl Net, bytes: &[u8]) -> io::Result<()> {
    for _ in 0..1_000_000 {
        match TcpStream::connect(net, (Ipv4Addr::LOCALHOST, PORT)) {
            Ok(mut stream) => return stream.write_all(bytes),
            Err(_) => thread::yield_now(),
        }
    }
    Err(io::Error::from(ErrorKind::TimedOut))
}

/// Serves a join over the real edge, and compares what is written.
fn joins(
    rt: &(impl Abort + Threads + Wait + Clock + Sync),
    edge: impl Files + Net + Drop,
    alloc: Global,
    words: &[String],
    text: &[u8],
) {
    let output = Output::new(alloc, io::sink()).expect(rt, "memory");
    let mut outside = RealOutside::new(edge, alloc, &output);
    let mut out = MemSink::new(alloc, 100);
    let mut notes = MemSink::new(alloc, 100);
    let parties = Parties {
        rt,
        gate: &OpenGate,
    };
    let served = serve(alloc, words, &parties, &mut outside, &mut out, &mut notes);
    assert!(rt; served.status == 0);
    assert!(rt; out.bytes() == text);
    assert!(rt; notes.bytes().is_empty());
    drop(served);
    drop(outside);
    drop(output);
}

#[test]
fn joins_a_peer_with_a_file(rt: HostRuntime) {
    let name = "joins_a_peer_with_a_file.csv";
    fs::write(&rt, name, "2,7\n").expect(&rt, "a file");
    let words = words_of(
        &rt,
        rt.alloc(),
        "equi 10 listen:47811 joins_a_peer_with_a_file.csv",
    );
    let net = rt.clone().expect(&rt, "memory");
    let peer = thread::spawn(&rt, move || send(&net, b"1,7\n3,7\n").is_ok()).expect(
        &rt, "a thread",
    );
    joins(&rt, &rt, rt.alloc(), &words, b"1,7,2,7\n3,7,2,7\n");
    assert!(rt; peer.join(&rt));
    fs::remove_file(&rt, name).expect(&rt, "a file");
}
