//! Links on one thread.

use crate::lines::{halves, shows};
use crate::rows::sent;
use hj_base::Full;
use hj_chain::PlainLink;
use std::alloc::Global;
use std::process::Abort;

/// Returns the message that a put hands back, if it does.
fn refused(answer: Result<(), Full<char>>) -> Option<char> {
    match answer {
        Ok(()) => None,
        Err(Full(message)) => Some(message),
    }
}

/// Calls of a link with room for one message, and the message that comes of each.
const CALLS: &str = "\
put_right a: None
put_right b: Some('b')
look_right: Some('a')
put_left c: None
look_left: Some('c')
put_left d: Some('d')
take_left: Some('c')
take_left: None
take_right: Some('a')
put_right b: None
take_right: Some('b')
take_right: None
look_right: None
look_left: None";

/// Makes a call of this name, a put with this message.
fn called(rt: &impl Abort, link: &mut PlainLink<char>, name: &str, message: char) -> Option<char> {
    match name {
        "put_right" => refused(link.put_right(message)),
        "put_left" => refused(link.put_left(message)),
        "look_right" => link.look_right().copied(),
        "look_left" => link.look_left().copied(),
        "take_right" => link.take_right(),
        "take_left" => link.take_left(),
        _ => panic!(rt; "no call: {name}"),
    }
}

/// Makes the call of a line.
fn answers(rt: &impl Abort, alloc: Global, link: &mut PlainLink<char>, line: &str) {
    let (call, want) = halves(rt, line);
    let (name, message) = call.split_once(' ').unwrap_or((call, "-"));
    let message = message.chars().next().expect(rt, "a message");
    shows(rt, alloc, line, &called(rt, link, name, message), want);
}

#[test]
fn one_message_each_way(rt: HostRuntime) {
    let mut link = PlainLink::new(rt.alloc(), 1).expect(&rt, "memory");
    for line in CALLS.lines() {
        answers(&rt, rt.alloc(), &mut link, line);
    }
}

/// Shows that a link goes to another thread where its messages do.
fn sent_between_threads<M: Send>(link: PlainLink<M>, refused: Full<M>) -> (PlainLink<M>, Full<M>) {
    (sent(link), sent(refused))
}

#[test]
fn links_are_sent(rt: HostRuntime) {
    let mut link = PlainLink::new(rt.alloc(), 2).expect(&rt, "memory");
    let _ = link.put_right(7u64);
    let (mut link, Full(message)) = sent_between_threads(link, Full(8));
    assert!(rt; link.take_right() == Some(7));
    assert!(rt; message == 8);
}
