//! Links between threads.

ghost use Rattle.std.specs.Prelude.{◌≡◌};

use crate::rows::sent;
use hj_base::Full;
use hj_link::{LeftEnd, Receiver, RightEnd, Sender, close, close_way, duplex, one_way};
use std::test::Fail;
use std::thread::{join, yield_now};

const NUMBERS: u64 = 100_000;

const NUMBERS_EACH_WAY: u64 = 10_000;

// An end gives up after so many calls.
const CALLS: u64 = 100_000_000;

#[test]
fn holds_one_message(rt: HostRuntime) -> Result<(), Fail> {
    let (mut sender, mut receiver) = one_way(rt.alloc(), 1)?;
    assert!(rt; sender.put(0, 'a').is_ok());
    assert!(rt; matches!(sender.put(0, 'b'), Err(Full('b'))));
    assert!(rt; !sender.room());
    assert_eq!(rt; receiver.take(0), Some('a'));
    assert_eq!(rt; receiver.take(0), None);
    assert!(rt; sender.room());
    assert!(rt; sender.put(1, 'b').is_ok());
    assert_eq!(rt; receiver.take(1), Some('b'));
    let _closed = close_way(sender, receiver);
    Ok(())
}

fn send_all(mut sender: Sender<u64>) -> (bool, Sender<u64>)
    ensures { result.1.link ≡ sender.link }
{
    let mut next = 0;
    for _ in 0..CALLS {
        if next >= NUMBERS {
            return (true, sender);
        }
        match sender.put(next, next) {
            Ok(()) => next += 1,
            Err(_) => yield_now(),
        }
    }
    (false, sender)
}

fn receive_all(mut receiver: Receiver<u64>) -> (bool, Receiver<u64>)
    ensures { result.1.link ≡ receiver.link }
{
    let mut next = 0;
    for _ in 0..CALLS {
        if next >= NUMBERS {
            return (true, receiver);
        }
        match receiver.take(next) {
            Some(number) if number == next => next += 1,
            Some(_) => return (false, receiver),
            None => yield_now(),
        }
    }
    (false, receiver)
}

#[test]
fn crosses_in_order(rt: HostRuntime) -> Result<(), Fail> {
    let (sender, receiver) = one_way(rt.alloc(), 8)?;
    let ((sent, sender), (received, receiver)) = join(
        &rt,
        move || -> (bool, Sender<u64>)
            ensures { result.1.link ≡ sender.link }
        { send_all(sender) },
        move || -> (bool, Receiver<u64>)
            ensures { result.1.link ≡ receiver.link }
        { receive_all(receiver) },
    );
    assert!(rt; sent);
    assert!(rt; received);
    let _closed = close_way(sender, receiver);
    Ok(())
}

// Where `room` answers true, the next put succeeds: its `unreachable` is proved to be so.
fn put_where_there_is_room(sender: &mut Sender<char>, turn: u64, message: char) -> bool {
    if !sender.room() {
        return false;
    }
    match sender.put(turn, message) {
        Ok(()) => true,
        Err(_) => unreachable!(),
    }
}

#[test]
fn room_is_kept(rt: HostRuntime) -> Result<(), Fail> {
    let (mut sender, mut receiver) = one_way(rt.alloc(), 1)?;
    assert!(rt; put_where_there_is_room(&mut sender, 0, 'a'));
    assert!(rt; !put_where_there_is_room(&mut sender, 0, 'b'));
    assert_eq!(rt; receiver.take(0), Some('a'));
    assert!(rt; put_where_there_is_room(&mut sender, 1, 'b'));
    Ok(())
}

// Either end may go to another thread, whatever its messages are.
fn ends_cross<M: Drop + Send>(ends: (Sender<M>, Receiver<M>)) -> (Sender<M>, Receiver<M>) {
    (sent(ends.0), sent(ends.1))
}

#[test]
fn ends_are_sent(rt: HostRuntime) -> Result<(), Fail> {
    let (mut sender, mut receiver) = ends_cross(one_way(rt.alloc(), 2)?);
    assert!(rt; sender.put(0, 'a').is_ok());
    assert_eq!(rt; receiver.take(0), Some('a'));
    Ok(())
}

#[test]
fn both_directions_hold_one_message(rt: HostRuntime) -> Result<(), Fail> {
    let (mut left, mut right) = duplex(rt.alloc(), 1)?;
    assert!(rt; left.put(0, 'a').is_ok());
    assert!(rt; matches!(left.put(1, 'b'), Err(Full('b'))));
    assert!(rt; right.put(0, 'c').is_ok());
    assert_eq!(rt; left.take(2), Some('c'));
    assert_eq!(rt; right.take(1), Some('a'));
    assert!(rt; left.put(3, 'b').is_ok());
    assert_eq!(rt; right.take(2), Some('b'));
    assert_eq!(rt; right.take(3), None);
    let _closed = close(left, right);
    Ok(())
}

// Puts the numbers, and takes each of them back, in their order.
fn put_and_take_back(mut end: LeftEnd<u64>) -> (bool, LeftEnd<u64>)
    ensures { result.1.link ≡ end.link }
{
    let mut sent = 0;
    let mut received = 0;
    for _ in 0..CALLS {
        if received >= NUMBERS_EACH_WAY {
            return (true, end);
        }
        if sent < NUMBERS_EACH_WAY && end.put(sent, sent).is_ok() {
            sent += 1;
        }
        match end.take(received) {
            Some(number) if number == received => received += 1,
            Some(_) => return (false, end),
            None => yield_now(),
        }
    }
    (false, end)
}

// Puts each number that it takes back; one that finds no room waits.
fn give_back(mut end: RightEnd<u64>) -> (bool, RightEnd<u64>)
    ensures { result.1.link ≡ end.link }
{
    let mut waiting = None;
    let mut sent = 0;
    for _ in 0..CALLS {
        if sent >= NUMBERS_EACH_WAY {
            return (true, end);
        }
        if waiting.is_none() {
            waiting = end.take(sent);
        }
        match waiting {
            Some(number) if end.put(sent, number).is_ok() => {
                waiting = None;
                sent += 1;
            }
            _ => yield_now(),
        }
    }
    (false, end)
}

#[test]
fn crosses_in_both_directions(rt: HostRuntime) -> Result<(), Fail> {
    let (left, right) = duplex(rt.alloc(), 4)?;
    let ((from_left, left), (from_right, right)) = join(
        &rt,
        move || -> (bool, LeftEnd<u64>)
            ensures { result.1.link ≡ left.link }
        { put_and_take_back(left) },
        move || -> (bool, RightEnd<u64>)
            ensures { result.1.link ≡ right.link }
        { give_back(right) },
    );
    assert!(rt; from_left);
    assert!(rt; from_right);
    let _closed = close(left, right);
    Ok(())
}

// Either end may go to another thread, whatever its messages are.
fn link_ends_cross<M: Drop + Send>(ends: (LeftEnd<M>, RightEnd<M>)) -> (LeftEnd<M>, RightEnd<M>) {
    (sent(ends.0), sent(ends.1))
}

#[test]
fn link_ends_are_sent(rt: HostRuntime) -> Result<(), Fail> {
    let (mut left, mut right) = link_ends_cross(duplex(rt.alloc(), 2)?);
    assert!(rt; left.room());
    assert!(rt; right.put(0, 'a').is_ok());
    assert_eq!(rt; left.take(0), Some('a'));
    Ok(())
}
