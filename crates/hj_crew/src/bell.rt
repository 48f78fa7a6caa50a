//! What a thread of a run sleeps on, and is woken by.
use std::sync::Wait;
use std::sync::atomic::{AtomicU8, Ordering};
use std::thread::Parker;

/// What a thread waits for.
#[derive(Clone, Copy)]
pub(crate) enum Awaits {
    /// It is awake.
    Nothing,
    /// A message, at one of the ends that it turns.
    Message,
    /// Room in a queue of reports, or a message.
    Room,
}

/// What a thread sleeps on, and is woken by.
///
/// A thread that found nothing says here what it waits for, and looks once more before it sleeps. Who put
/// something for it, or made room, looks here afterwards. So one of the two sees what the other did.
#[derive(Drop)]
pub(crate) struct Bell {
    parker: Parker,
    /// What its thread waits for. That thread alone writes it.
    awaits: AtomicU8,
}

impl Bell {
    /// Makes the bell of a thread that is awake.
    pub(crate) fn new() -> Self {
        Bell {
            parker: Parker::new(),
            awaits: AtomicU8::new(Awaits::Nothing as u8),
        }
    }

    /// Its thread says what it waits for.
    pub(crate) fn set(&self, awaits: Awaits) {
        self.awaits.store(awaits as u8, Ordering::SeqCst);
    }

    /// Its thread sleeps until it is woken.
    pub(crate) fn sleep<R: Wait>(&self, rt: &R) {
        self.parker.park(rt);
    }

    /// Wakes its thread if that waits.
    pub(crate) fn ring(&self) {
        if self.awaits.load(Ordering::SeqCst) != Awaits::Nothing as u8 {
            self.parker.unpark();
        }
    }

    /// Wakes its thread if that waits for room.
    pub(crate) fn ring_for_room(&self) {
        if self.awaits.load(Ordering::SeqCst) == Awaits::Room as u8 {
            self.parker.unpark();
        }
    }

    /// Wakes its thread, whatever that waits for.
    pub(crate) fn wake(&self) {
        self.parker.unpark();
    }
}

/// The bells that a thread rings where it put something: those of the threads that turn the cores beside its
/// own, and that of the calling thread. Beside the first and the last core that is the calling thread too.
#[derive(Drop)]
pub(crate) struct Neighbours<'b> {
    pub(crate) left: &'b Bell,
    pub(crate) right: &'b Bell,
    pub(crate) caller: &'b Bell,
}

impl Neighbours<'_> {
    pub(crate) fn ring(&self) {
        self.left.ring();
        self.right.ring();
        self.caller.ring();
    }
}
