//! The parking place of an executor or of a session.
use std::sync::Wait;
use std::sync::atomic::{AtomicBool, Ordering};
use std::thread::Parker;
use std::time::Duration;

/// A parking place: its owner, an executor or an interactive session, rests there until it is woken. A sender that has put a
/// message into the owner's inbox calls it.
#[derive(Drop)]
pub(crate) struct Parking {
    /// Whether its owner rests or is about to.
    is_taken: AtomicBool,
    parker: Parker,
}

impl Parking {
    /// A parking place whose owner is awake.
    pub(crate) fn new() -> Parking {
        Parking {
            is_taken: AtomicBool::new(false),
            parker: Parker::new(),
        }
    }

    /// The owner is about to rest; from now on it is called. It has to look once more for a message that came before.
    pub(crate) fn lie_down(&self) {
        self.is_taken.store(true, Ordering::SeqCst);
    }

    /// Parks the owner's thread until it is woken, or for `longest` at most.
    pub(crate) fn rest(&self, rt: &impl Wait, longest: Option<Duration>) {
        match longest {
            Some(longest) => self.parker.park_timeout(rt, longest),
            None => self.parker.park(rt),
        }
    }

    /// The owner is awake.
    pub(crate) fn get_up(&self) {
        self.is_taken.store(false, Ordering::SeqCst);
    }

    /// Wakes the owner if it rests or is about to.
    pub(crate) fn call(&self) {
        if self.is_taken.load(Ordering::SeqCst) {
            self.wake();
        }
    }

    /// Wakes the owner, or keeps it from resting the next time.
    pub(crate) fn wake(&self) {
        self.parker.unpark();
    }
}
