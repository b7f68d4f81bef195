//! Where workers wait that have nothing to do. No clause says that they wake; the count sees to it that none misses a move.
//!
//! Who tells of a branch counts first and looks for waiters then; who waits says so first and looks at the count then. So one
//! of the two sees the other, and nobody locks anything where nobody waits.

use std::sync::atomic::{AtomicU64, Ordering};
use std::sync::{Condvar, Mutex, Wait};

/// Where idle workers wait.
#[derive(Drop)]
pub struct Desk {
    // how often branches came that may be taken
    moves: AtomicU64,
    // how many workers wait, or are about to
    waiting: AtomicU64,
    // whether all workers are to leave
    over: Mutex<bool>,
    moved: Condvar,
}

impl Desk {
    /// A desk at which nobody waits.
    pub fn new() -> Desk {
        Desk {
            moves: AtomicU64::new(0),
            waiting: AtomicU64::new(0),
            over: Mutex::new(false),
            moved: Condvar::new(),
        }
    }

    /// Workers may come.
    pub fn open<R: Wait>(&self, rt: &R) {
        *self.over.lock(rt) = false;
    }

    /// All workers leave as soon as they have nothing in hand.
    pub fn close<R: Wait>(&self, rt: &R) {
        *self.over.lock(rt) = true;
        self.moved.notify_all();
    }

    /// Tells of so many branches that may be taken. Where nobody waits, nobody is woken and nothing is locked.
    pub fn tell<R: Wait>(&self, rt: &R, branches: usize) {
        self.moves.fetch_add(1, Ordering::SeqCst);
        if self.waiting.load(Ordering::SeqCst) == 0 {
            return;
        }
        let _over = self.over.lock(rt);
        if branches == 1 {
            self.moved.notify_one();
        } else {
            self.moved.notify_all();
        }
    }

    /// What a worker remembers before it looks for a branch, or `None` where it is to leave.
    pub fn seen<R: Wait>(&self, rt: &R) -> Option<u64> {
        if *self.over.lock(rt) {
            None
        } else {
            Some(self.moves.load(Ordering::SeqCst))
        }
    }

    /// Waits for a move since then.
    pub fn wait_past<R: Wait>(&self, rt: &R, seen: u64) {
        let over = self.over.lock(rt);
        self.waiting.fetch_add(1, Ordering::SeqCst);
        let _over = self.moved.wait_while(rt, over, |over| {
            !*over && self.moves.load(Ordering::SeqCst) == seen
        });
        self.waiting.fetch_sub(1, Ordering::SeqCst);
    }
}
