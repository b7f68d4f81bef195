//! What the branches of a session have spent.

use std::sync::atomic::{AtomicU64, Ordering};

/// The steps that all branches together have made in slices, and how many there may be: a session whose branches have made
/// more answers that memory was refused, and makes no further slice. A script bounds each branch by itself, and forks may be
/// many.
#[derive(Drop)]
pub struct Spent {
    limit: u64,
    steps: AtomicU64,
}

impl Spent {
    /// Nothing is spent of so many steps.
    pub fn new(limit: u64) -> Spent {
        Spent {
            limit,
            steps: AtomicU64::new(0),
        }
    }

    /// Takes in so many steps.
    pub fn add(&self, steps: u64) {
        self.steps.fetch_add(steps, Ordering::Relaxed);
    }

    /// Whether more was spent than may be.
    pub fn is_over(&self) -> bool {
        self.limit < self.steps.load(Ordering::Relaxed)
    }
}
