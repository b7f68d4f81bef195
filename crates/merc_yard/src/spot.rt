//! Spots, and what a berth knows of its slot. No value of these types is made.

use atomic_table::Badge;
use std::collections::LinkedList;

/// What a branch that lies in a berth is there for.
pub enum Purpose {
    /// It can be taken and run.
    Ready,
    /// It waits for the value of a cell.
    Waits,
    /// It waits for its children.
    Forks,
    /// No branch lies there: the berth is a link of a chain of berths that can be used.
    Free,
}

/// A place in a root script, with a purpose, and the yard in which the berth is.
pub struct Spot {
    /// The way to a script: for each fork on it the number of items before it in its script, and the child.
    pub name: LinkedList<(u64, u64)>,
    /// How many items of that script are passed.
    pub passed: u64,
    /// What the branch is there for.
    pub purpose: Purpose,
    /// The yard.
    pub yard: Badge<()>,
}

/// What is known of a slot.
pub enum Fill {
    /// The view is not that of a berth: it makes berths.
    Dealer,
    /// Nothing lies there.
    Vacant,
    /// Something lies there.
    Filled,
    /// The berth's owner has the slot itself.
    Held,
}

/// What a berth knows.
pub struct Label {
    /// The number of its slot.
    pub slot: u64,
    /// What is known of the slot.
    pub fill: Fill,
    /// The spot that what lies there fits.
    pub spot: Spot,
}
