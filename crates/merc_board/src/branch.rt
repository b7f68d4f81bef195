//! Branches, and what the calls of a board answer.

use merc_script::Outcome;
use merc_value::Block;

/// A branch: what it carries, and what the board holds of it.
#[derive(Drop)]
pub struct Branch<L: Drop, H: Drop> {
    pub load: L,
    pub hold: H,
}

/// What a branch that waited was woken with.
#[derive(Drop)]
pub enum Woken {
    /// It did not wait, or what it was woken with was handed out.
    No,
    /// The value of its cell.
    Value(Block),
    /// The value does not come.
    Starved,
}

/// What comes of a wait.
#[derive(Drop)]
pub enum Waited<L: Drop, H: Drop> {
    /// The branch goes on, with the value of the cell.
    Ready(Box<Branch<L, H>>, Block),
    /// The producer ended without the value.
    Starved(Box<Branch<L, H>>),
    /// Neither. The branch can be taken once the producer has come.
    Parked,
}

/// How a branch goes on behind steps that were reported.
#[derive(Clone, Copy, Debug, PartialEq, Eq)]
pub enum Pace {
    /// It goes on.
    On,
    /// More steps were made than the bound allows.
    Over,
    /// Nobody asks for what it makes: a branch before it ended otherwise than well.
    Cancelled,
}

/// What comes of children that have ended.
#[derive(Clone, Copy, PartialEq, Eq)]
pub enum Resumed {
    /// They are joined to this outcome.
    Outcome(Outcome),
    /// Children were cut short that the outcome needs. They are to be run again, one after the other.
    Restart,
}

/// A board that was opened: a seat for each worker, and the root's branch, which the first worker runs.
#[derive(Drop)]
pub struct Opened<L: Drop, H: Drop, S: Drop> {
    /// The first worker's seat.
    pub home: S,
    /// The other workers' seats.
    pub others: Vec<S>,
    /// The root.
    pub root: Box<Branch<L, H>>,
}
