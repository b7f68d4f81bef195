//! What the history of a deque is a list of. No value of these types is made.

use std::collections::LinkedList;

/// What became of a spark.
pub enum Kind {
    /// It joined at the back.
    Pushed,
    /// It left at the back.
    Popped,
    /// It left at the front.
    Stole,
}

/// One move of the worker or of a thief.
pub struct Move<T> {
    /// The number of the pass that made it.
    pub by: u64,
    /// What it did.
    pub kind: Kind,
    /// With which spark.
    pub spark: T,
}

/// What a pass knows.
pub struct Known<T> {
    /// The history so far, as this pass has seen it.
    pub seen: LinkedList<Move<T>>,
    /// Its own moves.
    pub mine: LinkedList<Move<T>>,
}
