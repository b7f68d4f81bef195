//! What lies in the slots of a cell, and what each of its two seats knows.

use std::collections::LinkedList;

/// What a slot holds. The first slot is for the waiter, the second for the value.
#[derive(Drop)]
pub enum Slot<V, W> {
    /// Nothing yet, or no more.
    Empty,
    /// The waiter.
    Waiter(W),
    /// The value.
    Value(V),
}

/// How far a seat has come.
pub enum Stage {
    /// There is no second seat yet.
    Alone,
    /// It has done nothing.
    Idle,
    /// It holds its own slot, to put something there.
    Holding,
    /// It made its one step on the word, and the other side had not come.
    Apart,
    /// It made its one step on the word, and the other side had come.
    Met,
    /// It has taken the waiter out.
    TookWaiter,
    /// It has taken the waiter and the value out.
    TookBoth,
}

/// How the producer ended: by its own seat's view, or as the consumer's step found it.
pub enum End {
    /// Not yet.
    Open,
    /// With a value.
    Full,
    /// Without one.
    Poisoned,
}

/// What a seat knows. No value of it is made.
pub struct Glance<V, W> {
    /// The name of the cell, which contracts alone see.
    pub name: LinkedList<u64>,
    /// Whether the seat is the consumer's.
    pub consumer: bool,
    /// How far it has come.
    pub stage: Stage,
    /// How the producer ended, as far as this seat knows.
    pub end: End,
    /// What the seat put into its own slot.
    pub put: Slot<V, W>,
}
