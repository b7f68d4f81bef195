//! What lies in the slots of a join, and what each of its seats knows.

use merc_script::Outcome;

/// What a slot holds. There is one slot for each child's outcome, in order, and a last one for the parent.
#[derive(Drop)]
pub enum Slot<P> {
    /// Nothing yet, or no more.
    Empty,
    /// The outcome of the child.
    Ended(Outcome),
    /// The parent.
    Parent(P),
}

/// How far a seat has come.
pub enum Stage {
    /// It is the first and only seat, and the parent is not there.
    Making,
    /// It holds the slot for the parent, to put it there.
    Bringing,
    /// It has done nothing, and the parent is there.
    Waiting,
    /// It holds the slot for its child's outcome, to put it there.
    Holding,
    /// It has counted its child, and others were still to come.
    Stopped,
    /// It has counted its child, and no other was still to come.
    Last,
    /// It was the last, and has taken the parent.
    Over,
}

/// What a seat knows. No value of it is made.
pub struct Stub<P> {
    /// The parent of the join's children.
    pub parent: P,
    /// The first child that the seat stands for.
    pub child: u64,
    /// How many children it stands for.
    pub many: u64,
    /// How far it has come.
    pub stage: Stage,
    /// What it put into its child's slot.
    pub put: Slot<P>,
    /// How many outcomes it has taken out.
    pub taken: u64,
}
