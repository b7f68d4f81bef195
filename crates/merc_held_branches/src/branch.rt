//! What a board holds of branches, and what lies in its yard.
ghost use Rattle.merc_held_branches.specs.Lying.{Lies};

use crate::types::{Bed, Given};
use merc_board::{Branch, Load, Woken};
use merc_cell::{Consumer, Producer};
use merc_goal_tree::Var;
use merc_join::Ticket;
use merc_script::Outcome;
use merc_yard::{Berth, Yard};

/// The right to wait for a cell, under a variable.
#[derive(Drop)]
pub struct HeldWait<M: Load> {
    pub variable: Var,
    /// The cell's end for its consumer.
    pub end: Consumer<Given<M>, Bed<M>>,
}

/// The right to signal a cell, under a variable, and the child of the cell's fork that waits for it, 0 for the parent.
#[derive(Drop)]
pub struct HeldSignal<M: Load> {
    pub variable: Var,
    /// The child that waits, numbered from 1, 0 for the parent.
    pub consumer: usize,
    /// The cell's end for its producer.
    pub end: Producer<Given<M>, Bed<M>>,
}

/// What the board holds of a branch.
#[derive(Drop)]
pub struct Hold<M: Load> {
    /// Its rights to wait, in the order in which it has them.
    pub waits: Vec<HeldWait<M>>,
    /// Its rights to signal, in the order in which it has them.
    pub signals: Vec<HeldSignal<M>>,
    /// Its place in a join. The root has none.
    pub place: Option<Ticket<Bed<M>>>,
    /// Its berth, while it does not lie there.
    pub berth: Option<Berth>,
    /// The next branch of a chain, while it lies in its berth.
    pub link: Option<Berth>,
    /// With what it was woken, until that is handed out.
    pub woken: Woken,
    /// The limit of the fork at which it waits for its children.
    pub limit: u64,
    /// What its children came to, until it goes on.
    pub held: Option<Outcome>,
}

/// What lies in a berth.
#[derive(Drop)]
pub enum Moored<M: Load> {
    /// A branch.
    Lying(Box<Branch<M, Hold<M>>>),
    /// The next of a chain of berths that can be used.
    Link(Option<Berth>),
}

/// What may lie where, for the proofs alone.
pub struct Ways;

impl<M: Load> merc_yard::Lies<Moored<M>> for Ways {
    ghost lies = { Lies M.root M.stands M.awaits M.forked M.shows };
}

/// The yard of a board.
pub type Lot<M> = Yard<Moored<M>, Ways>;

/// A branch of a board.
pub type Held<M> = Box<Branch<M, Hold<M>>>;
