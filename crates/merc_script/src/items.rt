//! The items of scripts, one after the other.

use crate::{CellId, Move, Outcome, ScriptCell};
use merc_base::Sequence;

/// What a branch does at a fork: it parks until its children have ended. Their scripts stand behind the fork, one after
/// the other, each up to its end, and then what follows the fork.
#[derive(Drop)]
pub struct Fork {
    /// The most steps that the children make together.
    pub limit: u64,
    /// The number of children.
    pub children: usize,
    /// The fork's own cells.
    pub cells: Sequence<ScriptCell>,
    /// The parent's rights that move into the children.
    pub moves: Sequence<Move>,
}

/// One item of a script, or its end.
#[derive(Drop)]
pub enum Item {
    /// One step.
    Tick,
    /// A wait for a cell's value.
    Wait(CellId),
    /// The value is put into a cell.
    Signal(CellId),
    /// Children run side by side.
    Fork(Fork),
    /// The end.
    End(Outcome),
}
