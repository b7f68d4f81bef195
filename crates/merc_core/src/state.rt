//! The state of the core.

use crate::branch::Branch;
use crate::cell::Cell;
use crate::join::Join;
use crate::worker::Worker;
use merc_script::{CellId, Outcome};
use std::alloc::Global;
use std::collections::{BTreeMap, LinkedList};

// Where all branches are, and what is known of cells and joins.
#[derive(Drop)]
pub(crate) struct State {
    pub(crate) alloc: Global,
    pub(crate) workers: Vec<Worker>,
    // the cells for which some branch waits
    pub(crate) cells: BTreeMap<CellId, Cell>,
    pub(crate) joins: Vec<Join>,
    pub(crate) spare: Spare,
}

// Room for what forks make, taken at the start.
#[derive(Drop)]
pub(crate) struct Spare {
    pub(crate) branches: LinkedList<Branch>,
    pub(crate) outcomes: LinkedList<Option<Outcome>>,
    pub(crate) rights: LinkedList<CellId>,
}
