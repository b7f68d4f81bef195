//! The two ends of a cell.
ghost use Rattle.std.specs.Prelude.{◌≡◌, true, false};
ghost use Rattle.merc_cell.specs.Cell.{IsBegun, IsSeated};

use crate::glance::{Glance, Slot};
use crate::rule::{Fits, Meeting};
use atomic_table::{Seat, Table};
use std::alloc::Global;
use std::sync::Arc;

/// The word and the slots of a cell, with their memory.
pub type Cell<V, W> = Table<Slot<V, W>, Glance<V, W>, (), Meeting, Global>;

/// The end that waits for the value. It takes one wait.
#[derive(Drop)]
pub struct Consumer<V: Fits, W: Fits> {
    pub(crate) table: Arc<Cell<V, W>>,
    pub(crate) seat: Seat<Slot<V, W>, Glance<V, W>>,
    ghost seated: { IsSeated seat.table_id table.value.shared.table_id × IsBegun true seat.me },
}

/// The end that puts the value, or ends without one. It takes one of the two.
#[derive(Drop)]
pub struct Producer<V: Fits, W: Fits> {
    pub(crate) table: Arc<Cell<V, W>>,
    pub(crate) seat: Seat<Slot<V, W>, Glance<V, W>>,
    ghost seated: { IsSeated seat.table_id table.value.shared.table_id × IsBegun false seat.me },
}

/// The seat of an end that has made its step. Nothing can be done with it: it tells contracts what the step found.
#[derive(Drop)]
pub struct Spent<V, W> {
    pub(crate) seat: Seat<Slot<V, W>, Glance<V, W>>,
}
