//! The yard.
ghost use Rattle.std.specs.Prelude.{◌≡◌};

use crate::rule::{Lies, Mooring};
use crate::spot::Label;
use atomic_table::Table;
use std::alloc::Global;

/// Slots in which values lie.
#[derive(Drop)]
pub struct Yard<T, L: Lies<T>> {
    pub(crate) table: Table<Option<T>, Label, (), Mooring<L>, Global>,
    ghost word: { table.shared.table_id.words ≡ 1 },
}
