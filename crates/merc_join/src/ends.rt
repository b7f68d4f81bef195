//! The tickets of a join.
ghost use Rattle.std.specs.Prelude.{◌≡◌, ◌+◌, ◌<◌, ◌≤◌};
ghost use Rattle.merc_join.specs.Join.{IsBegun, IsSeated, most_children};

use crate::rule::{Forked, JoinKey, Joining};
use crate::stub::{Slot, Stub};
use atomic_table::{Seat, Table};
use std::alloc::Global;
use std::sync::Arc;

/// The word and the slots of a join, with their memory.
pub type Join<P> = Table<Slot<P>, Stub<P>, JoinKey<P>, Joining, Global>;

/// The right to say, once, how one child ended.
#[derive(Drop)]
pub struct Ticket<P: Forked> {
    pub(crate) table: Arc<Join<P>>,
    pub(crate) seat: Seat<Slot<P>, Stub<P>>,
    pub(crate) child: usize,
    ghost seated: { IsSeated seat.table_id table.value.shared.table_id × IsBegun child seat.me },
    ghost within: { (child + 1 < table.value.shared.table_id.slots) × (table.value.shared.table_id.slots ≤ most_children + 1) },
}

/// The seat of a ticket that is done. Nothing can be done with it: it tells contracts what its step found.
#[derive(Drop)]
pub struct SpentTicket<P> {
    pub(crate) seat: Seat<Slot<P>, Stub<P>>,
}
