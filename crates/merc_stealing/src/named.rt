//! Rights that were taken out of a branch: they are to cells of the board.
ghost use Rattle.std.specs.Prelude.{◌≡◌};
ghost use Rattle.merc_cell.specs.Ends.{consumer_name, producer_name};
ghost use Rattle.merc_held_branches.specs.Beds.{IsNamed};

use merc_board::Load;
use merc_held_branches::{HeldSignal, HeldWait, Room};
use std::marker::PhantomData;

/// A right to wait.
#[derive(Drop)]
pub struct NamedWait<M: Load, N: Room> {
    pub(crate) right: HeldWait<M>,
    pub(crate) of: PhantomData<N>,
    ghost named: { IsNamed N.table (consumer_name right.end) },
}

/// A right to signal.
#[derive(Drop)]
pub struct NamedSignal<M: Load, N: Room> {
    pub(crate) right: HeldSignal<M>,
    pub(crate) of: PhantomData<N>,
    ghost named: { IsNamed N.table (producer_name right.end) },
}
