//! The stealing board.
ghost use Rattle.std.specs.Prelude.{◌≡◌, All};
ghost use Rattle.merc_yard.specs.Yards.{yard_table};
ghost use Rattle.merc_yard.specs.Slots.{nowhere};
ghost use Rattle.merc_yard.specs.Berths.{IsVacant};

use crate::formed::WellFormed;
use crate::seat::Spark;
use merc_board::Load;
use merc_deque::Thief;
use merc_held_branches::{Lot, Room};
use merc_yard::Berth;

/// A board whose workers take branches from each other's deques. Nothing in it is locked.
#[derive(Drop)]
pub struct StealingBoard<M: Load, N: Room> {
    pub(crate) lot: Lot<M>,
    /// How many workers it is for.
    pub(crate) workers: usize,
    /// How many berths each seat is given.
    pub(crate) share: usize,
    /// The berths that no seat has yet.
    pub(crate) berths: Vec<Berth>,
    /// The thieves' ends of all workers' deques, in order, once the board was opened.
    pub(crate) thieves: Vec<Thief<Spark<N>>>,
    pub(crate) formed: WellFormed<M>,
    ghost tied: { yard_table lot ≡ N.table },
    ghost vacant: { All (IsVacant (yard_table lot) nowhere) berths.items },
}
