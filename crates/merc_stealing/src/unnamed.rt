//! Boards whose yard has no name yet.
ghost use Rattle.std.specs.Prelude.{All};
ghost use Rattle.merc_yard.specs.Yards.{yard_table};
ghost use Rattle.merc_yard.specs.Slots.{nowhere};
ghost use Rattle.merc_yard.specs.Berths.{IsVacant};

use merc_board::Load;
use merc_held_branches::Lot;
use merc_yard::Berth;

/// What is made of a board before its yard has a name.
#[derive(Drop)]
pub struct Unnamed<M: Load> {
    pub(crate) lot: Lot<M>,
    pub(crate) workers: usize,
    pub(crate) share: usize,
    pub(crate) berths: Vec<Berth>,
    ghost vacant: { All (IsVacant (yard_table lot) nowhere) berths.items },
}
