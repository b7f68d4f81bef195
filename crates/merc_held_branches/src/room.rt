//! Which yard a board has.

use std::marker::Brand;

/// Which yard a board has. The call between the making of the yard and the opening of the board picks it.
pub trait Room {
    ghost use Rattle.atomic_table.specs.Seated.{TableId};

    ghost table: { TableId };
}

impl Room for Brand {
    ghost use Rattle.merc_yard.specs.Slots.{no_table};

    ghost table = { no_table };
}
