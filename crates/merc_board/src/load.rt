//! What a branch carries.

/// What a branch carries on its way through its script, a script of one root: the machine that makes the script's steps.
/// What it carries is told by relations with the rights of its branch and a place in the root script. The rights change
/// before the machine goes on, at a wait and at a fork, so there is one relation for each.
pub trait Load: Drop {
    ghost use Rattle.std.specs.Prelude.{ℕ};
    ghost use Rattle.merc_value.specs.Block.{BlockData};
    ghost use Rattle.merc_script.specs.Script.{Script};
    ghost use Rattle.merc_script.specs.Places.{Place};
    ghost use Rattle.merc_board.specs.Rights.{Rights};

    // the root script
    ghost root: { Script };

    // it stands at this place, and its branch has these rights
    ghost stands: { Self → Rights → Place → Type 0 };

    // it stands at the wait at this place; the right to wait was taken out, and its branch has these other rights
    ghost awaits: { Self → Rights → Place → Type 0 };

    // it stands at the fork at this place; behind it its branch has these rights
    ghost forked: { Self → Rights → Place → Type 0 };

    // this block is the value of this cell
    ghost shows: { ℕ → BlockData → Type 0 };
}
