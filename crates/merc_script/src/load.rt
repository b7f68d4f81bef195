//! What a branch carries.

/// What a branch carries on its way through its script: the machine that makes the script's steps. Where it stands is a
/// place in the root script: the name of the branch's own script, with the number of items that it has passed. It stands
/// there if it goes on as the rest of that script says, given the script's value at each wait.
pub trait Load: Drop {
    ghost use Rattle.merc_script.specs.Places.{Place};

    ghost stands: { Self → Place → Type 0 };
}
