//! Laws of the courses and scripts of branches.
ghost use Rattle.merc_plan.specs.Laws.{BranchesPlay, ScriptsAccount};

/// What a goal does beside others belongs to the course of a branch.
pub fn branches_play()
    ensures { BranchesPlay }
{}

/// A script's own steps, with those of its forks that end well, never pass the limit, and are its number where it ends
/// well.
pub fn scripts_account()
    ensures { ScriptsAccount }
{}
