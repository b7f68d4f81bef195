//! Laws of the rights of branches.
ghost use Rattle.merc_branch_laws.specs.BranchLaws.{DealsKeepToRuns, DealsKeepToSome, DealsStand, GoalsKeepToScripts, RightsFindCells};
ghost use Rattle.merc_branch_laws.specs.Facing.{AnswersAreFaced, ChildrenAreFaced, EndsAreFaced, ForksAreFaced, SignalsAreFaced, TicksAreFaced, WaitsAreFaced};

/// The rights that a board deals out to the branches of an accepted goal find the cells that the goal's script has: at
/// each wait and each signal the right that is used for the variable is the one for the script's cell, and at each fork
/// what stands at the site deals out the rights with which the children find theirs.
pub fn rights_find_cells()
    ensures { RightsFindCells }
{}

/// A course of which the rights find the cells stands at its script.
pub fn deals_stand()
    ensures { DealsStand }
{}

/// It keeps to its script, with the run that it shows there, and for a branch that shows none with some run.
pub fn deals_keep_to_scripts()
    ensures runs { DealsKeepToRuns }
    ensures some { DealsKeepToSome }
{}

/// What an accepted goal does beside others keeps to its script, with the goal's strict sequential run, of which the same
/// variables are shown.
pub fn goals_keep_to_scripts()
    ensures { GoalsKeepToScripts }
{}

/// What one step of a course gives to a branch of which the rights find the cells: the script has the item of the step,
/// with the cell that the right is for, and behind it the rights find the cells again.
pub fn steps_are_faced()
    ensures ends { EndsAreFaced }
    ensures ticks { TicksAreFaced }
    ensures answers { AnswersAreFaced }
    ensures waits { WaitsAreFaced }
    ensures signals { SignalsAreFaced }
    ensures forks { ForksAreFaced }
    ensures children { ChildrenAreFaced }
{}
