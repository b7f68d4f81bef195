//! Laws of switches and categories.
ghost use Rattle.merc_grading.specs.Laws.{Chooses, ChoosesNone, FoldsEitherWay, GradesOnce};

/// The category of goals one after the other is the same from the left and from the right.
pub fn folds_either_way()
    ensures { FoldsEitherWay }
{}

/// A goal that has its categories is given the same ones again.
pub fn grades_once()
    ensures { GradesOnce }
{}

/// The variable that is chosen is one on which the disjuncts are a switch, the first of those that are as complete. Where none
/// is chosen there is none.
pub fn chooses_switch()
    ensures some { Chooses }
    ensures none { ChoosesNone }
{}
