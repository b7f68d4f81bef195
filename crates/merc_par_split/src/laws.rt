//! Laws of the split tree.
ghost use Rattle.merc_par_split.specs.SplitLaws.{ErasesToGraded, KeepsCallTraces, KeepsCalls, KeepsForks, KeepsRuns, KeepsTraces, NumbersSites, PlansSites};

/// Without its waits, signals and sites the split tree is the graded one.
pub fn erases_to_graded()
    ensures { ErasesToGraded }
{}

/// The split tree does what the graded one does, its calls included.
pub fn keeps_traces()
    ensures traces { KeepsTraces }
    ensures calls { KeepsCallTraces }
    ensures runs { KeepsRuns }
{}

/// The split tree has parallel conjunctions, and calls procedures, only where the graded one does.
pub fn keeps_forks_and_calls()
    ensures forks { KeepsForks }
    ensures calls { KeepsCalls }
{}

/// The sites of the split tree have one number after the other, in the order of the text, and something stands at each.
pub fn numbers_sites()
    ensures numbers { NumbersSites }
    ensures plans { PlansSites }
{}
