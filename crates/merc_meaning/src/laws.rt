//! Laws of what ordered goals mean.
ghost use Rattle.std.specs.Prelude.{◌≡◌, ◌<◌, ◌+◌, ℕ, ℤ, FitsSigned, []};
ghost use Rattle.std.specs.Bool.{Decides};
ghost use Rattle.std.specs.Int.{w64};
ghost use Rattle.merc_goal_tree.specs.declared.goal.Operation.{Operation};
ghost use Rattle.merc_graded_tree.specs.Nodes.{Node};
ghost use Rattle.merc_value.specs.Value.{Value};
ghost use Rattle.merc_meaning.specs.Values.{same};
ghost use Rattle.merc_meaning.specs.Arithmetic.{arithmetic, Gives};
ghost use Rattle.merc_meaning.specs.Trace.{cut};
ghost use Rattle.merc_meaning.specs.Runs.{Program, run, node_trace, call_trace};
ghost use Rattle.merc_meaning.specs.Truth.{Assignment, Outside, YesAt, NoAt};

/// Values are told apart.
pub fn values_are_told_apart()
    ensures { (one other : Value) → Decides (same one other) (one ≡ other) }
{}

/// What arithmetic gives is an integer of 64 bits.
pub fn arithmetic_gives_integers()
    ensures { (operation : Operation) (left right number : ℤ) → arithmetic operation left right ≡ Gives number → FitsSigned w64 number }
{}

/// A run is the goal's trace at each depth of calls that is greater than the limit, up to the limit of steps.
pub fn run_at_any_depth()
    ensures { (program : Program) (goal : Node) (limit depth : ℕ) → limit < depth → run program goal limit ≡ cut limit (node_trace program (call_trace program depth) goal []) }
{}

/// No goal is both yes and no at a stage, and what it is it stays at each later stage.
pub fn truth_by_stages()
    ensures apart { (program : Program) (stage : ℕ) (outside : Outside) (goal : Node) (values : Assignment) → YesAt program stage outside goal values → NoAt program stage outside goal values → ⊥ }
    ensures yes_stays { (program : Program) (stage further : ℕ) (outside : Outside) (goal : Node) (values : Assignment) → YesAt program stage outside goal values → YesAt program (further + stage) outside goal values }
    ensures no_stays { (program : Program) (stage further : ℕ) (outside : Outside) (goal : Node) (values : Assignment) → NoAt program stage outside goal values → NoAt program (further + stage) outside goal values }
{}
