//! Laws of courses.
ghost use Rattle.std.specs.Prelude.{◌≡◌, ◌<◌, ◌≤◌, ℕ, List, [], None, if◌then◌else◌};
ghost use Rattle.merc_graded_tree.specs.Nodes.{Node};
ghost use Rattle.merc_graded_tree.specs.Variables.{in_node};
ghost use Rattle.merc_meaning.specs.Trace.{Env, Trace, Run, after as trace_after, each as trace_each, taken_back as trace_taken_back, first_alone as trace_first_alone, choose as trace_choose, negated as trace_negated, cut as trace_cut};
ghost use Rattle.merc_meaning.specs.Steps.{value_at};
ghost use Rattle.merc_meaning.specs.Runs.{Program, run, node_trace, call_trace};
ghost use Rattle.merc_meaning.specs.Shown.{shown as run_shown};
ghost use Rattle.merc_course.specs.Course.{Reply, GoalCourse, RunCourse, whole, replied, after, each, taken_back, first_alone, choose, negated, closed, cut};
ghost use Rattle.merc_course.specs.Known.{known};
ghost use Rattle.merc_course.specs.Shown.{shown};
ghost use Rattle.merc_course.specs.Variables.{node_variables, only};
ghost use Rattle.merc_course.specs.Courses.{node_course, call_course, course};
ghost use Rattle.merc_course.specs.Alone.{MeetsNobody, ProgramMeetsNobody};

/// Courses that meet nobody are joined, changed and cut as traces are; they are the same whatever is told.
pub fn traces_are_courses()
    ensures in_order { (first other : Trace) → whole (trace_after first other) ≡ after (whole first) (whole other) }
    ensures each_answer { (go_on : Env → Trace) (trace : Trace) → whole (trace_each go_on trace) ≡ each (λ env. whole (go_on env)) (whole trace) }
    ensures taken { (change : Env → Env) (trace : Trace) → whole (trace_taken_back change trace) ≡ taken_back change (whole trace) }
    ensures first { (trace : Trace) → whole (trace_first_alone trace) ≡ first_alone (whole trace) }
    ensures chosen { (go_on : Env → Trace) (other condition : Trace) → whole (trace_choose go_on other condition) ≡ choose (λ env. whole (go_on env)) (whole other) (whole condition) }
    ensures denied { (env : Env) (trace : Trace) → whole (trace_negated env trace) ≡ negated env (whole trace) }
    ensures limited { (limit : ℕ) (trace : Trace) → whole (trace_cut limit trace) ≡ cut limit (whole trace) }
    ensures alone { (replies : List Reply) (trace : Trace) → replied replies (whole trace) ≡ whole trace }
    ensures seen { (variables : List ℕ) (events : Run) → whole (run_shown variables events) ≡ shown variables (whole events) }
{}

/// A goal that meets nobody does what it means, in a program whose procedures meet nobody: its course is its trace, and up to
/// a limit of steps it is the strict sequential run.
pub fn goals_alone_do_what_they_mean()
    ensures goals { (program : Program) → ProgramMeetsNobody program → (goal : Node) → MeetsNobody goal → (depth : ℕ) (env : Env) → whole (node_trace program (call_trace program depth) goal env) ≡ node_course program (call_course program depth) goal env }
    ensures runs { (program : Program) → ProgramMeetsNobody program → (goal : Node) → MeetsNobody goal → (limit : ℕ) → whole (run program goal limit) ≡ course program goal limit }
{}

/// What is told to a called body, to a goal that is not entered again, to a negated goal or to a conjunct is told to the course
/// that is made of its own; and so it is where only some variables are shown.
pub fn replies_go_through()
    ensures taken { (replies : List Reply) (change : Env → Env) (inner : GoalCourse) → replied replies (taken_back change inner) ≡ taken_back change (replied replies inner) }
    ensures first { (replies : List Reply) (goal : GoalCourse) → replied replies (first_alone goal) ≡ first_alone (replied replies goal) }
    ensures denied { (replies : List Reply) (env : Env) (goal : GoalCourse) → replied replies (negated env goal) ≡ negated env (replied replies goal) }
    ensures ended { (replies : List Reply) (conjunct : GoalCourse) → replied replies (closed conjunct) ≡ closed (replied replies conjunct) }
    ensures seen { (replies : List Reply) (variables : List ℕ) (goal : RunCourse) → replied replies (shown variables goal) ≡ shown variables (replied replies goal) }
{}

/// The course of a goal is the same at each depth of calls that is greater than the limit, those of its conjuncts with it and
/// whatever it is told.
pub fn course_at_any_depth()
    ensures { (program : Program) (goal : Node) (limit depth : ℕ) → limit < depth → course program goal limit ≡ cut limit (node_course program (call_course program depth) goal []) }
{}

/// What a joined course is up to a limit of steps comes of what its parts are up to this limit.
pub fn courses_are_cut_in_parts()
    ensures in_order { (limit : ℕ) (first other : GoalCourse) → cut limit (after first other) ≡ cut limit (after (known (cut limit first)) (known (cut limit other))) }
    ensures each_answer { (limit : ℕ) (go_on : Env → GoalCourse) (first : GoalCourse) → cut limit (each go_on first) ≡ cut limit (each (λ env. known (cut limit (go_on env))) (known (cut limit first))) }
    ensures taken { (limit : ℕ) (change : Env → Env) (inner : GoalCourse) → cut limit (taken_back change inner) ≡ cut limit (taken_back change (known (cut limit inner))) }
    ensures first { (limit : ℕ) (goal : GoalCourse) → cut limit (first_alone goal) ≡ cut limit (first_alone (known (cut limit goal))) }
    ensures chosen { (limit : ℕ) (go_on : Env → GoalCourse) (other condition : GoalCourse) → cut limit (choose go_on other condition) ≡ cut limit (choose (λ env. known (cut limit (go_on env))) (known (cut limit other)) (known (cut limit condition))) }
    ensures denied { (limit : ℕ) (env : Env) (goal : GoalCourse) → cut limit (negated env goal) ≡ cut limit (negated env (known (cut limit goal))) }
    ensures ended { (limit : ℕ) (conjunct : GoalCourse) → cut limit (closed conjunct) ≡ cut limit (closed (known (cut limit conjunct))) }
{}

/// A course that was cut at a limit is cut again at a lower one as if it had not been.
pub fn lower_limits_cut_alike()
    ensures { (limit lower : ℕ) (goal : GoalCourse) → lower ≤ limit → cut lower goal ≡ cut lower (known (cut limit goal)) }
{}

/// Of a conjunct nothing counts that is behind its first answer.
pub fn conjuncts_end_at_their_first_answer()
    ensures { (conjunct : GoalCourse) → closed (first_alone conjunct) ≡ closed conjunct }
{}

/// A conjunct begins with the values of the variables that occur in it, and no others.
pub fn conjuncts_begin_with_what_they_use()
    ensures { (conjunct : Node) (env : Env) (variable : ℕ) → value_at (only (node_variables conjunct) env) variable ≡ (if in_node conjunct variable then value_at env variable else None) }
{}
