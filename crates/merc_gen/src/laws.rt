//! Laws of compiled code.
ghost use Rattle.std.specs.Prelude.{◌≡◌, ℕ, List, length};
ghost use Rattle.merc_tree.specs.declared.declarations.PredDecl.{PredDecl};
ghost use Rattle.merc_graded_tree.specs.declared.basic.Procedure.{Procedure};
ghost use Rattle.merc_graded_tree.specs.Nodes.{Node};
ghost use Rattle.merc_meaning.specs.Runs.{Program};
ghost use Rattle.merc_meaning.specs.Programs.{program_with};
ghost use Rattle.merc_course.specs.Course.{RunCourse};
ghost use Rattle.merc_course.specs.Alone.{MeetsNobody, ProgramMeetsNobody};
ghost use Rattle.merc_par_split.specs.Split.{split, all_split};
ghost use Rattle.merc_par_split.specs.Sites.{all_sites};
ghost use Rattle.merc_code.specs.Steps.{Codes, State};
ghost use Rattle.merc_code.specs.Meaning.{Yields};
ghost use Rattle.merc_gen.specs.Generated.{codes_of, query_code};
ghost use Rattle.merc_gen.specs.Following.{Follows, FollowsRun};
ghost use Rattle.merc_gen.specs.Sites.{Sites, conjuncts_at, forked_with};
ghost use Rattle.merc_gen.specs.Calling.{HasNoFork, ReachesNoFork};
ghost use Rattle.merc_gen.specs.Sited.{IsSited, IsSitedProgram};

/// Of every program and goal the code does what they do beside others, at every limit of steps and whatever it is told, where
/// the conjuncts that they fork stand at their sites.
pub fn code_means_the_course()
    ensures { (program : Program) (sites : Sites) → IsSitedProgram sites program → (goal : Node) → IsSited sites goal → (variables : List ℕ) → Follows program goal variables (codes_of program sites) (query_code program goal variables) }
{}

/// The same of code that gives each procedure and each site what the program's code gives it.
pub fn generated_code_means_the_course()
    ensures { (program : Program) (sites : Sites) → IsSitedProgram sites program → (goal : Node) → IsSited sites goal → (variables : List ℕ) (codes : Codes) → ((procedure : Procedure) → codes.procedures procedure ≡ (codes_of program sites).procedures procedure) → ((site : ℕ) → codes.conjuncts site ≡ (codes_of program sites).conjuncts site) → Follows program goal variables codes (query_code program goal variables) }
{}

/// Of a program and a goal that meet nobody the code means the strict sequential run, at every limit of steps.
pub fn code_means_the_run()
    ensures { (program : Program) → ProgramMeetsNobody program → (goal : Node) → MeetsNobody goal → (sites : Sites) (variables : List ℕ) → FollowsRun program goal variables (codes_of program sites) (query_code program goal variables) }
{}

/// The same of code that gives each procedure what the program's code gives it.
pub fn generated_code_means_the_run()
    ensures { (program : Program) → ProgramMeetsNobody program → (goal : Node) → MeetsNobody goal → (sites : Sites) (variables : List ℕ) (codes : Codes) → ((procedure : Procedure) → codes.procedures procedure ≡ (codes_of program sites).procedures procedure) → ((site : ℕ) → codes.conjuncts site ≡ (codes_of program sites).conjuncts site) → FollowsRun program goal variables codes (query_code program goal variables) }
{}

/// A state yields one course.
pub fn states_yield_one_course()
    ensures { (codes : Codes) (state : State) (one other : RunCourse) → Yields codes state one → Yields codes state other → one ≡ other }
{}

/// The conjuncts of split trees, and of a split goal behind them, stand at their sites.
pub fn split_trees_are_sited()
    ensures program { (predicates : List PredDecl) (trees : List Node) (goal : Node) → IsSitedProgram (conjuncts_at (forked_with (all_split 0 trees) (split (length (all_sites trees)) goal))) (program_with predicates (all_split 0 trees)) }
    ensures goal { (trees : List Node) (goal : Node) → IsSited (conjuncts_at (forked_with (all_split 0 trees) (split (length (all_sites trees)) goal))) (split (length (all_sites trees)) goal) }
{}

/// Where neither a goal nor a procedure that it can reach by calls has an `&`, its code can reach no fork.
pub fn code_without_forks_reaches_none()
    ensures { (program : Program) (sites : Sites) (goal : Node) → HasNoFork program goal → (variables : List ℕ) → ReachesNoFork (codes_of program sites) (query_code program goal variables) }
{}
