//! A module and a goal that is asked behind it are split, planned, compiled and loaded.
ghost use Rattle.std.specs.Prelude.{◌≡◌, [], ◌∷◌, ◌++◌, length, IfOk};
ghost use Rattle.merc_par_split.specs.Split.{split, all_split};
ghost use Rattle.merc_par_split.specs.Sites.{sites, all_sites};
ghost use Rattle.merc_graded_tree.specs.Nodes.{Node};
ghost use Rattle.merc_prepared.specs.Compiled.{IsCompiled, IsSplitLoaded};

use merc_base::{NoMemory, Sequence};
use merc_gen::generate;
use merc_goal_tree::Vars;
use merc_graded_tree::{NodeRef, Nodes};
use merc_load::{Loaded, load};
use merc_par_split::{Split, split};
use merc_plan::Plan;
use merc_tree::PredDecl;
use std::alloc::Global;

/// What workers need of what is asked.
#[derive(Drop)]
pub struct Prepared {
    /// The code of the module's procedures, of their conjuncts, and of the goal.
    pub program: Loaded,
    /// What stands at the sites of the module and, behind them, of the goal.
    pub plan: Plan,
}

// A module and a goal with their waits, signals and sites.
#[derive(Drop)]
struct SplitProgram {
    // the trees of the module, and the sites of the module and of the goal
    module: Split,
    // the goal's tree alone
    goal: Nodes,
}

/// Prepares a goal that is asked over a module with these predicates, whose answers give these variables values. The trees are
/// those of each predicate in each of its modes, both in order. It takes time and memory of the order of the trees and the
/// goal, but where waits and signals are put in: there it takes that of `merc_par_split`.
///
/// # Errors
///
/// `NoMemory` where memory was refused.
pub fn prepare(
    alloc: Global,
    predicates: &[PredDecl],
    trees: &Nodes,
    goal: &NodeRef<'_>,
    answers: Vars,
) -> Result<Prepared, NoMemory>
    ensures plan { IfOk result (λ made. made.plan ≡ all_sites (trees.now ++ goal.now ∷ [])) }
    ensures program { IfOk result (λ made. IsCompiled predicates.now trees.now goal.now answers made.program) }
{
    let all = split_with(alloc, trees, goal)?;
    let plan = Plan::of(alloc, &all.module);
    let program = load_split(alloc, predicates, &all.module.trees, &all.goal, answers);
    drop(all);
    Ok(Prepared {
        program: program?,
        plan: plan?,
    })
}

// Splits the trees of a module and of a goal, whose sites have their numbers behind the module's.
fn split_with(alloc: Global, trees: &Nodes, goal: &NodeRef<'_>) -> Result<SplitProgram, NoMemory>
    ensures trees { IfOk result (λ all. all.module.trees ≡ all_split 0 trees.now) }
    ensures sites { IfOk result (λ all. all.module.sites ≡ all_sites trees.now ++ sites goal.now) }
    ensures goal { IfOk result (λ all. all.goal ≡ split (length (all_sites trees.now)) goal.now ∷ []) }
{
    let Split { trees, sites } = Split::of(alloc, trees)?;
    let mut sites = sites.into_vec();
    let mut alone = Nodes::new(alloc);
    split(alloc, goal, &mut alone, &mut sites)?;
    let sites = Sequence::from_vec(sites);
    Ok(SplitProgram {
        module: Split { trees, sites },
        goal: alone,
    })
}

// Compiles and loads split trees, of which the goal's is alone in its list.
fn load_split(
    alloc: Global,
    predicates: &[PredDecl],
    trees: &Nodes,
    goal: &Nodes,
    answers: Vars,
) -> Result<Loaded, NoMemory>
    requires { length goal.now ≡ 1 }
    ensures { IfOk result (λ program. (only : Node) → goal.now ≡ only ∷ [] → IsSplitLoaded predicates.now trees.now only answers program) }
{
    let goal = match goal.get(0) {
        Some(goal) => goal,
        None => unreachable!(),
    };
    let code = generate(alloc, predicates, trees, &goal, answers)?;
    load(alloc, code)
}
