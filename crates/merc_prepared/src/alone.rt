//! A module and a goal that is asked behind it are compiled and loaded as they are, with no goal split: nobody is met.
ghost use Rattle.std.specs.Prelude.{IfOk};
ghost use Rattle.merc_prepared.specs.Alone.{IsCompiledAlone};

use merc_base::NoMemory;
use merc_gen::generate;
use merc_goal_tree::Vars;
use merc_graded_tree::{NodeRef, Nodes};
use merc_load::{Loaded, load};
use merc_tree::PredDecl;
use std::alloc::Global;

/// The code of a goal that is asked over a module with these predicates, whose answers give these variables values, with `&`
/// compiled as `,`. The trees are those of each predicate in each of its modes, both in order. It takes time and memory of the
/// order of the trees and the goal.
///
/// # Errors
///
/// `NoMemory` where memory was refused.
pub fn prepare_alone(
    alloc: Global,
    predicates: &[PredDecl],
    trees: &Nodes,
    goal: &NodeRef<'_>,
    answers: Vars,
) -> Result<Loaded, NoMemory>
    ensures { IfOk result (IsCompiledAlone predicates.now trees.now goal.now answers) }
{
    let code = generate(alloc, predicates, trees, goal, answers)?;
    load(alloc, code)
}
