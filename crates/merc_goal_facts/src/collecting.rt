//! The variables of a body as they occur in it.
ghost use Rattle.std.specs.Prelude.{◌≡◌, ◌++◌, IfOk, OnOk};
ghost use Rattle.merc_goal_tree.specs.Variables.{variables, variables_of};
ghost use Rattle.merc_goal_facts.specs.Occurring.{root_variables};

use crate::occurrences::Occurrences;
use merc_base::NoMemory;
use merc_goal_tree::{NodeRef, Root, SimpleGoal, Var};
use std::alloc::Global;

/// The head variables, and behind them the variables of a goal as they occur in it.
///
/// # Errors
///
/// `NoMemory` where memory was refused.
pub fn occurrences_of(
    alloc: Global,
    heads: &[Var],
    goal: &NodeRef<'_>,
) -> Result<Occurrences, NoMemory>
    ensures { IfOk result (λ all. all ≡ heads.now ++ variables goal.now) }
{
    let mut all = Occurrences::new(alloc);
    all.push_all(heads)?;
    for index in 0..goal.part_count() {
        if let Some((root, _)) = goal.part(index) {
            push_root(&mut all, root)?;
        }
    }
    Ok(all)
}

// Puts the variables of a part behind the others.
fn push_root(all: &mut Occurrences, root: &Root) -> Result<(), NoMemory>
    ensures { OnOk result (all.new ≡ all.old ++ root_variables root.now) }
{
    match root {
        Root::Simple(goal) => push_goal(all, goal),
        _ => Ok(()),
    }
}

fn push_goal(all: &mut Occurrences, goal: &SimpleGoal) -> Result<(), NoMemory>
    ensures { OnOk result (all.new ≡ all.old ++ variables_of goal.now) }
{
    match goal {
        SimpleGoal::True | SimpleGoal::Fail => Ok(()),
        SimpleGoal::Same(one, other) => all.push_all(&[*one, *other]),
        SimpleGoal::Shape(variable, _, arguments) => {
            all.push(*variable)?;
            all.push_all(arguments.as_slice())
        }
        SimpleGoal::Arithmetic(_, result, left, right) => all.push_all(&[*result, *left, *right]),
        SimpleGoal::Compare(_, left, right) => all.push_all(&[*left, *right]),
        SimpleGoal::Raise(text) => all.push_all(&[*text]),
        SimpleGoal::Call(_, arguments) => all.push_all(arguments.as_slice()),
    }
}
