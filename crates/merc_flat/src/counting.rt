//! How many variables a goal has.
ghost use Rattle.std.specs.Prelude.{◌≡◌, ◌+◌, ◌++◌, ◌∷◌, [], ℕ, List, IfOk, OnOk};
ghost use Rattle.merc_flat.specs.Counted.{HasThese, own, root_variables};
ghost use Rattle.merc_goal_tree.specs.Variables.{variables_of};
ghost use Rattle.merc_flat.specs.GoalFaults.{variable_count};

use merc_base::NoMemory;
use merc_goal_tree::{NodeRef, Root, SimpleGoal, Var};
use std::alloc::Global;
use std::collections::BTreeSet;

/// How many variables a goal in flat form has beside the arguments, whose numbers are below `arity`.
///
/// With n occurrences of variables this takes time of the order of n log n.
///
/// # Errors
///
/// `NoMemory` says that memory was refused.
pub(crate) fn other_variables(
    alloc: Global,
    arity: usize,
    goal: &NodeRef<'_>,
) -> Result<usize, NoMemory>
    ensures { IfOk result (λ count. arity + count ≡ variable_count arity goal.now) }
{
    let mut found = BTreeSet::new(alloc);
    for index in 0..goal.part_count() {
        if let Some((root, _)) = goal.part(index) {
            add_root(&mut found, arity, root)?;
        }
    }
    Ok(found.len())
}

// Adds the variables of a part, but for the arguments.
fn add_root(found: &mut BTreeSet<usize>, arity: usize, root: &Root) -> Result<(), NoMemory>
    ensures { OnOk result ((numbers : List ℕ) → HasThese found.old numbers → HasThese found.new (numbers ++ own arity (root_variables root.now))) }
{
    match root {
        Root::Simple(goal) => add_goal(found, arity, goal),
        _ => Ok(()),
    }
}

fn add_goal(found: &mut BTreeSet<usize>, arity: usize, goal: &SimpleGoal) -> Result<(), NoMemory>
    ensures { OnOk result ((numbers : List ℕ) → HasThese found.old numbers → HasThese found.new (numbers ++ own arity (variables_of goal.now))) }
{
    match goal {
        SimpleGoal::True | SimpleGoal::Fail => Ok(()),
        SimpleGoal::Same(one, other) => add_variables(found, arity, &[*one, *other]),
        SimpleGoal::Shape(variable, _, arguments) => {
            add_variable(found, arity, *variable)?;
            add_variables(found, arity, arguments.as_slice())
        }
        SimpleGoal::Arithmetic(_, result, left, right) => {
            add_variables(found, arity, &[*result, *left, *right])
        }
        SimpleGoal::Compare(_, left, right) => add_variables(found, arity, &[*left, *right]),
        SimpleGoal::Raise(text) => add_variable(found, arity, *text),
        SimpleGoal::Call(_, arguments) => add_variables(found, arity, arguments.as_slice()),
    }
}

fn add_variables(
    found: &mut BTreeSet<usize>,
    arity: usize,
    variables: &[Var],
) -> Result<(), NoMemory>
    ensures { OnOk result ((numbers : List ℕ) → HasThese found.old numbers → HasThese found.new (numbers ++ own arity variables.now)) }
{
    for variable in variables {
        add_variable(found, arity, *variable)?;
    }
    Ok(())
}

fn add_variable(found: &mut BTreeSet<usize>, arity: usize, variable: Var) -> Result<(), NoMemory>
    ensures { OnOk result ((numbers : List ℕ) → HasThese found.old numbers → HasThese found.new (numbers ++ own arity (variable ∷ []))) }
{
    let number = variable.number();
    if arity <= number {
        found.insert(number)?;
    }
    Ok(())
}
