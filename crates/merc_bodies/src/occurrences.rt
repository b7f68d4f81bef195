//! The variables of a clause that are no arguments, as they occur.
ghost use Rattle.std.specs.Prelude.{◌≡◌, ◌++◌, ◌∷◌, [], IfOk, OnOk};
ghost use Rattle.merc_goal_tree.specs.Variables.{variables_of};
ghost use Rattle.merc_bodies.specs.Occurrences.{own_among, own_in, root_variables};

use merc_base::NoMemory;
use merc_goal_tree::{NodeRef, Root, SimpleGoal, Var};
use std::alloc::Global;

/// The variables that are no arguments, each as often as it occurs.
pub(crate) fn occurrences(
    alloc: Global,
    arity: usize,
    form: &NodeRef<'_>,
) -> Result<Vec<Var>, NoMemory>
    ensures { IfOk result (λ own. own.items ≡ own_among arity form.now) }
{
    let mut own = Vec::new(alloc);
    for index in 0..form.part_count() {
        match form.part(index) {
            Some((root, _)) => add_root(&mut own, arity, root)?,
            None => unreachable!(),
        }
    }
    Ok(own)
}

fn add_root(own: &mut Vec<Var>, arity: usize, root: &Root) -> Result<(), NoMemory>
    ensures { OnOk result (own.new.items ≡ own.old.items ++ own_in arity (root_variables root.now)) }
{
    match root {
        Root::Simple(goal) => add_goal(own, arity, goal),
        _ => Ok(()),
    }
}

fn add_goal(own: &mut Vec<Var>, arity: usize, goal: &SimpleGoal) -> Result<(), NoMemory>
    ensures { OnOk result (own.new.items ≡ own.old.items ++ own_in arity (variables_of goal.now)) }
{
    match goal {
        SimpleGoal::True | SimpleGoal::Fail => Ok(()),
        SimpleGoal::Same(one, other) => add_variables(own, arity, &[*one, *other]),
        SimpleGoal::Shape(variable, _, arguments) => {
            add_variable(own, arity, *variable)?;
            add_variables(own, arity, arguments.as_slice())
        }
        SimpleGoal::Arithmetic(_, result, left, right) => {
            add_variables(own, arity, &[*result, *left, *right])
        }
        SimpleGoal::Compare(_, left, right) => add_variables(own, arity, &[*left, *right]),
        SimpleGoal::Raise(text) => add_variable(own, arity, *text),
        SimpleGoal::Call(_, arguments) => add_variables(own, arity, arguments.as_slice()),
    }
}

fn add_variables(own: &mut Vec<Var>, arity: usize, variables: &[Var]) -> Result<(), NoMemory>
    ensures { OnOk result (own.new.items ≡ own.old.items ++ own_in arity variables.now) }
{
    for variable in variables {
        add_variable(own, arity, *variable)?;
    }
    Ok(())
}

fn add_variable(own: &mut Vec<Var>, arity: usize, variable: Var) -> Result<(), NoMemory>
    ensures { OnOk result (own.new.items ≡ own.old.items ++ own_in arity (variable ∷ [])) }
{
    if arity <= variable.number() {
        own.push(variable)?;
    }
    Ok(())
}
