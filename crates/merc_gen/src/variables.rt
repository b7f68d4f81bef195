//! The variables that conjuncts use.
ghost use Rattle.std.specs.Prelude.{◌≡◌, ◌++◌, [], ◌∷◌, IfOk, OnOk};
ghost use Rattle.merc_graded_tree.specs.Nodes.{goal_of};
ghost use Rattle.merc_graded_tree.specs.Variables.{variables_of};
ghost use Rattle.merc_course.specs.Variables.{node_variables};
ghost use Rattle.merc_gen.specs.Walking.{own_variables};

use crate::walking::push_parts;
use merc_base::{NoMemory, Sequence};
use merc_goal_tree::{Var, Vars};
use merc_graded_tree::{BasicGoal, NodeRef, NodeView};
use std::alloc::Global;

/// The variables of a goal, each as often as it occurs.
///
/// # Errors
///
/// `NoMemory` where memory was refused.
pub(crate) fn variables_in(alloc: Global, goal: &NodeRef<'_>) -> Result<Vars, NoMemory>
    ensures { IfOk result (λ variables. variables ≡ node_variables goal.now) }
{
    let mut left = Vec::new(alloc);
    let mut variables = Sequence::new(alloc);
    let done = put_variables(goal, &mut left, &mut variables);
    // (a call, since it costs much to prove what is dropped here)
    drop(left);
    done.and(Ok(variables))
}

// Puts the variables of a goal into an empty list, where nothing is left to be looked at.
fn put_variables<'a>(
    goal: &NodeRef<'a>,
    left: &mut Vec<NodeRef<'a>>,
    variables: &mut Vars,
) -> Result<(), NoMemory>
    requires left { left.old.items ≡ [] }
    requires variables { variables.old ≡ [] }
    ensures { OnOk result (variables.new ≡ node_variables goal.now) }
{
    left.push(goal.copy())?;
    while let Some(next) = left.pop() {
        put_own_variables(&next, variables)?;
        push_parts(&next, left)?;
    }
    Ok(())
}

// Puts the variables that a goal has besides those of the goals that it joins.
fn put_own_variables(goal: &NodeRef<'_>, variables: &mut Vars) -> Result<(), NoMemory>
    ensures { OnOk result (variables.new ≡ variables.old ++ own_variables (goal_of goal.now)) }
{
    match goal.view() {
        NodeView::Basic(basic) => put_basic_variables(basic, variables),
        NodeView::Switch(variable, _, _) => variables.push(variable),
        NodeView::Conjunction(_, _) => Ok(()),
        NodeView::Disjunction(_) => Ok(()),
        NodeView::Conditional(_, _, _) => Ok(()),
        NodeView::Negation(_) => Ok(()),
        NodeView::Quantified(_, _) => Ok(()),
    }
}

// Puts the variables of a goal that holds no others.
fn put_basic_variables(goal: &BasicGoal, variables: &mut Vars) -> Result<(), NoMemory>
    ensures { OnOk result (variables.new ≡ variables.old ++ variables_of goal.now) }
{
    match goal {
        BasicGoal::True => Ok(()),
        BasicGoal::Fail => Ok(()),
        BasicGoal::Raise(variable) => variables.push(*variable),
        BasicGoal::Wait(variable, _) => variables.push(*variable),
        BasicGoal::Signal(variable, _) => variables.push(*variable),
        BasicGoal::Assign(one, other) => put_two(*one, *other, variables),
        BasicGoal::Test(one, other) => put_two(*one, *other, variables),
        BasicGoal::Compare(_, one, other) => put_two(*one, *other, variables),
        BasicGoal::Arithmetic(_, result, one, other) => {
            variables.push(*result)?;
            put_two(*one, *other, variables)
        }
        BasicGoal::Build(whole, _, arguments) => put_whole(*whole, arguments, variables),
        BasicGoal::Split(whole, _, arguments) => put_whole(*whole, arguments, variables),
        BasicGoal::Call(_, arguments) => put_all(arguments.as_slice(), variables),
    }
}

fn put_two(one: Var, other: Var, variables: &mut Vars) -> Result<(), NoMemory>
    ensures { OnOk result (variables.new ≡ variables.old ++ one ∷ other ∷ []) }
{
    variables.push(one)?;
    variables.push(other)
}

fn put_whole(whole: Var, arguments: &Vars, variables: &mut Vars) -> Result<(), NoMemory>
    ensures { OnOk result (variables.new ≡ variables.old ++ whole ∷ arguments.now) }
{
    variables.push(whole)?;
    put_all(arguments.as_slice(), variables)
}

fn put_all(others: &[Var], variables: &mut Vars) -> Result<(), NoMemory>
    ensures { OnOk result (variables.new ≡ variables.old ++ others.now) }
{
    for variable in others {
        variables.push(*variable)?;
    }
    Ok(())
}
