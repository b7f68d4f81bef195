//! Goals with new variables.
ghost use Rattle.std.specs.Prelude.{◌≡◌, ◌∷◌, [], ◌++◌, ◌≤◌, length, map, IfOk, OnOk};
ghost use Rattle.merc_bodies.specs.Numbering.{new_number, IsInHand};
ghost use Rattle.merc_goal_tree.specs.Roots.{arity_of, joined};
ghost use Rattle.merc_bodies.specs.Renamed.{renamed, renamed_goal};
ghost use Rattle.merc_bodies.specs.Rebuilding.{renamed_root};

use crate::numbering::Numbering;
use merc_base::{NoMemory, Sequence, Span};
use merc_goal_tree::{NodeRef, Nodes, Root, SimpleGoal, Var, Vars};
use std::alloc::Global;

/// Puts a goal with new variables behind others.
pub(crate) fn push_renamed(
    alloc: Global,
    numbering: &Numbering,
    form: &NodeRef<'_>,
    nodes: &mut Nodes,
) -> Result<(), NoMemory>
    requires { IsInHand numbering.now }
    ensures { OnOk result (nodes.new ≡ nodes.old ++ renamed (new_number numbering.now) form.now ∷ []) }
{
    for index in 0..form.part_count() {
        match form.part(index) {
            Some((root, span)) => push_part(alloc, numbering, root, span, nodes)?,
            None => unreachable!(),
        }
    }
    Ok(())
}

// Puts a part behind the goals, of which it joins the last ones.
fn push_part(
    alloc: Global,
    numbering: &Numbering,
    root: &Root,
    span: Span,
    nodes: &mut Nodes,
) -> Result<(), NoMemory>
    requires in_hand { IsInHand numbering.now }
    requires there { arity_of root.now ≤ length nodes.old }
    ensures { OnOk result (nodes.new ≡ joined (renamed_root (new_number numbering.now) root.now) span nodes.old) }
{
    match root {
        Root::Simple(goal) => nodes.push(new_goal(alloc, numbering, goal)?, span),
        Root::Conjunction(count) => nodes.conjoin(*count, span),
        Root::Parallel(count) => nodes.conjoin_parallel(*count, span),
        Root::Disjunction(count) => nodes.disjoin(*count, span),
        Root::Conditional => nodes.conditional(span),
        Root::Negation => nodes.negate(span),
        Root::Quantified(own) => {
            nodes.quantify(new_variables(alloc, numbering, own.as_slice())?, span)
        }
    }
}

// A goal that holds no others with new variables.
fn new_goal(alloc: Global, numbering: &Numbering, goal: &SimpleGoal) -> Result<SimpleGoal, NoMemory>
    requires { IsInHand numbering.now }
    ensures { IfOk result (λ new. new ≡ renamed_goal (new_number numbering.now) goal.now) }
{
    Ok(match goal {
        SimpleGoal::True => SimpleGoal::True,
        SimpleGoal::Fail => SimpleGoal::Fail,
        SimpleGoal::Same(one, other) => SimpleGoal::Same(numbering.of(*one), numbering.of(*other)),
        SimpleGoal::Shape(variable, symbol, arguments) => SimpleGoal::Shape(
            numbering.of(*variable),
            *symbol,
            new_variables(alloc, numbering, arguments.as_slice())?,
        ),
        SimpleGoal::Arithmetic(operation, result, left, right) => SimpleGoal::Arithmetic(
            *operation,
            numbering.of(*result),
            numbering.of(*left),
            numbering.of(*right),
        ),
        SimpleGoal::Compare(comparison, left, right) => {
            SimpleGoal::Compare(*comparison, numbering.of(*left), numbering.of(*right))
        }
        SimpleGoal::Raise(text) => SimpleGoal::Raise(numbering.of(*text)),
        SimpleGoal::Call(predicate, arguments) => SimpleGoal::Call(
            *predicate,
            new_variables(alloc, numbering, arguments.as_slice())?,
        ),
    })
}

/// The new numbers of variables.
pub(crate) fn new_variables(
    alloc: Global,
    numbering: &Numbering,
    variables: &[Var],
) -> Result<Vars, NoMemory>
    requires { IsInHand numbering.now }
    ensures { IfOk result (λ new. new ≡ map (new_number numbering.now) variables.now) }
{
    let mut new = Sequence::new(alloc);
    for variable in variables {
        new.push(numbering.of(*variable))?;
    }
    Ok(new)
}
