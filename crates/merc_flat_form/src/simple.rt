//! Goals without sub-goals.
ghost use Rattle.std.specs.Prelude.{◌≡◌, ◌++◌, ◌∷◌, [], ℕ, List, IfOk, OnOk};
ghost use Rattle.merc_goals.specs.Numbers.{Fits};
ghost use Rattle.merc_name_resolution.specs.Known.{callee_in};
ghost use Rattle.merc_value.specs.Text.{is_blank};
ghost use Rattle.merc_scopes.specs.Scopes.{at_of};
ghost use Rattle.merc_scopes.specs.declared.occurrence.Occurrence.{Occurrence as SeenOccurrence};
ghost use Rattle.merc_flat_form.specs.Levels.{or_else, scope_of, shown};
ghost use Rattle.merc_flat_form.specs.FlatForm.{simple};
ghost use Rattle.merc_flat_form.specs.Steps.{call_goals, kept, simple_goals};

use crate::closing::make_one;
use crate::naming::{called, compared, equal};
use crate::opening::enter;
use crate::scope_stack::ScopeStack;
use merc_base::{Names, NoMemory, Span};
use merc_goal_tree::{Nodes, SimpleGoal};
use merc_goals::{Entry, Form};
use merc_name_resolution::Known;
use merc_scopes::Occurrence;
use merc_tree::{Shape, TermRef};
use std::alloc::Global;

/// Puts the goals that a goal without sub-goals becomes behind others, all of them or one.
pub(crate) fn put_simple(
    alloc: Global,
    entry: &Entry<'_>,
    found: &[Occurrence],
    keeps: bool,
    stack: &mut ScopeStack,
    known: &Known<'_>,
    names: &Names,
    nodes: &mut Nodes,
) -> Result<(), NoMemory>
    ensures same { OnOk result (stack.new ≡ stack.old) }
    ensures nodes { OnOk result ((scope : List SeenOccurrence) → ((name : ℕ) → at_of name scope ≡ or_else (shown name stack.old) (at_of name found.now)) → nodes.new ≡ nodes.old ++ kept keeps entry.now.span (simple entry.now.span (simple_goals (is_blank names.now) (callee_in known.now) entry.now.form entry.now.at scope))) }
{
    let start = nodes.len();
    enter(stack, found)?;
    let goals = simple_goals(alloc, entry, stack, known, names)?;
    stack.leave();
    put_all(nodes, goals, entry.span)?;
    if keeps {
        return Ok(());
    }
    make_one(nodes, start, entry.span)
}

// The goals that a goal without sub-goals becomes.
fn simple_goals(
    alloc: Global,
    entry: &Entry<'_>,
    stack: &ScopeStack,
    known: &Known<'_>,
    names: &Names,
) -> Result<Vec<SimpleGoal>, NoMemory>
    ensures { IfOk result (λ goals. goals.items ≡ simple_goals (is_blank names.now) (callee_in known.now) entry.now.form entry.now.at (scope_of stack.now)) }
{
    let at = entry.at;
    match &entry.form {
        Form::Truth => only(alloc, SimpleGoal::True),
        Form::Failure => only(alloc, SimpleGoal::Fail),
        Form::Equal(left, right) => equal(alloc, stack, names, at, left, right),
        Form::Compared(name, left, right) => {
            compared(alloc, stack, names, at, *name, left, right)
        }
        Form::Called(term) => call_goals(alloc, term, at, stack, known, names),
        _ => Ok(Vec::new(alloc)),
    }
}

fn only(alloc: Global, goal: SimpleGoal) -> Result<Vec<SimpleGoal>, NoMemory>
    ensures { IfOk result (λ goals. goals.items ≡ goal ∷ []) }
{
    let mut goals = Vec::new(alloc);
    goals.push(goal)?;
    Ok(goals)
}

// The goals that a call becomes.
fn call_goals(
    alloc: Global,
    term: &TermRef<'_>,
    at: usize,
    stack: &ScopeStack,
    known: &Known<'_>,
    names: &Names,
) -> Result<Vec<SimpleGoal>, NoMemory>
    requires { Fits at term.now }
    ensures { IfOk result (λ goals. goals.items ≡ call_goals (is_blank names.now) (callee_in known.now) at (scope_of stack.now) term.now) }
{
    match term.shape() {
        Shape::Application {
            name,
            qualifier,
            arity,
        } => {
            let callee = known.callee(name, qualifier, arity);
            called(alloc, stack, names, at, callee, term)
        }
        _ => Ok(Vec::new(alloc)),
    }
}

/// Puts goals behind others.
pub(crate) fn put_all(nodes: &mut Nodes, goals: Vec<SimpleGoal>, span: Span) -> Result<(), NoMemory>
    ensures { OnOk result (nodes.new ≡ nodes.old ++ simple span goals.items) }
{
    for goal in goals {
        nodes.push(goal, span)?;
    }
    Ok(())
}
