//! The heads of clauses.
ghost use Rattle.std.specs.Prelude.{◌≡◌, ◌≤◌, ◌+◌, ◌++◌, reverse, OnOk, IfOk};
ghost use Rattle.merc_tree.specs.Shape.{shape_of};
ghost use Rattle.merc_goals.specs.Numbers.{first_limit};
ghost use Rattle.merc_value.specs.Text.{is_blank};
ghost use Rattle.merc_scopes.specs.Scopes.{occurrences};
ghost use Rattle.merc_flat_form.specs.Levels.{scope_of};
ghost use Rattle.merc_flat_form.specs.FlatForm.{argument_terms, head_goals, head_scope};
ghost use Rattle.merc_flat_form.specs.HeadTasks.{head_part, head_same, head_task, head_tasks, named};

use crate::numbering::numbered_arguments;
use crate::scope_stack::ScopeStack;
use crate::tasks::{Task, give, perform, put, variable_of};
use merc_base::{Name, Names, NoMemory};
use merc_goal_tree::{SimpleGoal, Var};
use merc_goals::Numbered;
use merc_scopes::Occurrence;
use merc_tree::{Shape, TermRef};
use merc_value::is_blank;
use std::alloc::Global;

/// What the variables of a head stand for, whose number among the parts of its clause is `at`.
pub(crate) fn head_scope(
    alloc: Global,
    names: &Names,
    at: usize,
    head: &TermRef<'_>,
) -> Result<Vec<Occurrence>, NoMemory>
    requires { at ≤ first_limit }
    ensures { IfOk result (λ found. found.items ≡ head_scope (is_blank names.now) 0 (at + 2) (argument_terms head.now)) }
{
    let whole = Numbered::first(head.copy(), at);
    let arguments = numbered_arguments(alloc, &whole)?;
    let mut found = Vec::new(alloc);
    for (number, argument) in arguments.iter().enumerate() {
        push_part(alloc, names, number, argument, &mut found)?;
    }
    Ok(found)
}

/// The goals that the arguments of a head become.
pub(crate) fn head_goals(
    alloc: Global,
    stack: &ScopeStack,
    names: &Names,
    at: usize,
    head: &TermRef<'_>,
) -> Result<Vec<SimpleGoal>, NoMemory>
    requires { at ≤ first_limit }
    ensures { IfOk result (λ goals. goals.items ≡ head_goals (is_blank names.now) (scope_of stack.now) 0 (at + 2) (argument_terms head.now)) }
{
    let whole = Numbered::first(head.copy(), at);
    let arguments = numbered_arguments(alloc, &whole)?;
    let mut tasks = Vec::new(alloc);
    plan_head(stack, names, &mut tasks, arguments)?;
    perform(alloc, stack, names, tasks)
}

// What the variables of the argument of this number stand for.
fn push_part(
    alloc: Global,
    names: &Names,
    number: usize,
    argument: &Numbered<'_>,
    found: &mut Vec<Occurrence>,
) -> Result<(), NoMemory>
    ensures { OnOk result (found.new.items ≡ found.old.items ++ head_part (is_blank names.now) (shape_of argument.now.term) number argument.now) }
{
    match argument.term.shape() {
        Shape::Variable(name) => push_variable(names, name, number, found),
        _ => push_occurrences(alloc, names, argument, found),
    }
}

// A variable that stands for this number, unless it is `_`.
fn push_variable(
    names: &Names,
    name: Name,
    at: usize,
    found: &mut Vec<Occurrence>,
) -> Result<(), NoMemory>
    ensures { OnOk result (found.new.items ≡ found.old.items ++ named (is_blank names.now) name at) }
{
    if !is_blank(names, name) {
        found.push(Occurrence { name, at })?;
    }
    Ok(())
}

// The variables of a term, in the order of the text.
fn push_occurrences(
    alloc: Global,
    names: &Names,
    whole: &Numbered<'_>,
    found: &mut Vec<Occurrence>,
) -> Result<(), NoMemory>
    ensures { OnOk result (found.new.items ≡ found.old.items ++ occurrences (is_blank names.now) whole.now.at whole.now.term) }
{
    let mut left = Vec::new(alloc);
    left.push(whole.copy())?;
    while let Some(part) = left.pop() {
        match part.term.shape() {
            Shape::Variable(name) => push_variable(names, name, part.at, found)?,
            _ => push_reversed(&mut left, numbered_arguments(alloc, &part)?)?,
        }
    }
    Ok(())
}

// Puts terms on a stack, so that the first comes next.
fn push_reversed<'a>(
    left: &mut Vec<Numbered<'a>>,
    arguments: Vec<Numbered<'a>>,
) -> Result<(), NoMemory>
    ensures { OnOk result (left.new.items ≡ left.old.items ++ reverse arguments.entry.items) }
{
    let mut rest = arguments;
    while let Some(last) = rest.pop() {
        left.push(last)?;
    }
    Ok(())
}

// Each argument of a head is its variable, or gets the value of its term.
fn plan_head<'a>(
    stack: &ScopeStack,
    names: &Names,
    tasks: &mut Vec<Task<'a>>,
    arguments: Vec<Numbered<'a>>,
) -> Result<(), NoMemory>
    ensures { OnOk result (tasks.new.items ≡ tasks.old.items ++ head_tasks (is_blank names.now) (scope_of stack.now) 0 arguments.entry.items) }
{
    let mut rest = arguments;
    while let Some(last) = rest.pop() {
        plan_argument(stack, names, tasks, rest.len(), last)?;
    }
    Ok(())
}

fn plan_argument<'a>(
    stack: &ScopeStack,
    names: &Names,
    tasks: &mut Vec<Task<'a>>,
    number: usize,
    argument: Numbered<'a>,
) -> Result<(), NoMemory>
    ensures { OnOk result (tasks.new.items ≡ tasks.old.items ++ head_task (is_blank names.now) (scope_of stack.now) (shape_of argument.entry.term) number argument.entry) }
{
    match argument.term.shape() {
        Shape::Variable(name) => plan_variable(stack, names, tasks, number, name),
        _ => give(tasks, Var::new(number), argument),
    }
}

// The argument of this number is the variable of this name, unless it is that variable's first place.
fn plan_variable(
    stack: &ScopeStack,
    names: &Names,
    tasks: &mut Vec<Task<'_>>,
    number: usize,
    name: Name,
) -> Result<(), NoMemory>
    ensures { OnOk result (tasks.new.items ≡ tasks.old.items ++ head_same (is_blank names.now) (scope_of stack.now) name number) }
{
    if is_blank(names, name) {
        return Ok(());
    }
    let variable = variable_of(stack, name);
    if variable.number() == number {
        return Ok(());
    }
    put(tasks, SimpleGoal::Same(Var::new(number), variable))
}
