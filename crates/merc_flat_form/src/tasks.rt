//! What is to be done for the goals of terms.
ghost use Rattle.std.specs.Prelude.{◌≡◌, ◌≤◌, [], ◌∷◌, ◌++◌, map, OnOk, IfOk, if◌then◌else◌};
ghost use Rattle.merc_goals.specs.Numbers.{number_limit};
ghost use Rattle.merc_value.specs.Text.{is_blank};
ghost use Rattle.merc_flat_form.specs.Levels.{scope_of};
ghost use Rattle.merc_flat_form.specs.FlatForm.{operation_of, variable_of};
ghost use Rattle.merc_flat_form.specs.Numbering.{is_negative};
ghost use Rattle.merc_flat_form.specs.Tasks.{applied_plan, argument_task, argument_tasks, arithmetic, negative_plan, performed, plan, variable_for};

use crate::numbering::{is_variable, numbered_arguments};
use crate::operations::operation_of;
use crate::scope_stack::ScopeStack;
use merc_base::{Name, Names, NoMemory};
use merc_goal_tree::{Operation, SimpleGoal, Symbol, Var, Vars};
use merc_goals::Numbered;
use merc_tree::Shape;
use merc_value::is_blank;
use std::alloc::Global;

// One thing to do. The last of a list of tasks comes first.
#[derive(Drop)]
pub(crate) enum Task<'a> {
    // to give the variable the value of a term
    Give(Var, Numbered<'a>),
    Put(SimpleGoal),
}

// The goals that tasks give.
pub(crate) fn perform<'a>(
    alloc: Global,
    stack: &ScopeStack,
    names: &Names,
    tasks: Vec<Task<'a>>,
) -> Result<Vec<SimpleGoal>, NoMemory>
    ensures { IfOk result (λ goals. goals.items ≡ performed (is_blank names.now) (scope_of stack.now) tasks.entry.items) }
{
    let mut tasks = tasks;
    let mut goals = Vec::new(alloc);
    while let Some(task) = tasks.pop() {
        match task {
            Task::Give(variable, whole) => {
                plan(alloc, stack, names, &mut tasks, variable, &whole)?;
            }
            Task::Put(goal) => goals.push(goal)?,
        }
    }
    Ok(goals)
}

// Plans how a variable gets the value of a term.
fn plan<'a>(
    alloc: Global,
    stack: &ScopeStack,
    names: &Names,
    tasks: &mut Vec<Task<'a>>,
    variable: Var,
    whole: &Numbered<'a>,
) -> Result<(), NoMemory>
    ensures { OnOk result (tasks.new.items ≡ tasks.old.items ++ plan (is_blank names.now) (scope_of stack.now) variable whole.now) }
{
    match whole.term.shape() {
        Shape::Variable(_) => {
            let other = variable_for(stack, names, whole);
            put(tasks, SimpleGoal::Same(variable, other))
        }
        Shape::Integer(value) => {
            let symbol = Symbol::Integer(value);
            put(tasks, SimpleGoal::Shape(variable, symbol, Vars::new(alloc)))
        }
        Shape::Text(text) => {
            let symbol = Symbol::Text(text);
            put(tasks, SimpleGoal::Shape(variable, symbol, Vars::new(alloc)))
        }
        Shape::Application {
            name,
            qualifier,
            ..
        } => {
            let arguments = numbered_arguments(alloc, whole)?;
            let operands = variables_for(alloc, stack, names, &arguments)?;
            let is_plain = qualifier.is_none();
            if is_negative(name, is_plain, arguments.len()) {
                plan_negative(alloc, tasks, variable, name, whole.at, operands, arguments)
            } else {
                let operation = plain_operation(name, is_plain);
                plan_applied(tasks, operation, variable, name, operands, arguments)
            }
        }
    }
}

// Whether an application is `- E`.
fn is_negative(name: Name, is_plain: bool, count: usize) -> bool
    ensures { result ≡ is_negative name is_plain count }
{
    count == 1 && name == Name::MINUS && is_plain
}

// The operation that a name is, which stands without a qualifier.
fn plain_operation(name: Name, is_plain: bool) -> Option<Operation>
    ensures { result ≡ (if is_plain then operation_of name else None) }
{
    if is_plain { operation_of(name) } else { None }
}

// `- E`, whose 0 has the second number of the term.
fn plan_negative<'a>(
    alloc: Global,
    tasks: &mut Vec<Task<'a>>,
    variable: Var,
    name: Name,
    at: usize,
    mut operands: Vec<Var>,
    arguments: Vec<Numbered<'a>>,
) -> Result<(), NoMemory>
    requires { at ≤ number_limit }
    ensures { OnOk result (tasks.new.items ≡ tasks.old.items ++ negative_plan variable name at operands.items (argument_tasks arguments.entry.items)) }
{
    let zero = Var::new(at + 1);
    operands.insert(0, zero)?;
    let subtraction = Some(Operation::Subtract);
    plan_applied(tasks, subtraction, variable, name, operands, arguments)?;
    let symbol = Symbol::Integer(0);
    put(tasks, SimpleGoal::Shape(zero, symbol, Vars::new(alloc)))
}

// An operation comes behind the goals of its operands, and a constructor before those of its arguments.
fn plan_applied<'a>(
    tasks: &mut Vec<Task<'a>>,
    operation: Option<Operation>,
    variable: Var,
    name: Name,
    operands: Vec<Var>,
    arguments: Vec<Numbered<'a>>,
) -> Result<(), NoMemory>
    ensures { OnOk result (tasks.new.items ≡ tasks.old.items ++ applied_plan operation variable name operands.items (argument_tasks arguments.entry.items)) }
{
    match arithmetic(operation, variable, &operands) {
        Some(goal) => {
            put(tasks, goal)?;
            push_arguments(tasks, arguments)
        }
        None => {
            push_arguments(tasks, arguments)?;
            let symbol = Symbol::Constructor(name, operands.len());
            let goal = SimpleGoal::Shape(variable, symbol, Vars::from_vec(operands));
            put(tasks, goal)
        }
    }
}

// An operation over two variables.
fn arithmetic(operation: Option<Operation>, variable: Var, operands: &[Var]) -> Option<SimpleGoal>
    ensures { result ≡ arithmetic operation variable operands.now }
{
    let Some(operation) = operation else {
        return None;
    };
    match operands {
        [left, right] => Some(SimpleGoal::Arithmetic(operation, variable, *left, *right)),
        _ => None,
    }
}

// The variables that stand for terms.
pub(crate) fn variables_for(
    alloc: Global,
    stack: &ScopeStack,
    names: &Names,
    arguments: &[Numbered<'_>],
) -> Result<Vec<Var>, NoMemory>
    ensures { IfOk result (λ found. found.items ≡ map (variable_for (is_blank names.now) (scope_of stack.now)) arguments.now) }
{
    let mut found = Vec::new(alloc);
    for argument in arguments {
        found.push(variable_for(stack, names, argument))?;
    }
    Ok(found)
}

// The variable that stands for a term: its own, or the one that names it.
pub(crate) fn variable_for(stack: &ScopeStack, names: &Names, one: &Numbered<'_>) -> Var
    ensures { result ≡ variable_for (is_blank names.now) (scope_of stack.now) one.now }
{
    match one.term.shape() {
        Shape::Variable(name) => {
            if is_blank(names, name) {
                Var::new(one.at)
            } else {
                variable_of(stack, name)
            }
        }
        _ => Var::new(one.at),
    }
}

// The variable that a name stands for.
pub(crate) fn variable_of(stack: &ScopeStack, name: Name) -> Var
    ensures { result ≡ variable_of (scope_of stack.now) name }
{
    Var::new(stack.variable(name).unwrap_or(0))
}

// The variables of arguments get their values, from the left.
pub(crate) fn push_arguments<'a>(
    tasks: &mut Vec<Task<'a>>,
    arguments: Vec<Numbered<'a>>,
) -> Result<(), NoMemory>
    ensures { OnOk result (tasks.new.items ≡ tasks.old.items ++ argument_tasks arguments.entry.items) }
{
    let mut left = arguments;
    while let Some(last) = left.pop() {
        push_argument(tasks, last)?;
    }
    Ok(())
}

// The variable of an argument gets its value, unless the argument is a variable itself.
pub(crate) fn push_argument<'a>(
    tasks: &mut Vec<Task<'a>>,
    one: Numbered<'a>,
) -> Result<(), NoMemory>
    ensures { OnOk result (tasks.new.items ≡ tasks.old.items ++ argument_task one.entry) }
{
    if is_variable(&one.term) {
        Ok(())
    } else {
        give(tasks, Var::new(one.at), one)
    }
}

// To give the variable the value of a term.
pub(crate) fn give<'a>(
    tasks: &mut Vec<Task<'a>>,
    variable: Var,
    whole: Numbered<'a>,
) -> Result<(), NoMemory>
    ensures { OnOk result (tasks.new.items ≡ tasks.old.items ++ Task.Give variable whole.entry ∷ []) }
{
    tasks.push(Task::Give(variable, whole))?;
    Ok(())
}

pub(crate) fn put(tasks: &mut Vec<Task<'_>>, goal: SimpleGoal) -> Result<(), NoMemory>
    ensures { OnOk result (tasks.new.items ≡ tasks.old.items ++ Task.Put goal ∷ []) }
{
    tasks.push(Task::Put(goal))?;
    Ok(())
}
