//! The goals by which variables have the values of terms.
ghost use Rattle.std.specs.Prelude.{◌≡◌, [], ◌∷◌, ◌++◌, map, OnOk, IfOk};
ghost use Rattle.merc_goals.specs.Numbers.{BothFit, Fits};
ghost use Rattle.merc_value.specs.Text.{is_blank};
ghost use Rattle.merc_flat_form.specs.Levels.{scope_of};
ghost use Rattle.merc_flat_form.specs.FlatForm.{argument_terms, call_of, called, compare, compared, comparison_of, equal};
ghost use Rattle.merc_flat_form.specs.Numbering.{sides_of};
ghost use Rattle.merc_flat_form.specs.Tasks.{argument_tasks, compared_plan, equal_plan};

use crate::numbering::{is_variable, numbered_arguments};
use crate::operations::comparison_of;
use crate::scope_stack::ScopeStack;
use crate::tasks::{
    Task, give, perform, push_argument, push_arguments, put, variable_for, variables_for,
};
use merc_base::{Name, Names, NoMemory};
use merc_goal_tree::{SimpleGoal, Var, Vars};
use merc_goals::{Numbered, left_of, right_of};
use merc_name_resolution::Callee;
use merc_tree::TermRef;
use std::alloc::Global;

/// The goals that `left = right` becomes, whose number among the parts of the text is `at`, as that of the terms below.
pub(crate) fn equal(
    alloc: Global,
    stack: &ScopeStack,
    names: &Names,
    at: usize,
    left: &TermRef<'_>,
    right: &TermRef<'_>,
) -> Result<Vec<SimpleGoal>, NoMemory>
    requires { BothFit at left.now right.now }
    ensures { IfOk result (λ goals. goals.items ≡ equal (is_blank names.now) (scope_of stack.now) at left.now right.now) }
{
    let (left, right) = sides(at, left, right);
    let mut tasks = Vec::new(alloc);
    plan_equal(stack, names, &mut tasks, at, left, right)?;
    perform(alloc, stack, names, tasks)
}

/// The goals that the comparison of this name becomes.
pub(crate) fn compared(
    alloc: Global,
    stack: &ScopeStack,
    names: &Names,
    at: usize,
    name: Name,
    left: &TermRef<'_>,
    right: &TermRef<'_>,
) -> Result<Vec<SimpleGoal>, NoMemory>
    requires { BothFit at left.now right.now }
    ensures { IfOk result (λ goals. goals.items ≡ compared (is_blank names.now) (scope_of stack.now) at name left.now right.now) }
{
    let (left, right) = sides(at, left, right);
    let mut tasks = Vec::new(alloc);
    plan_compared(stack, names, &mut tasks, name, left, right)?;
    perform(alloc, stack, names, tasks)
}

/// The goals that a call becomes, whose name means this.
pub(crate) fn called(
    alloc: Global,
    stack: &ScopeStack,
    names: &Names,
    at: usize,
    callee: Callee,
    call: &TermRef<'_>,
) -> Result<Vec<SimpleGoal>, NoMemory>
    requires { Fits at call.now }
    ensures { IfOk result (λ goals. goals.items ≡ called (is_blank names.now) (scope_of stack.now) at callee (argument_terms call.now)) }
{
    let whole = Numbered {
        term: call.copy(),
        at,
    };
    let arguments = numbered_arguments(alloc, &whole)?;
    let operands = variables_for(alloc, stack, names, &arguments)?;
    let mut tasks = Vec::new(alloc);
    put_call(&mut tasks, callee, operands)?;
    push_arguments(&mut tasks, arguments)?;
    perform(alloc, stack, names, tasks)
}

// Both sides of a goal with their numbers.
fn sides<'a>(at: usize, left: &TermRef<'a>, right: &TermRef<'a>) -> (Numbered<'a>, Numbered<'a>)
    requires { BothFit at left.now right.now }
    ensures { result ≡ sides_of at left.now right.now }
{
    let right = right_of(at, left, right.copy());
    let left = left_of(at, left.copy());
    (left, right)
}

// A variable gets the value of the other side, or one of its own those of both.
fn plan_equal<'a>(
    stack: &ScopeStack,
    names: &Names,
    tasks: &mut Vec<Task<'a>>,
    at: usize,
    left: Numbered<'a>,
    right: Numbered<'a>,
) -> Result<(), NoMemory>
    ensures { OnOk result (tasks.new.items ≡ tasks.old.items ++ equal_plan (is_blank names.now) (scope_of stack.now) at left.entry right.entry) }
{
    if is_variable(&left.term) {
        let variable = variable_for(stack, names, &left);
        give(tasks, variable, right)
    } else if is_variable(&right.term) {
        let variable = variable_for(stack, names, &right);
        give(tasks, variable, left)
    } else {
        give(tasks, Var::new(at), right)?;
        give(tasks, Var::new(at), left)
    }
}

// The comparison comes behind the goals of its sides.
fn plan_compared<'a>(
    stack: &ScopeStack,
    names: &Names,
    tasks: &mut Vec<Task<'a>>,
    name: Name,
    left: Numbered<'a>,
    right: Numbered<'a>,
) -> Result<(), NoMemory>
    ensures { OnOk result (tasks.new.items ≡ tasks.old.items ++ compared_plan (is_blank names.now) (scope_of stack.now) name left.entry right.entry) }
{
    let first = variable_for(stack, names, &left);
    let second = variable_for(stack, names, &right);
    put_comparison(tasks, name, first, second)?;
    push_sides(tasks, left, right)
}

// Both sides of a comparison get their values, the left one first.
fn push_sides<'a>(
    tasks: &mut Vec<Task<'a>>,
    left: Numbered<'a>,
    right: Numbered<'a>,
) -> Result<(), NoMemory>
    ensures { OnOk result (tasks.new.items ≡ tasks.old.items ++ argument_tasks (left.entry ∷ right.entry ∷ [])) }
{
    push_argument(tasks, right)?;
    push_argument(tasks, left)
}

// The comparison of two variables, nothing for a name that is no comparison's.
fn put_comparison(
    tasks: &mut Vec<Task<'_>>,
    name: Name,
    left: Var,
    right: Var,
) -> Result<(), NoMemory>
    ensures { OnOk result (tasks.new.items ≡ tasks.old.items ++ map (λ goal. Task.Put goal) (compare (comparison_of name) left right)) }
{
    match comparison_of(name) {
        Some(comparison) => put(tasks, SimpleGoal::Compare(comparison, left, right)),
        None => Ok(()),
    }
}

// A call of what its name means. `error` has one argument alone.
fn put_call(tasks: &mut Vec<Task<'_>>, callee: Callee, arguments: Vec<Var>) -> Result<(), NoMemory>
    ensures { OnOk result (tasks.new.items ≡ tasks.old.items ++ map (λ goal. Task.Put goal) (call_of callee arguments.items)) }
{
    match callee {
        Callee::Predicate(predicate) => {
            let goal = SimpleGoal::Call(predicate, Vars::from_vec(arguments));
            put(tasks, goal)
        }
        Callee::Error => match arguments.as_slice() {
            [text] => put(tasks, SimpleGoal::Raise(*text)),
            _ => Ok(()),
        },
    }
}
