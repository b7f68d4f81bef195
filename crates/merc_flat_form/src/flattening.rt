//! How goals are brought into flat form.
ghost use Rattle.std.specs.Prelude.{◌≡◌, ◌≤◌, ◌+◌, ◌++◌, ◌∷◌, [], ℕ, IfOk, OnOk};
ghost use Rattle.merc_goals.specs.Entries.{entries_of};
ghost use Rattle.merc_goals.specs.Numbers.{clause_limit};
ghost use Rattle.merc_goals.specs.Written.{parts, written_span};
ghost use Rattle.merc_name_resolution.specs.Known.{callee_in};
ghost use Rattle.merc_value.specs.Text.{is_blank};
ghost use Rattle.merc_scopes.specs.Scopes.{at_of};
ghost use Rattle.merc_scopes.specs.Bindings.{AreBindings};
ghost use Rattle.merc_flat_form.specs.Levels.{scope_of, shown};
ghost use Rattle.merc_flat_form.specs.FlatForm.{argument_terms, body_goals, clause_goal, flat, head_scope, one_goal};
ghost use Rattle.merc_flat_form.specs.Frames.{IsReady};
ghost use Rattle.merc_flat_form.specs.Steps.{IsTakenUp};

use crate::closing::{close_done, make_one};
use crate::frames::{Closing, Frames};
use crate::heads::{head_goals, head_scope};
use crate::opening::{conjunction_frame, frame_of, open, open_conditional, open_quantified};
use crate::scope_stack::ScopeStack;
use crate::simple::{put_all, put_simple};
use merc_base::{Names, NoMemory, Sequence};
use merc_goal_tree::Nodes;
use merc_goals::{Entry, Form, WrittenGoal, number_behind, written_goal};
use merc_name_resolution::Known;
use merc_scopes::{Occurrence, bindings};
use merc_tree::Clause;
use std::alloc::Global;

/// Puts the flat form of a goal behind other goals, as one goal. In it these names of variables stand for the numbers
/// beside them, and others for variables of their own: each has the number of the part where it first stands in its scope.
///
/// # Errors
///
/// `NoMemory` says that memory was refused; here and in the call below. The goals are of no use then.
pub fn goal_form(
    alloc: Global,
    goal: &WrittenGoal<'_>,
    scope: &[Occurrence],
    known: &Known<'_>,
    names: &Names,
    nodes: &mut Nodes,
) -> Result<(), NoMemory>
    ensures { OnOk result (nodes.new ≡ nodes.old ++ one_goal (written_span goal.now) (flat (is_blank names.now) (callee_in known.now) scope.now goal.now) ∷ []) }
{
    let mut stack = ScopeStack::of(alloc, scope)?;
    let put = put_whole(alloc, goal, &mut stack, known, names, nodes);
    drop(stack);
    put
}

// Puts the goals that a goal becomes behind others, as one goal.
fn put_whole(
    alloc: Global,
    goal: &WrittenGoal<'_>,
    stack: &mut ScopeStack,
    known: &Known<'_>,
    names: &Names,
    nodes: &mut Nodes,
) -> Result<(), NoMemory>
    ensures { OnOk result (nodes.new ≡ nodes.old ++ one_goal (written_span goal.now) (flat (is_blank names.now) (callee_in known.now) (scope_of stack.old) goal.now) ∷ []) }
{
    let start = nodes.len();
    put_goal(alloc, goal, stack, known, names, nodes)?;
    make_one(nodes, start, goal.span())
}

/// Puts the flat form of a clause behind other goals, as one goal: the unifications of its head, then those of its body.
/// The arguments of the predicate have the numbers from 0; the parts of the clause are numbered from `at` on, at most 2^60.
pub fn clause_form(
    alloc: Global,
    clause: &Clause,
    at: usize,
    known: &Known<'_>,
    names: &Names,
    nodes: &mut Nodes,
) -> Result<(), NoMemory>
    requires { at ≤ clause_limit }
    ensures { OnOk result (nodes.new ≡ nodes.old ++ clause_goal (is_blank names.now) (callee_in known.now) at clause.now.head clause.now.body clause.now.span ∷ []) }
{
    let mut stack = head_stack(alloc, clause, at, names)?;
    let put = put_clause(alloc, clause, at, &mut stack, known, names, nodes);
    drop(stack);
    put
}

// One level, in which the variables of the head of a clause stand for their numbers.
fn head_stack(
    alloc: Global,
    clause: &Clause,
    at: usize,
    names: &Names,
) -> Result<ScopeStack, NoMemory>
    requires { at ≤ clause_limit }
    ensures { IfOk result (λ stack. (name : ℕ) → shown name stack ≡ at_of name (head_scope (is_blank names.now) 0 (at + 2) (argument_terms clause.now.head))) }
{
    let head = clause.head.as_ref();
    let scope = head_scope(alloc, names, at, &head)?;
    let stack = ScopeStack::of(alloc, &scope);
    drop(scope);
    stack
}

// Puts the goals of the head of a clause and those of its body behind others, as one goal.
fn put_clause(
    alloc: Global,
    clause: &Clause,
    at: usize,
    stack: &mut ScopeStack,
    known: &Known<'_>,
    names: &Names,
    nodes: &mut Nodes,
) -> Result<(), NoMemory>
    requires limit { at ≤ clause_limit }
    requires names { (name : ℕ) → shown name stack.old ≡ at_of name (head_scope (is_blank names.now) 0 (at + 2) (argument_terms clause.now.head)) }
    ensures { OnOk result (nodes.new ≡ nodes.old ++ clause_goal (is_blank names.now) (callee_in known.now) at clause.now.head clause.now.body clause.now.span ∷ []) }
{
    let head = clause.head.as_ref();
    let start = nodes.len();
    let goals = head_goals(alloc, stack, names, at, &head)?;
    put_all(nodes, goals, clause.span)?;
    put_body(alloc, clause, at, stack, known, names, nodes)?;
    make_one(nodes, start, clause.span)
}

// Puts the goals that the body of a clause becomes behind others.
fn put_body(
    alloc: Global,
    clause: &Clause,
    at: usize,
    stack: &mut ScopeStack,
    known: &Known<'_>,
    names: &Names,
    nodes: &mut Nodes,
) -> Result<(), NoMemory>
    requires { at ≤ clause_limit }
    ensures { OnOk result (nodes.new ≡ nodes.old ++ body_goals (is_blank names.now) (callee_in known.now) (scope_of stack.old) (at + parts clause.now.head) clause.now.body) }
{
    let body = match &clause.body {
        Some(body) => body.as_ref(),
        None => return Ok(()),
    };
    let head = clause.head.as_ref();
    let at = number_behind(at, &head);
    let goal = written_goal(alloc, &body, at)?;
    let put = put_goal(alloc, &goal, stack, known, names, nodes);
    drop(goal);
    put
}

// Puts the goals that a goal becomes behind others.
fn put_goal(
    alloc: Global,
    goal: &WrittenGoal<'_>,
    stack: &mut ScopeStack,
    known: &Known<'_>,
    names: &Names,
    nodes: &mut Nodes,
) -> Result<(), NoMemory>
    ensures { OnOk result (nodes.new ≡ nodes.old ++ flat (is_blank names.now) (callee_in known.now) (scope_of stack.old) goal.now) }
{
    let found = bindings(alloc, goal, names)?;
    let put = flatten(alloc, goal, &found, stack, known, names, nodes);
    drop(found);
    put
}

// Puts the goals that a goal becomes behind others, whose names these are, entry by entry.
fn flatten(
    alloc: Global,
    goal: &WrittenGoal<'_>,
    bindings: &[Sequence<Occurrence>],
    stack: &mut ScopeStack,
    known: &Known<'_>,
    names: &Names,
    nodes: &mut Nodes,
) -> Result<(), NoMemory>
    requires { AreBindings (is_blank names.now) (entries_of goal.now) bindings.now }
    ensures { OnOk result (nodes.new ≡ nodes.old ++ flat (is_blank names.now) (callee_in known.now) (scope_of stack.old) goal.now) }
{
    let mut frames = Frames::new(alloc);
    let entries = goal.entries();
    for (index, entry) in entries.iter().enumerate() {
        let found = bindings[index].as_slice();
        take_up(alloc, entry, found, &mut frames, stack, known, names, nodes)?;
        close_done(&mut frames, stack, nodes)?;
    }
    Ok(())
}

// Takes up the entry of a goal: puts the goals that it becomes behind others, or the frame in which its sub-goals do.
fn take_up(
    alloc: Global,
    entry: &Entry<'_>,
    found: &[Occurrence],
    frames: &mut Frames,
    stack: &mut ScopeStack,
    known: &Known<'_>,
    names: &Names,
    nodes: &mut Nodes,
) -> Result<(), NoMemory>
    requires { IsReady frames.old }
    ensures { OnOk result (IsTakenUp (is_blank names.now) (callee_in known.now) entry.now.form entry.now.at entry.now.span found.now frames.old stack.old nodes.old frames.new stack.new nodes.new) }
{
    let keeps = frames.keeps();
    let span = entry.span;
    let start = nodes.len();
    frames.count_down();
    match entry.form {
        Form::Conjunction(count) => {
            let frame = conjunction_frame(keeps, span, count, start);
            open(frame, found, frames, stack)
        }
        Form::Parallel(count) => {
            let frame = frame_of(Closing::JoinParallel, span, count, start);
            open(frame, found, frames, stack)
        }
        Form::Disjunction(count) => {
            let frame = frame_of(Closing::Disjoin, span, count, start);
            open(frame, found, frames, stack)
        }
        Form::Negated => {
            let frame = frame_of(Closing::Negate, span, 1, start);
            open(frame, found, frames, stack)
        }
        Form::Conditional => open_conditional(span, start, found, frames, stack),
        Form::Quantified(_) => open_quantified(alloc, span, start, found, frames, stack),
        _ => put_simple(alloc, entry, found, keeps, stack, known, names, nodes),
    }
}
