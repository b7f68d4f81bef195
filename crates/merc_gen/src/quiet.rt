//! Goals that leave no choice point behind.
ghost use Rattle.std.specs.Prelude.{◌≡◌, ◌&&◌, ℕ, Bool, [], not, IfOk};
ghost use Rattle.merc_graded_tree.specs.declared.basic.Procedure.{Procedure};
ghost use Rattle.merc_graded_tree.specs.declared.entries.Running.{Running};
ghost use Rattle.merc_graded_tree.specs.Nodes.{Conditional, Conjunction, Disjunction, Switch, goal_of, nodes_of};
ghost use Rattle.merc_graded_tree.specs.Roots.{arms_of};
ghost use Rattle.merc_graded_tree.specs.Views.{viewed};
ghost use Rattle.merc_meaning.specs.Runs.{answers_once, is_at_most_one};
ghost use Rattle.merc_gen.specs.Generated.{basic_quiet, is_once, quiet};
ghost use Rattle.merc_gen.specs.Singles.{contained};
ghost use Rattle.merc_gen.specs.Waiting.{Looks, Spreads};

use crate::Singles;
use crate::arms::with_symbols;
use merc_base::{Category, Most, NoMemory, Sequence};
use merc_goal_tree::{Symbol, Vars};
use merc_graded_tree::{BasicGoal, NodeRef, NodeView, Parts, push_all};
use std::alloc::Global;

/// Whether the goal's choice points have to be dropped behind it: it answers once and may leave some.
///
/// # Errors
///
/// `NoMemory` where memory was refused.
pub(crate) fn is_cut(alloc: Global, singles: &Singles, goal: &NodeRef<'_>) -> Result<bool, NoMemory>
    ensures { IfOk result (λ cut. cut ≡ is_once goal.now && not (quiet (contained singles.now) (goal_of goal.now))) }
{
    if !is_once(goal) {
        return Ok(false);
    }
    Ok(!is_quiet(alloc, singles, goal)?)
}

/// Whether the goal answers once.
pub(crate) fn is_once(goal: &NodeRef<'_>) -> bool
    ensures { result ≡ is_once goal.now }
{
    answers_once(goal.outputs(), goal.category())
}

fn answers_once(outputs: &Vars, category: Option<Category>) -> bool
    ensures { result ≡ answers_once outputs.now category }
{
    match (outputs.as_slice(), category) {
        ([], _) => true,
        (_, Some(category)) => is_at_most_one(category.most()),
        (_, None) => false,
    }
}

fn is_at_most_one(most: Most) -> bool
    ensures { result ≡ is_at_most_one most }
{
    match most {
        Most::Zero | Most::One => true,
        Most::Many => false,
    }
}

// Whether the goal leaves no choice point behind, without looking at whether it answers once. Parts of it that answer
// once are not looked into.
fn is_quiet(alloc: Global, singles: &Singles, goal: &NodeRef<'_>) -> Result<bool, NoMemory>
    ensures { IfOk result (λ passes. passes ≡ quiet (contained singles.now) (goal_of goal.now)) }
{
    let mut left = Vec::new(alloc);
    let passes = all_pass(singles, goal, &mut left);
    // (a call, since it costs much to prove what is dropped here)
    drop(left);
    passes
}

// Whether nothing speaks against the goal and what it holds, where nothing is left to be looked at.
fn all_pass<'a>(
    singles: &Singles,
    goal: &NodeRef<'a>,
    left: &mut Vec<NodeRef<'a>>,
) -> Result<bool, NoMemory>
    requires { left.old.items ≡ [] }
    ensures { IfOk result (λ passes. passes ≡ quiet (contained singles.now) (goal_of goal.now)) }
{
    if !spread(singles, goal.view(), left)? {
        return Ok(false);
    }
    while let Some(next) = left.pop() {
        if !look(singles, &next, left)? {
            return Ok(false);
        }
    }
    Ok(true)
}

// Whether nothing speaks against a goal but what is put behind the others. One that answers once drops its choice points.
fn look<'a>(
    singles: &Singles,
    goal: &NodeRef<'a>,
    left: &mut Vec<NodeRef<'a>>,
) -> Result<bool, NoMemory>
    ensures { IfOk result (λ passes. Looks (contained singles.now) goal.now passes left.old.items left.new.items) }
{
    if is_once(goal) {
        return Ok(true);
    }
    spread(singles, goal.view(), left)
}

// Whether nothing speaks against a goal but what is put behind the others. Whether it answers once is not looked at.
fn spread<'a>(
    singles: &Singles,
    view: NodeView<'a>,
    left: &mut Vec<NodeRef<'a>>,
) -> Result<bool, NoMemory>
    ensures { IfOk result (λ passes. Spreads (contained singles.now) (viewed view.entry) passes left.old.items left.new.items) }
{
    match view {
        NodeView::Basic(goal) => Ok(is_quiet_basic(singles, goal)),
        NodeView::Conjunction(_, goals) => spread_conjuncts(goals, left),
        NodeView::Disjunction(goals) => spread_disjuncts(goals, left),
        NodeView::Switch(_, symbols, arms) => spread_arms(symbols, arms, left),
        NodeView::Conditional(condition, then_part, else_part) => {
            spread_conditional(&condition, then_part, else_part, left)
        }
        NodeView::Negation(_) => Ok(true),
        NodeView::Quantified(_, inner) => {
            left.push(inner)?;
            Ok(true)
        }
    }
}

// Leaves goals that all run to be looked at.
fn spread_conjuncts<'a>(goals: Parts<'a>, left: &mut Vec<NodeRef<'a>>) -> Result<bool, NoMemory>
    ensures { IfOk result (λ passes. (single : Procedure → Bool) (running : Running) → Spreads single (Conjunction running (nodes_of goals.entry)) passes left.old.items left.new.items) }
{
    push_all(goals, left)?;
    Ok(true)
}

// Leaves a disjunct that stands alone to be looked at. Where there are several, a choice point may stay.
fn spread_disjuncts<'a>(goals: Parts<'a>, left: &mut Vec<NodeRef<'a>>) -> Result<bool, NoMemory>
    ensures { IfOk result (λ passes. (single : Procedure → Bool) → Spreads single (Disjunction (nodes_of goals.entry)) passes left.old.items left.new.items) }
{
    if goals.len() > 1 {
        return Ok(false);
    }
    push_all(goals, left)?;
    Ok(true)
}

// Leaves the then part and the else part to be looked at. Where the condition may answer more than once, a choice point may
// stay.
fn spread_conditional<'a>(
    condition: &NodeRef<'a>,
    then_part: NodeRef<'a>,
    else_part: NodeRef<'a>,
    left: &mut Vec<NodeRef<'a>>,
) -> Result<bool, NoMemory>
    ensures { IfOk result (λ passes. (single : Procedure → Bool) → Spreads single (Conditional condition.now then_part.entry else_part.entry) passes left.old.items left.new.items) }
{
    left.push(else_part)?;
    left.push(then_part)?;
    Ok(is_once(condition))
}

// Leaves the arms of a switch to be looked at, each that has a symbol.
fn spread_arms<'a>(
    symbols: &Sequence<Symbol>,
    arms: Parts<'a>,
    left: &mut Vec<NodeRef<'a>>,
) -> Result<bool, NoMemory>
    ensures { IfOk result (λ passes. (single : Procedure → Bool) (variable : ℕ) → Spreads single (Switch variable (arms_of symbols.now arms.entry)) passes left.old.items left.new.items) }
{
    push_all(with_symbols(arms, symbols.as_slice().len()), left)?;
    Ok(true)
}

fn is_quiet_basic(singles: &Singles, goal: &BasicGoal) -> bool
    ensures { result ≡ basic_quiet (contained singles.now) goal.now }
{
    match goal {
        BasicGoal::Call(procedure, _) => singles.contains(*procedure),
        _ => true,
    }
}
