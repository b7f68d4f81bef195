//! The order of a goal, written out.
ghost use Rattle.std.specs.Prelude.{◌≡◌, ◌+◌, [], length, replicate, false, OnOk};
ghost use Rattle.merc_goal_tree.specs.Nodes.{Simple, Negation, Quantified};
ghost use Rattle.merc_goal_tree.specs.Parts.{parts_of};
ghost use Rattle.merc_goal_order.specs.Walking.{Orders};
ghost use Rattle.merc_goal_order.specs.Walks.{AddsOne};

use crate::conjuncts::walk_conjunction;
use crate::disjuncts::walk_disjunction;
use crate::links::walk_chain;
use crate::parallel::walk_parallel;
use merc_base::{Fault, Rule, Span};
use merc_goal_facts::{BoundSet, Facts};
use merc_goal_tree::{NodeRef, NodeView, SimpleGoal, Vars};
use merc_readiness::members;
use merc_simple_goals::{Places, Written, fault_at, order_simple, outputs_of};
use merc_tree::PredDecl;
use std::alloc::Global;

/// What is the same for all parts of a body.
#[derive(Drop)]
pub(crate) struct Setting<'a> {
    pub(crate) alloc: Global,
    pub(crate) predicates: &'a [PredDecl],
    /// The head variables, and behind them those of the body as they occur in it.
    pub(crate) all: &'a Places,
}

/// A goal of the body.
#[derive(Clone, Copy)]
pub(crate) struct PlacedGoal<'a> {
    pub(crate) goal: &'a NodeRef<'a>,
    /// What is known of its parts, and last of itself.
    pub(crate) facts: &'a [Facts],
    /// The place from which on its variables occur.
    pub(crate) start: usize,
}

/// Goals of the body, one behind the other.
#[derive(Clone, Copy)]
pub(crate) struct PlacedGoals<'a> {
    pub(crate) goals: &'a [NodeRef<'a>],
    /// What is known of their parts.
    pub(crate) facts: &'a [Facts],
    /// The place from which on their variables occur.
    pub(crate) start: usize,
}

/// A goal of the body, without the goals that it joins.
#[derive(Clone, Copy)]
pub(crate) struct Whole<'a> {
    /// What is known of its parts, and last of itself.
    pub(crate) facts: &'a [Facts],
    /// The place from which on its variables occur.
    pub(crate) start: usize,
    pub(crate) span: Span,
}

// Variables that a goal has for itself, and that goal.
#[derive(Clone, Copy)]
struct Scope<'a> {
    own: &'a Vars,
    inner: &'a NodeRef<'a>,
}

/// Writes a goal out behind others, in its order from what is bound, with fresh variables and tests. `facts` are those of
/// the goal's parts, and `all` are the variables of its body: the goal's own occur from `start` on. What is bound is the
/// same behind it.
///
/// # Errors
///
/// What is wrong with a goal that has no order; `NoMemory` where memory was refused, or goals stand in each other deeper
/// than `BoundSet::enter` lets them.
pub fn order_goal(
    alloc: Global,
    predicates: &[PredDecl],
    all: &Places,
    goal: &NodeRef<'_>,
    facts: &[Facts],
    start: usize,
    bound: &mut BoundSet,
    written: &mut Written,
) -> Result<(), Fault>
    requires known { length facts.now ≡ length (parts_of goal.now) }
    requires seen { written.old.seen ≡ [] }
    ensures same { OnOk result (bound.new ≡ bound.old) }
    ensures orders { Orders predicates.now goal.now facts.now all.now start bound.old written.old written.new result }
{
    let setting = Setting {
        alloc,
        predicates,
        all,
    };
    let placed = PlacedGoal { goal, facts, start };
    let mut marks = vec![in alloc; false; facts.len()]?;
    walk(&setting, &placed, &mut marks, bound, written)
}

/// Writes a goal out in its order from what is bound. The marks say nothing before and after; what is bound is the same
/// behind it.
///
/// It calls itself for the goals that a goal joins. The else parts of an if-then-else are gone through by a loop.
///
/// # Errors
///
/// As for `order_goal`.
#[cycle(walking)]
pub(crate) fn walk(
    setting: &Setting<'_>,
    placed: &PlacedGoal<'_>,
    marks: &mut [bool],
    bound: &mut BoundSet,
    written: &mut Written,
) -> Result<(), Fault>
    requires known { length placed.now.facts.now ≡ length (parts_of placed.now.goal.now) }
    requires marked { length marks.old ≡ length (parts_of placed.now.goal.now) }
    requires seen { written.old.seen ≡ [] }
    ensures same { OnOk result (bound.new ≡ bound.old) }
    ensures orders { Orders setting.now.predicates.now placed.now.goal.now placed.now.facts.now setting.now.all.now placed.now.start bound.old written.old written.new result }
    ensures adds { OnOk result (AddsOne written.old written.new) }
{
    bound.enter()?;
    let walked = walk_parts(setting, placed, marks, bound, written);
    bound.leave();
    walked
}

// Writes out a goal that `walk` has entered, by its kind and the goals that it joins.
#[cycle(walking)]
fn walk_parts(
    setting: &Setting<'_>,
    placed: &PlacedGoal<'_>,
    marks: &mut [bool],
    bound: &mut BoundSet,
    written: &mut Written,
) -> Result<(), Fault>
    requires known { length placed.now.facts.now ≡ length (parts_of placed.now.goal.now) }
    requires marked { length marks.old ≡ length (parts_of placed.now.goal.now) }
    requires seen { written.old.seen ≡ [] }
    ensures same { OnOk result (bound.new ≡ bound.old) }
    ensures orders { Orders setting.now.predicates.now placed.now.goal.now placed.now.facts.now setting.now.all.now placed.now.start bound.old written.old written.new result }
    ensures adds { OnOk result (AddsOne written.old written.new) }
{
    let span = placed.goal.span();
    let whole = Whole {
        facts: placed.facts,
        start: placed.start,
        span,
    };
    match placed.goal.view() {
        NodeView::Simple(simple) => walk_simple(setting, simple, &whole, bound, written),
        NodeView::Conjunction(goals) => {
            let goals = members(setting.alloc, goals)?;
            walk_conjunction(setting, &goals, &whole, marks, bound, written)
        }
        NodeView::Parallel(goals) => {
            let goals = members(setting.alloc, goals)?;
            walk_parallel(setting, &goals, &whole, marks, bound, written)
        }
        NodeView::Disjunction(arms) => {
            let arms = members(setting.alloc, arms)?;
            walk_disjunction(setting, &arms, &whole, marks, bound, written)
        }
        NodeView::Conditional(_, _, _) => walk_chain(setting, placed, marks, bound, written),
        NodeView::Negation(inner) => {
            walk_negation(setting, &inner, &whole, marks, bound, written)
        }
        NodeView::Quantified(own, inner) => {
            let scope = Scope { own, inner: &inner };
            walk_quantified(setting, &scope, &whole, marks, bound, written)
        }
    }
}

// Writes out a goal that holds no others, with fresh variables and tests.
fn walk_simple(
    setting: &Setting<'_>,
    goal: &SimpleGoal,
    whole: &Whole<'_>,
    bound: &BoundSet,
    written: &mut Written,
) -> Result<(), Fault>
    requires known { length whole.now.facts.now ≡ 1 }
    requires seen { written.old.seen ≡ [] }
    ensures orders { Orders setting.now.predicates.now (Simple goal.now whole.now.span) whole.now.facts.now setting.now.all.now whole.now.start bound.now written.old written.new result }
    ensures adds { OnOk result (AddsOne written.old written.new) }
{
    let facts = whole.facts;
    let own = &facts[0];
    let outputs = outputs_of(
        setting.alloc,
        setting.all,
        own,
        whole.start,
        bound,
        &mut written.seen,
    )?;
    order_simple(
        setting.alloc,
        setting.predicates,
        goal,
        outputs,
        whole.span,
        bound,
        written,
    )
}

// Writes out a negation. It is a fault where the negated goal binds a variable that occurs outside and is not bound.
#[cycle(walking)]
fn walk_negation(
    setting: &Setting<'_>,
    inner: &NodeRef<'_>,
    whole: &Whole<'_>,
    marks: &mut [bool],
    bound: &mut BoundSet,
    written: &mut Written,
) -> Result<(), Fault>
    requires known { length whole.now.facts.now ≡ length (parts_of inner.now) + 1 }
    requires marked { length marks.old ≡ length (parts_of inner.now) + 1 }
    requires seen { written.old.seen ≡ [] }
    ensures same { OnOk result (bound.new ≡ bound.old) }
    ensures orders { Orders setting.now.predicates.now (Negation inner.now whole.now.span) whole.now.facts.now setting.now.all.now whole.now.start bound.old written.old written.new result }
    ensures adds { OnOk result (AddsOne written.old written.new) }
{
    let facts = whole.facts;
    let own = inner.part_count();
    let inside = PlacedGoal {
        goal: &*inner,
        facts: &facts[..own],
        start: whole.start,
    };
    walk(setting, &inside, &mut marks[..own], bound, written)?;
    let found = &facts[own];
    if !bound.are_bound(found.owed.as_slice()) {
        return Err(fault_at(Rule::BindsOuter, whole.span));
    }
    written.nodes.negate(Vars::new(setting.alloc), whole.span)?;
    Ok(())
}

// Writes out a goal with variables of its own, in its order.
#[cycle(walking)]
fn walk_quantified(
    setting: &Setting<'_>,
    scope: &Scope<'_>,
    whole: &Whole<'_>,
    marks: &mut [bool],
    bound: &mut BoundSet,
    written: &mut Written,
) -> Result<(), Fault>
    requires known { length whole.now.facts.now ≡ length (parts_of scope.now.inner.now) + 1 }
    requires marked { length marks.old ≡ length (parts_of scope.now.inner.now) + 1 }
    requires seen { written.old.seen ≡ [] }
    ensures same { OnOk result (bound.new ≡ bound.old) }
    ensures orders { Orders setting.now.predicates.now (Quantified scope.now.own.now scope.now.inner.now whole.now.span) whole.now.facts.now setting.now.all.now whole.now.start bound.old written.old written.new result }
    ensures adds { OnOk result (AddsOne written.old written.new) }
{
    let facts = whole.facts;
    let last = scope.inner.part_count();
    let inside = PlacedGoal {
        goal: &*scope.inner,
        facts: &facts[..last],
        start: whole.start,
    };
    walk(setting, &inside, &mut marks[..last], bound, written)?;
    let outputs = outputs_of(
        setting.alloc,
        setting.all,
        &facts[last],
        whole.start,
        bound,
        &mut written.seen,
    )?;
    let own = scope.own.try_clone(setting.alloc)?;
    written.nodes.quantify(own, outputs, whole.span)?;
    Ok(())
}

/// Sets all marks to false.
pub(crate) fn clear(marks: &mut [bool])
    ensures { marks.new ≡ replicate (length marks.old) false }
{
    marks.fill(false);
}
