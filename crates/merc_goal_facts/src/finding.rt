//! What is known of each part of a body.
ghost use Rattle.std.specs.Prelude.{◌≡◌, ◌||◌, not, ℕ, List, [], ◌∷◌, ◌++◌, length, IfOk, OnOk};
ghost use Rattle.std.specs.List.{filter};
ghost use Rattle.merc_base.specs.declared.place.Span.{Span};
ghost use Rattle.merc_tree.specs.declared.declarations.ModeDecl.{ModeDecl};
ghost use Rattle.merc_goal_tree.specs.Nodes.{Node, Simple, Negation, Quantified};
ghost use Rattle.merc_goal_tree.specs.Variables.{variables, variables_of};
ghost use Rattle.merc_order.specs.Bound.{among};
ghost use Rattle.merc_order.specs.CallModes.{can_succeed, may_answer};
ghost use Rattle.merc_order.specs.Order.{is_simple_reached};
ghost use Rattle.merc_order.specs.Procedures.{modes_of};
ghost use Rattle.merc_goal_facts.specs.Bounds.{behind, all_behind};
ghost use Rattle.merc_goal_facts.specs.Facts.{AreFactsOf};
ghost use Rattle.merc_goal_facts.specs.Outside.{occurs_outside, IsStretch};

use crate::bound::BoundSet;
use crate::facts::Facts;
use crate::modes::modes_at;
use crate::needing::read_by;
use crate::stretch::Stretch;
use merc_base::{Most, NoMemory};
use merc_goal_tree::{SimpleGoal, Var, Vars};
use merc_tree::{ModeDecl, PredDecl};
use std::alloc::Global;

/// The facts of a goal that holds no others. The set has no variables, before and after.
///
/// # Errors
///
/// `NoMemory` where memory was refused.
pub(crate) fn simple_facts(
    alloc: Global,
    set: &mut BoundSet,
    predicates: &[PredDecl],
    goal: &SimpleGoal,
) -> Result<Facts, NoMemory>
    requires { set.old ≡ [] }
    ensures facts { IfOk result (λ facts. (total : ℕ → ℕ) (span : Span) → AreFactsOf total (modes_of predicates.now) (Simple goal.now span) facts) }
    ensures cleared { OnOk result (set.new ≡ []) }
{
    let mut binds = Vars::new(alloc);
    put_goal(set, &mut binds, goal)?;
    set.undo(0);
    let needs = read_by(alloc, predicates, goal)?;
    Ok(Facts {
        reached: is_simple_reached(goal, predicates),
        binds,
        owed: Vars::new(alloc),
        owed_by_condition: Vars::new(alloc),
        needs,
        occurrences: occurrence_count(goal),
    })
}

/// The facts of a negation, by those of the goal that is negated, which occurs in this stretch.
///
/// # Errors
///
/// `NoMemory` where memory was refused.
pub(crate) fn negation_facts(
    alloc: Global,
    stretch: Stretch<'_>,
    inner: &Facts,
) -> Result<Facts, NoMemory>
    ensures { IfOk result (λ facts. (total : ℕ → ℕ) (modes : ℕ → List ModeDecl) (goal : Node) (span : Span) → IsStretch total stretch.entry.all.now stretch.entry.start stretch.entry.end (variables goal) → AreFactsOf total modes goal inner.now → AreFactsOf total modes (Negation goal span) facts) }
{
    let owed = those_outside(alloc, stretch, inner.binds.as_slice())?;
    let needs = inner.needs.try_clone(alloc)?;
    Ok(Facts {
        reached: true,
        binds: Vars::new(alloc),
        owed,
        owed_by_condition: Vars::new(alloc),
        needs,
        occurrences: inner.occurrences,
    })
}

/// The facts of a quantified goal, by those of the goal in it, which occurs in this stretch.
///
/// # Errors
///
/// `NoMemory` where memory was refused.
pub(crate) fn quantified_facts(
    alloc: Global,
    stretch: Stretch<'_>,
    inner: &Facts,
) -> Result<Facts, NoMemory>
    ensures { IfOk result (λ facts. (total : ℕ → ℕ) (modes : ℕ → List ModeDecl) (own : List ℕ) (goal : Node) (span : Span) → IsStretch total stretch.entry.all.now stretch.entry.start stretch.entry.end (variables goal) → AreFactsOf total modes goal inner.now → AreFactsOf total modes (Quantified own goal span) facts) }
{
    let binds = those_outside(alloc, stretch, inner.binds.as_slice())?;
    let needs = inner.needs.try_clone(alloc)?;
    Ok(Facts {
        reached: inner.reached,
        binds,
        owed: Vars::new(alloc),
        owed_by_condition: Vars::new(alloc),
        needs,
        occurrences: inner.occurrences,
    })
}

// How often variables occur in a goal.
fn occurrence_count(goal: &SimpleGoal) -> usize
    ensures { result ≡ length (variables_of goal.now) }
{
    match goal {
        SimpleGoal::True | SimpleGoal::Fail => 0,
        SimpleGoal::Raise(_) => 1,
        SimpleGoal::Same(_, _) | SimpleGoal::Compare(_, _, _) => 2,
        SimpleGoal::Arithmetic(_, _, _, _) => 3,
        SimpleGoal::Shape(_, _, arguments) => arguments.as_slice().len() + 1,
        SimpleGoal::Call(_, arguments) => arguments.as_slice().len(),
    }
}

// Whether the end of a goal that holds no others can be reached.
fn is_simple_reached(goal: &SimpleGoal, predicates: &[PredDecl]) -> bool
    ensures { (total : ℕ → ℕ) → result ≡ is_simple_reached total (modes_of predicates.now) goal.now }
{
    match goal {
        SimpleGoal::Fail | SimpleGoal::Raise(_) => false,
        SimpleGoal::Call(predicate, _) => can_succeed(modes_at(predicates, *predicate)),
        SimpleGoal::True
        | SimpleGoal::Same(_, _)
        | SimpleGoal::Shape(_, _, _)
        | SimpleGoal::Arithmetic(_, _, _, _)
        | SimpleGoal::Compare(_, _, _) => true,
    }
}

// Whether the end of a call can be reached.
fn can_succeed(modes: &[ModeDecl]) -> bool
    ensures { result ≡ can_succeed modes.now }
{
    for mode in modes {
        if may_answer(mode.category.most()) {
            return true;
        }
    }
    false
}

fn may_answer(most: Most) -> bool
    ensures { result ≡ may_answer most }
{
    match most {
        Most::Zero => false,
        Most::One | Most::Many => true,
    }
}

// Puts the variables of a goal behind the others, those that are not among them.
fn put_goal(set: &mut BoundSet, found: &mut Vars, goal: &SimpleGoal) -> Result<(), NoMemory>
    requires { set.old ≡ found.old }
    ensures same { OnOk result (set.new ≡ found.new) }
    ensures found { OnOk result (found.new ≡ all_behind found.old (variables_of goal.now)) }
{
    match goal {
        SimpleGoal::True | SimpleGoal::Fail => Ok(()),
        SimpleGoal::Same(one, other) => put_all(set, found, &[*one, *other]),
        SimpleGoal::Shape(variable, _, arguments) => {
            put(set, found, *variable)?;
            put_all(set, found, arguments.as_slice())
        }
        SimpleGoal::Arithmetic(_, result, left, right) => {
            put_all(set, found, &[*result, *left, *right])
        }
        SimpleGoal::Compare(_, left, right) => put_all(set, found, &[*left, *right]),
        SimpleGoal::Raise(text) => put_all(set, found, &[*text]),
        SimpleGoal::Call(_, arguments) => put_all(set, found, arguments.as_slice()),
    }
}

/// Puts those variables behind the others that are not among them. The set has the same variables.
pub(crate) fn put_all(
    set: &mut BoundSet,
    found: &mut Vars,
    variables: &[Var],
) -> Result<(), NoMemory>
    requires { set.old ≡ found.old }
    ensures same { OnOk result (set.new ≡ found.new) }
    ensures found { OnOk result (found.new ≡ all_behind found.old variables.now) }
{
    for variable in variables {
        put(set, found, *variable)?;
    }
    Ok(())
}

fn put(set: &mut BoundSet, found: &mut Vars, variable: Var) -> Result<(), NoMemory>
    requires { set.old ≡ found.old }
    ensures same { OnOk result (set.new ≡ found.new) }
    ensures found { OnOk result (found.new ≡ behind found.old variable) }
{
    if !set.is_bound(variable) {
        set.bind(variable)?;
        found.push(variable)?;
    }
    Ok(())
}

/// Those of the variables that occur outside the stretch.
pub(crate) fn those_outside(
    alloc: Global,
    stretch: Stretch<'_>,
    variables: &[Var],
) -> Result<Vars, NoMemory>
    ensures { IfOk result (λ outer. outer ≡ filter (λ variable. occurs_outside stretch.entry.all.now stretch.entry.start stretch.entry.end variable) variables.now) }
{
    let mut outer = Vars::new(alloc);
    for variable in variables {
        if stretch
            .all
            .is_outside(stretch.start, stretch.end, *variable)
        {
            outer.push(*variable)?;
        }
    }
    Ok(outer)
}

/// Those of the variables that are not bound.
pub(crate) fn those_not_in(
    alloc: Global,
    set: &BoundSet,
    variables: &[Var],
) -> Result<Vars, NoMemory>
    ensures { IfOk result (λ others. others ≡ filter (λ variable. not (among set.now variable)) variables.now) }
{
    let mut others = Vars::new(alloc);
    put_those_not_in(set, &mut others, variables)?;
    Ok(others)
}

/// Puts those of the variables behind the others that are not bound.
pub(crate) fn put_those_not_in(
    set: &BoundSet,
    found: &mut Vars,
    variables: &[Var],
) -> Result<(), NoMemory>
    ensures { OnOk result (found.new ≡ found.old ++ filter (λ variable. not (among set.now variable)) variables.now) }
{
    for variable in variables {
        if !set.is_bound(*variable) {
            found.push(*variable)?;
        }
    }
    Ok(())
}
