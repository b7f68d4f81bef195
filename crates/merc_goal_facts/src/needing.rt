//! What goals need: the variables without which they are not ready.
ghost use Rattle.std.specs.Prelude.{◌≡◌, ◌<◌, not, ℕ, [], length, IfOk, OnOk};
ghost use Rattle.merc_order.specs.Bound.{among};
ghost use Rattle.merc_order.specs.CallModes.{inputs_of};
ghost use Rattle.merc_order.specs.Procedures.{modes_of};
ghost use Rattle.merc_goal_facts.specs.Needs.{reads, found_in, is_needed, is_brought, brought_with, is_needed_together, AreKept};

use crate::bound::BoundSet;
use crate::complete::Complete;
use crate::facts::Facts;
use crate::finding::{put_all, put_those_not_in, those_not_in};
use crate::joining::facts_at;
use crate::modes::modes_at;
use merc_base::NoMemory;
use merc_goal_tree::{SimpleGoal, Var, Vars};
use merc_tree::{Arg, PredDecl};
use std::alloc::Global;

/// What a goal that holds no others needs.
///
/// # Errors
///
/// `NoMemory` where memory was refused.
pub(crate) fn read_by(
    alloc: Global,
    predicates: &[PredDecl],
    goal: &SimpleGoal,
) -> Result<Vars, NoMemory>
    ensures { IfOk result (λ needed. needed ≡ reads (modes_of predicates.now) goal.now) }
{
    match goal {
        SimpleGoal::True | SimpleGoal::Fail | SimpleGoal::Same(_, _) | SimpleGoal::Shape(_, _, _) =>
            Ok(Vars::new(alloc)),
        SimpleGoal::Arithmetic(_, _, left, right) | SimpleGoal::Compare(_, left, right) => {
            Ok(Vars::from_vec(Vec::from_slice(alloc, &[*left, *right])?))
        }
        SimpleGoal::Raise(text) => Ok(Vars::from_vec(Vec::from_slice(alloc, &[*text])?)),
        SimpleGoal::Call(predicate, arguments) => match modes_at(predicates, *predicate) {
            [mode] => inputs_of(alloc, mode.args.as_slice(), arguments.as_slice()),
            _ => Ok(Vars::new(alloc)),
        },
    }
}

// The arguments that a mode has bound before.
fn inputs_of(alloc: Global, places: &[Arg], arguments: &[Var]) -> Result<Vars, NoMemory>
    ensures { IfOk result (λ inputs. inputs ≡ inputs_of places.now arguments.now) }
{
    let mut inputs = Vars::new(alloc);
    let mut left = places;
    let mut rest = arguments;
    while let [place, others @ ..] = left {
        let [argument, later @ ..] = rest else {
            return Ok(inputs);
        };
        match place {
            Arg::Input => inputs.push(*argument)?,
            Arg::Output => {}
        }
        left = others;
        rest = later;
    }
    Ok(inputs)
}

/// What goals need together that may go in any order: what one of them needs, and none of them binds without needing it.
/// The set has no variables, before and after.
///
/// # Errors
///
/// `NoMemory` where memory was refused.
pub(crate) fn needed_together(
    alloc: Global,
    set: &mut BoundSet,
    facts: &[Facts],
    joined: &[Complete],
) -> Result<Vars, NoMemory>
    requires { set.old ≡ [] }
    ensures needed { IfOk result (λ needed. (variable : ℕ) → among needed variable ≡ is_needed_together (found_in facts.now joined.now) variable) }
    ensures cleared { OnOk result (set.new ≡ []) }
{
    let some = needed_by_some(alloc, set, facts, joined)?;
    if some.as_slice().is_empty() {
        return Ok(some);
    }
    bind_brought(alloc, set, facts, joined)?;
    let needed = those_not_in(alloc, set, some.as_slice())?;
    set.undo(0);
    Ok(needed)
}

/// The variables that some goal needs, each once. The set has no variables, before and after.
///
/// # Errors
///
/// `NoMemory` where memory was refused.
pub(crate) fn needed_by_some(
    alloc: Global,
    set: &mut BoundSet,
    facts: &[Facts],
    joined: &[Complete],
) -> Result<Vars, NoMemory>
    requires { set.old ≡ [] }
    ensures needed { IfOk result (λ needed. (variable : ℕ) → among needed variable ≡ is_needed (found_in facts.now joined.now) variable) }
    ensures cleared { OnOk result (set.new ≡ []) }
{
    let mut needed = Vars::new(alloc);
    let mut rest = joined;
    while let [complete, others @ ..] = rest {
        if let Some(found) = facts_at(facts, *complete) {
            put_all(set, &mut needed, found.needs.as_slice())?;
        }
        rest = others;
    }
    set.undo(0);
    Ok(needed)
}

// Binds the variables that some goal binds without needing them, where none are bound.
fn bind_brought(
    alloc: Global,
    set: &mut BoundSet,
    facts: &[Facts],
    joined: &[Complete],
) -> Result<(), NoMemory>
    requires { set.old ≡ [] }
    ensures { OnOk result ((variable : ℕ) → among set.new variable ≡ is_brought (found_in facts.now joined.now) variable) }
{
    let brought = brought_by_some(alloc, set, facts, joined)?;
    set.bind_all(brought.as_slice())
}

// The variables that some goal binds without needing them. The set has no variables, before and after.
fn brought_by_some(
    alloc: Global,
    set: &mut BoundSet,
    facts: &[Facts],
    joined: &[Complete],
) -> Result<Vars, NoMemory>
    requires { set.old ≡ [] }
    ensures brought { IfOk result (λ brought. (variable : ℕ) → among brought variable ≡ is_brought (found_in facts.now joined.now) variable) }
    ensures cleared { OnOk result (set.new ≡ []) }
{
    let mut brought = Vars::new(alloc);
    let mut rest = joined;
    while let [complete, others @ ..] = rest {
        if let Some(found) = facts_at(facts, *complete) {
            put_brought(set, &mut brought, found)?;
        }
        rest = others;
    }
    Ok(brought)
}

// Puts what a goal binds and does not need behind the others. The set has no variables, before and after.
fn put_brought(set: &mut BoundSet, brought: &mut Vars, found: &Facts) -> Result<(), NoMemory>
    requires { set.old ≡ [] }
    ensures brought { OnOk result (brought.new ≡ brought_with brought.old found.now) }
    ensures cleared { OnOk result (set.new ≡ []) }
{
    set.bind_all(found.needs.as_slice())?;
    put_those_not_in(set, brought, found.binds.as_slice())?;
    set.undo(0);
    Ok(())
}

/// Leaves out of what these goals need what a part needs. The set has no variables, before and after.
///
/// # Errors
///
/// `NoMemory` where memory was refused.
pub(crate) fn leave_out(
    alloc: Global,
    set: &mut BoundSet,
    facts: &mut [Facts],
    part: usize,
    joined: &[Complete],
) -> Result<(), NoMemory>
    requires known { part < length facts.old }
    ensures kept { OnOk result (AreKept facts.old facts.new) }
    ensures cleared { OnOk result (set.new ≡ []) }
{
    set.bind_all(facts[part].needs.as_slice())?;
    for goal in joined {
        leave_out_of(alloc, set, facts, goal.part)?;
    }
    set.undo(0);
    Ok(())
}

fn leave_out_of(
    alloc: Global,
    set: &BoundSet,
    facts: &mut [Facts],
    part: usize,
) -> Result<(), NoMemory>
    ensures { OnOk result (AreKept facts.old facts.new) }
{
    if part >= facts.len() {
        return Ok(());
    }
    let left = those_not_in(alloc, set, facts[part].needs.as_slice())?;
    facts[part].needs = left;
    Ok(())
}
