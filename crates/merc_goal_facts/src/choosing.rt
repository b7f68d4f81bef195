//! What is known of goals to choose from.
ghost use Rattle.std.specs.Prelude.{◌≡◌, ◌&&◌, ◌||◌, not, ℕ, List, [], IfOk, OnOk};
ghost use Rattle.std.specs.List.{filter, list_all, list_any};
ghost use Rattle.merc_tree.specs.declared.declarations.ModeDecl.{ModeDecl};
ghost use Rattle.merc_goal_tree.specs.Nodes.{Nodes};
ghost use Rattle.merc_order.specs.Bound.{among};
ghost use Rattle.merc_order.specs.Order.{any_reached, arms};
ghost use Rattle.merc_goal_facts.specs.Arms.{counts, bound_with, among_all};
ghost use Rattle.merc_goal_facts.specs.Complete.{AreKnown};

use crate::bound::BoundSet;
use crate::complete::Complete;
use crate::facts::Facts;
use crate::finding::put_all;
use crate::joining::facts_at;
use merc_base::NoMemory;
use merc_goal_tree::{Var, Vars};
use std::alloc::Global;

/// Whether the end of some arm can be reached.
pub(crate) fn is_any_reached(facts: &[Facts], joined: &[Complete]) -> bool
    ensures { (total : ℕ → ℕ) (modes : ℕ → List ModeDecl) (goals : Nodes) → AreKnown total modes facts.now joined.now goals → result ≡ any_reached (arms total modes goals) }
{
    let mut any = false;
    let mut rest = joined;
    while let [complete, others @ ..] = rest {
        if let Some(found) = facts_at(facts, *complete) {
            any |= found.reached;
        }
        rest = others;
    }
    any
}

/// The variables that some arm binds of those that count. The set has no variables, before and after.
///
/// # Errors
///
/// `NoMemory` where memory was refused.
pub(crate) fn bound_by_some(
    alloc: Global,
    set: &mut BoundSet,
    facts: &[Facts],
    joined: &[Complete],
    any_reached: bool,
) -> Result<Vars, NoMemory>
    requires { set.old ≡ [] }
    ensures bound { IfOk result (λ bound. (total : ℕ → ℕ) (modes : ℕ → List ModeDecl) (goals : Nodes) (variable : ℕ) → AreKnown total modes facts.now joined.now goals → among bound variable ≡ list_any (λ arm. counts any_reached arm.reached && arm.binds variable) (arms total modes goals)) }
    ensures cleared { OnOk result (set.new ≡ []) }
{
    let mut bound = Vars::new(alloc);
    let mut rest = joined;
    while let [complete, others @ ..] = rest {
        if let Some(found) = facts_at(facts, *complete) {
            put_counting(set, &mut bound, found, any_reached)?;
        }
        rest = others;
    }
    set.undo(0);
    Ok(bound)
}

/// The variables that every arm binds that counts. `None` where no arm counts, and so each variable is bound. The set has
/// no variables, before and after.
///
/// # Errors
///
/// `NoMemory` where memory was refused.
pub(crate) fn bound_by_all(
    alloc: Global,
    set: &mut BoundSet,
    facts: &[Facts],
    joined: &[Complete],
    any_reached: bool,
) -> Result<Option<Vars>, NoMemory>
    requires { set.old ≡ [] }
    ensures bound { IfOk result (λ bound. (total : ℕ → ℕ) (modes : ℕ → List ModeDecl) (goals : Nodes) (variable : ℕ) → AreKnown total modes facts.now joined.now goals → among_all bound variable ≡ list_all (λ arm. not (counts any_reached arm.reached) || arm.binds variable) (arms total modes goals)) }
    ensures cleared { OnOk result (set.new ≡ []) }
{
    let mut bound: Option<Vars> = None;
    let mut rest = joined;
    while let [complete, others @ ..] = rest {
        if let Some(found) = facts_at(facts, *complete) {
            if is_counting(any_reached, found.reached) {
                bound = Some(bound_by_both(alloc, set, bound, found.binds.as_slice())?);
            }
        }
        rest = others;
    }
    Ok(bound)
}

// Of the variables that an arm binds, those that all arms before it bind too. `bound` are those that all before it bind, or
// `None` where the arm is the first.
fn bound_by_both(
    alloc: Global,
    set: &mut BoundSet,
    bound: Option<Vars>,
    binds: &[Var],
) -> Result<Vars, NoMemory>
    requires { set.old ≡ [] }
    ensures bound { IfOk result (λ both. (variable : ℕ) → among both variable ≡ (among_all bound variable && among binds.now variable)) }
    ensures cleared { OnOk result (set.new ≡ []) }
{
    match bound {
        Some(bound) => {
            set.bind_all(binds)?;
            let both = those_in(alloc, set, bound.as_slice())?;
            set.undo(0);
            Ok(both)
        }
        None => Ok(Vars::from_vec(Vec::from_slice(alloc, binds)?)),
    }
}

/// Those of the variables that are bound.
///
/// # Errors
///
/// `NoMemory` where memory was refused.
pub fn those_in(alloc: Global, set: &BoundSet, variables: &[Var]) -> Result<Vars, NoMemory>
    ensures { IfOk result (λ both. both ≡ filter (λ variable. among set.now variable) variables.now) }
{
    let mut both = Vars::new(alloc);
    for variable in variables {
        if set.is_bound(*variable) {
            both.push(*variable)?;
        }
    }
    Ok(both)
}

// Puts the variables that an arm binds behind the others, those that are not among them, if the arm counts.
fn put_counting(
    set: &mut BoundSet,
    bound: &mut Vars,
    arm: &Facts,
    any_reached: bool,
) -> Result<(), NoMemory>
    requires { set.old ≡ bound.old }
    ensures same { OnOk result (set.new ≡ bound.new) }
    ensures bound { OnOk result (bound.new ≡ bound_with any_reached bound.old arm.now) }
{
    if is_counting(any_reached, arm.reached) {
        put_all(set, bound, arm.binds.as_slice())?;
    }
    Ok(())
}

// Whether an arm counts: one whose end can be reached, or any where there is none.
fn is_counting(any_reached: bool, reached: bool) -> bool
    ensures { result ≡ counts any_reached reached }
{
    reached || !any_reached
}
