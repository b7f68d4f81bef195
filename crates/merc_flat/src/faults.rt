//! What is wrong with the form of a goal and its size.
ghost use Rattle.std.specs.Prelude.{◌≡◌, ◌+◌, nat_lt, IfOk};
ghost use Rattle.merc_flat.specs.GoalFaults.{form_fault, limit_passed, variable_limit};
ghost use Rattle.merc_flat.specs.Flat.{either_fault};
ghost use Rattle.merc_flat.specs.SizeFaults.{first_of_two, size_fault, width_fault};

use crate::counting::other_variables;
use merc_base::{Detail, LimitName, NoMemory, Refusal, Rule, Span};
use merc_goal_tree::NodeRef;
use merc_goals::WrittenGoal;
use std::alloc::Global;

/// The most variables of a clause or a goal.
const VARIABLE_LIMIT: usize = 16384;

/// The most conjuncts of a parallel conjunction.
const CONJUNCT_LIMIT: usize = 64;

/// What is wrong with the form of a goal and its size, where `flat` is its flat form: a part of no form or outside the
/// supported part of the language, or else too many variables; or too many conjuncts, where they stand first. `arity` is
/// the number of arguments, and `span` the place of the whole.
///
/// # Errors
///
/// `NoMemory` says that memory was refused.
pub(crate) fn form_fault(
    alloc: Global,
    arity: usize,
    span: Span,
    goal: &WrittenGoal<'_>,
    flat: &NodeRef<'_>,
) -> Result<Option<Refusal>, NoMemory>
    ensures { IfOk result (λ fault. fault ≡ form_fault arity span goal.now flat.now) }
{
    let first = or_size_fault(alloc, goal.first_fault(), arity, span, flat)?;
    let other = width_fault(span, goal.widest_parallel());
    Ok(first_of_two(first, other))
}

// A fault of form, or else too many variables. They are counted only where each part has a form.
fn or_size_fault(
    alloc: Global,
    form: Option<Refusal>,
    arity: usize,
    span: Span,
    flat: &NodeRef<'_>,
) -> Result<Option<Refusal>, NoMemory>
    ensures { IfOk result (λ fault. fault ≡ either_fault form (size_fault arity span flat.now)) }
{
    match form {
        Some(fault) => Ok(Some(fault)),
        None => size_fault(alloc, arity, span, flat),
    }
}

/// Too many variables of a goal.
///
/// # Errors
///
/// `NoMemory` says that memory was refused.
pub(crate) fn size_fault(
    alloc: Global,
    arity: usize,
    span: Span,
    flat: &NodeRef<'_>,
) -> Result<Option<Refusal>, NoMemory>
    ensures { IfOk result (λ fault. fault ≡ size_fault arity span flat.now) }
{
    let others = other_variables(alloc, arity, flat)?;
    Ok(if are_many(arity, others) {
        Some(limit_passed(LimitName::Variables, span))
    } else {
        None
    })
}

// Whether these are more than a clause or a goal may have: arguments and other variables.
fn are_many(arity: usize, others: usize) -> bool
    ensures { result ≡ nat_lt variable_limit (arity + others) }
{
    arity > VARIABLE_LIMIT || others > VARIABLE_LIMIT - arity
}

// Too many conjuncts of a parallel conjunction, of which the widest has so many.
fn width_fault(span: Span, width: usize) -> Option<Refusal>
    ensures { result ≡ width_fault span width }
{
    if width > CONJUNCT_LIMIT {
        Some(limit_passed(LimitName::Conjuncts, span))
    } else {
        None
    }
}

fn limit_passed(limit: LimitName, span: Span) -> Refusal
    ensures { result ≡ limit_passed limit span }
{
    Refusal {
        rule: Rule::LimitPassed,
        place: span.start(),
        detail: Detail::Limit(limit),
    }
}

// The one that comes first.
fn first_of_two(one: Option<Refusal>, other: Option<Refusal>) -> Option<Refusal>
    ensures { result ≡ first_of_two one other }
{
    match (one, other) {
        (None, other) => other,
        (Some(one), None) => Some(one),
        (Some(one), Some(other)) => Some(if one.comes_first(&other) { one } else { other }),
    }
}
