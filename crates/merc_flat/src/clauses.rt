//! What is wrong with a clause.
ghost use Rattle.std.specs.Prelude.{◌≡◌, ◌≤◌, ◌+◌, IfOk};
ghost use Rattle.merc_goals.specs.Faults.{first_span};
ghost use Rattle.merc_goals.specs.Numbers.{clause_limit};
ghost use Rattle.merc_goals.specs.Written.{parts, written};
ghost use Rattle.merc_flat.specs.GoalFaults.{unknown};
ghost use Rattle.merc_flat.specs.Flat.{arity_of, goal_of};
ghost use Rattle.merc_flat.specs.ClauseFaults.{form_fault_of, name_fault_of};

use crate::faults::{form_fault, size_fault};
use crate::unknown::{first_in_arguments, first_unknown, name_fault};
use merc_base::{NoMemory, Refusal, Span};
use merc_goal_tree::NodeRef;
use merc_goals::{WrittenGoal, earlier, has_few_parts, number_behind, written_goal};
use merc_name_resolution::Known;
use merc_tree::{Clause, Term};
use std::alloc::Global;

/// How many arguments a clause has.
pub(crate) fn arity_of(clause: &Clause) -> usize
    ensures value { result ≡ arity_of clause.now }
    ensures few { result ≤ clause_limit }
{
    let head = clause.head.as_ref();
    has_few_parts(&head);
    head.arguments().len()
}

/// What is wrong with the form of a clause and its size, where `flat` is its flat form.
///
/// # Errors
///
/// `NoMemory` says that memory was refused, here and in the calls below.
pub(crate) fn clause_form_fault(
    alloc: Global,
    clause: &Clause,
    flat: &NodeRef<'_>,
) -> Result<Option<Refusal>, NoMemory>
    ensures { IfOk result (λ fault. fault ≡ form_fault_of clause.now flat.now) }
{
    let arity = arity_of(clause);
    match &clause.body {
        Some(body) => {
            let goal = body_goal(alloc, clause, body)?;
            form_fault(alloc, arity, clause.span, &goal, flat)
        }
        None => size_fault(alloc, arity, clause.span, flat),
    }
}

/// The first unknown name of a clause, in the arguments of its head and in its body.
pub(crate) fn clause_name_fault(
    alloc: Global,
    known: &Known<'_>,
    clause: &Clause,
) -> Result<Option<Refusal>, NoMemory>
    ensures { IfOk result (λ fault. fault ≡ name_fault_of known.now clause.now) }
{
    let head = first_in_arguments(alloc, known, &clause.head.as_ref())?;
    let body = first_in_body(alloc, known, clause)?;
    Ok(name_fault(earlier(head, body)))
}

// The first unknown name in the body of a clause, none in a fact.
fn first_in_body(
    alloc: Global,
    known: &Known<'_>,
    clause: &Clause,
) -> Result<Option<Span>, NoMemory>
    ensures { IfOk result (λ first. first ≡ first_span (unknown known.now (goal_of clause.now))) }
{
    match &clause.body {
        Some(body) => {
            let goal = body_goal(alloc, clause, body)?;
            first_unknown(alloc, known, &goal)
        }
        None => Ok(None),
    }
}

// The goal that the body of a clause is. Its parts are numbered behind the arguments of the predicate and the parts of the
// head.
fn body_goal<'a>(
    alloc: Global,
    clause: &Clause,
    body: &'a Term,
) -> Result<WrittenGoal<'a>, NoMemory>
    ensures { IfOk result (λ goal. goal ≡ written (arity_of clause.now + parts clause.now.head) body.now) }
{
    let behind = number_behind(0, &clause.head.as_ref());
    written_goal(alloc, &body.as_ref(), arity_of(clause) + behind)
}
