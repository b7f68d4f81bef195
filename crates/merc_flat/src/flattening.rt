//! Modules and goals in flat form.
ghost use Rattle.std.specs.Prelude.{◌≡◌, [], ◌∷◌, ◌++◌, None, Some, map, IfErr, IfOk, OnOk};
ghost use Rattle.merc_terms.specs.Items.{IsRefusal};
ghost use Rattle.merc_goals.specs.Written.{written};
ghost use Rattle.merc_answer_variables.specs.AnswerVariables.{answer_variables};
ghost use Rattle.merc_flat.specs.Flat.{clause_form_fault, clause_node, clauses_fault, fault_among, query_fault, query_node};
ghost use Rattle.merc_flat.specs.ClauseFaults.{asked_fault, name_fault_of};

use crate::clauses::{arity_of, clause_form_fault, clause_name_fault};
use crate::faults::form_fault;
use crate::unknown::{first_unknown, name_fault};
use merc_answer_variables::answer_variables;
use merc_base::{Fault, Names, Refusal, Sequence};
use merc_flat_form::{clause_form, goal_form};
use merc_goal_tree::{NodeRef, Nodes};
use merc_goals::{WrittenGoal, written_goal};
use merc_name_resolution::Known;
use merc_scopes::Occurrence;
use merc_tree::{Clause, TermRef};
use std::alloc::Global;

/// The clauses of a module in flat form, in order.
///
/// # Errors
///
/// `Refused` says what is wrong with the first clause that has a fault: a part of a goal that is of no form (rule 3) or
/// outside the supported part of the language (rule 15), more than 16,384 variables or more than 64 conjuncts of one
/// parallel conjunction (rule 16); or, where no clause has one of these, an unknown predicate or constructor (rule 7).
/// `NoMemory` says that memory was refused.
pub fn flatten(alloc: Global, known: &Known<'_>, names: &Names) -> Result<Nodes, Fault>
    ensures faultless { IfOk result (λ forms. clauses_fault names.now known.now ≡ None) }
    ensures forms { IfOk result (λ forms. forms ≡ map (clause_node names.now known.now) known.now.clauses) }
    ensures refused { IfErr result (λ fault. IsRefusal (λ refusal. clauses_fault names.now known.now ≡ Some refusal) fault) }
{
    let forms = clause_forms(alloc, known, names)?;
    check_names(alloc, known)?;
    Ok(forms)
}

// The clauses in flat form, where none has a fault of form.
fn clause_forms(alloc: Global, known: &Known<'_>, names: &Names) -> Result<Nodes, Fault>
    ensures faultless { IfOk result (λ forms. fault_among (clause_form_fault names.now known.now) known.now.clauses ≡ None) }
    ensures forms { IfOk result (λ forms. forms ≡ map (clause_node names.now known.now) known.now.clauses) }
    ensures refused { IfErr result (λ fault. IsRefusal (λ refusal. fault_among (clause_form_fault names.now known.now) known.now.clauses ≡ Some refusal) fault) }
{
    let clauses = known.module().clauses.as_slice();
    let mut forms = Nodes::new(alloc);
    for clause in clauses {
        add_clause(alloc, clause, known, names, &mut forms)?;
    }
    Ok(forms)
}

// Puts a clause in flat form behind others, where it has no fault of form.
fn add_clause(
    alloc: Global,
    clause: &Clause,
    known: &Known<'_>,
    names: &Names,
    forms: &mut Nodes,
) -> Result<(), Fault>
    ensures faultless { OnOk result (clause_form_fault names.now known.now clause.now ≡ None) }
    ensures form { OnOk result (forms.new ≡ forms.old ++ clause_node names.now known.now clause.now ∷ []) }
    ensures refused { IfErr result (λ fault. IsRefusal (λ refusal. clause_form_fault names.now known.now clause.now ≡ Some refusal) fault) }
{
    let place = forms.len();
    clause_form(alloc, clause, arity_of(clause), known, names, forms)?;
    match forms.get(place) {
        Some(form) => refuse(clause_form_fault(alloc, clause, &form)?),
        None => unreachable!(),
    }
}

// Checks that no clause has an unknown name.
fn check_names(alloc: Global, known: &Known<'_>) -> Result<(), Fault>
    ensures faultless { OnOk result (fault_among (name_fault_of known.now) known.now.clauses ≡ None) }
    ensures refused { IfErr result (λ fault. IsRefusal (λ refusal. fault_among (name_fault_of known.now) known.now.clauses ≡ Some refusal) fault) }
{
    let clauses = known.module().clauses.as_slice();
    for clause in clauses {
        refuse(clause_name_fault(alloc, known, clause)?)?;
    }
    Ok(())
}

// Refuses where there is a fault.
fn refuse(found: Option<Refusal>) -> Result<(), Fault>
    ensures faultless { OnOk result (found ≡ None) }
    ensures refused { IfErr result (λ fault. IsRefusal (λ refusal. found ≡ Some refusal) fault) }
{
    match found {
        Some(refusal) => Err(Fault::Refused(refusal)),
        None => Ok(()),
    }
}

/// A goal that is asked, in flat form.
#[derive(Drop)]
pub struct Query {
    /// The goal, alone in its list.
    pub form: Nodes,
    /// The variables whose values are the answers, with their numbers in the goal, in the order of the text.
    pub answers: Sequence<Occurrence>,
}

/// The flat form of a goal that is asked over a module.
///
/// # Errors
///
/// As for the clauses of a module.
pub fn flatten_query(
    alloc: Global,
    known: &Known<'_>,
    goal: &TermRef<'_>,
    names: &Names,
) -> Result<Query, Fault>
    ensures faultless { IfOk result (λ query. query_fault names.now known.now (written 0 goal.now) ≡ None) }
    ensures form { IfOk result (λ query. query.form ≡ query_node names.now known.now (written 0 goal.now) ∷ []) }
    ensures answers { IfOk result (λ query. query.answers ≡ answer_variables names.now (written 0 goal.now)) }
    ensures refused { IfErr result (λ fault. IsRefusal (λ refusal. query_fault names.now known.now (written 0 goal.now) ≡ Some refusal) fault) }
{
    let asked = written_goal(alloc, goal, 0)?;
    let answers = answer_variables(alloc, &asked, names)?;
    let mut form = Nodes::new(alloc);
    goal_form(alloc, &asked, &answers, known, names, &mut form)?;
    match form.get(0) {
        Some(flat) => check_query(alloc, known, &asked, &flat)?,
        None => unreachable!(),
    }
    Ok(Query {
        form,
        answers: Sequence::from_vec(answers),
    })
}

// Checks that a goal that is asked has no fault, where `flat` is its flat form.
fn check_query(
    alloc: Global,
    known: &Known<'_>,
    goal: &WrittenGoal<'_>,
    flat: &NodeRef<'_>,
) -> Result<(), Fault>
    ensures faultless { OnOk result (asked_fault known.now goal.now flat.now ≡ None) }
    ensures refused { IfErr result (λ fault. IsRefusal (λ refusal. asked_fault known.now goal.now flat.now ≡ Some refusal) fault) }
{
    refuse(form_fault(alloc, 0, goal.span(), goal, flat)?)?;
    refuse(name_fault(first_unknown(alloc, known, goal)?))
}
