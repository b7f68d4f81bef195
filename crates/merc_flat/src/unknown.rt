//! Which names are unknown.
ghost use Rattle.std.specs.Prelude.{◌≡◌, Some, IfOk, OnOk};
ghost use Rattle.std.specs.Option.{option_map};
ghost use Rattle.merc_tree.specs.Shape.{arguments_of};
ghost use Rattle.merc_goals.specs.Faults.{earlier, first_span};
ghost use Rattle.merc_flat_form.specs.FlatForm.{argument_terms};
ghost use Rattle.merc_flat.specs.GoalFaults.{unknown, unknown_among, unknown_in};
ghost use Rattle.merc_flat.specs.UnknownNames.{call_span, entries_unknown, entry_unknown, is_arithmetic_name, is_unknown, is_unknown_call, own_span, stacked, unknown_on, unknown_refusal};

use merc_base::{Detail, Name, NoMemory, Refusal, Rule, Span};
use merc_flat_form::operation_of;
use merc_goals::{Entry, Form, WrittenGoal, earlier};
use merc_name_resolution::Known;
use merc_tree::{Shape, TermRef};
use std::alloc::Global;

/// The refusal of an unknown name, where there is one.
pub(crate) fn name_fault(first: Option<Span>) -> Option<Refusal>
    ensures { result ≡ option_map unknown_refusal first }
{
    match first {
        Some(span) => Some(unknown_name(span)),
        None => None,
    }
}

fn unknown_name(span: Span) -> Refusal
    ensures { result ≡ unknown_refusal span }
{
    Refusal {
        rule: Rule::UnknownName,
        place: span.start(),
        detail: Detail::Plain,
    }
}

/// The first unknown name in a goal.
///
/// # Errors
///
/// `NoMemory` says that memory was refused, here and in the calls below.
pub(crate) fn first_unknown(
    alloc: Global,
    known: &Known<'_>,
    goal: &WrittenGoal<'_>,
) -> Result<Option<Span>, NoMemory>
    ensures { IfOk result (λ first. first ≡ first_span (unknown known.now goal.now)) }
{
    first_among(alloc, known, goal.entries())
}

// The first unknown name in entries of a goal.
fn first_among(
    alloc: Global,
    known: &Known<'_>,
    entries: &[Entry<'_>],
) -> Result<Option<Span>, NoMemory>
    ensures { IfOk result (λ first. first ≡ first_span (entries_unknown known.now entries.now)) }
{
    let mut first = None;
    for entry in entries {
        let found = first_at(alloc, known, entry)?;
        first = earlier(first, found);
    }
    Ok(first)
}

// The first unknown name in an entry.
fn first_at(alloc: Global, known: &Known<'_>, entry: &Entry<'_>) -> Result<Option<Span>, NoMemory>
    ensures { IfOk result (λ first. first ≡ first_span (entry_unknown known.now entry.now)) }
{
    match &entry.form {
        Form::Equal(left, right) => first_of_sides(alloc, known, left, right),
        Form::Compared(_, left, right) => first_of_sides(alloc, known, left, right),
        Form::Called(term) => {
            let own = call_span(known, term, entry.span);
            let inner = first_in_arguments(alloc, known, term)?;
            Ok(earlier(own, inner))
        }
        _ => Ok(None),
    }
}

// The first unknown name in two terms.
fn first_of_sides(
    alloc: Global,
    known: &Known<'_>,
    left: &TermRef<'_>,
    right: &TermRef<'_>,
) -> Result<Option<Span>, NoMemory>
    ensures { IfOk result (λ first. first ≡ earlier (first_span (unknown_in known.now left.now)) (first_span (unknown_in known.now right.now))) }
{
    let first = first_in(alloc, known, left)?;
    let second = first_in(alloc, known, right)?;
    Ok(earlier(first, second))
}

// The first unknown name in a term.
fn first_in(alloc: Global, known: &Known<'_>, term: &TermRef<'_>) -> Result<Option<Span>, NoMemory>
    ensures { IfOk result (λ first. first ≡ first_span (unknown_in known.now term.now)) }
{
    let mut stack = Vec::new(alloc);
    stack.push(term.copy())?;
    first_on(known, stack)
}

/// The first unknown name in the arguments of a term.
pub(crate) fn first_in_arguments(
    alloc: Global,
    known: &Known<'_>,
    term: &TermRef<'_>,
) -> Result<Option<Span>, NoMemory>
    ensures { IfOk result (λ first. first ≡ first_span (unknown_among known.now (argument_terms term.now))) }
{
    let mut stack = Vec::new(alloc);
    push_arguments(&mut stack, term)?;
    first_on(known, stack)
}

// The first unknown name in the terms of a stack, from its top. A term's arguments take its place, so that the terms are
// met in the order of the text.
fn first_on(known: &Known<'_>, mut stack: Vec<TermRef<'_>>) -> Result<Option<Span>, NoMemory>
    ensures { IfOk result (λ first. first ≡ first_span (unknown_on known.now stack.entry.items)) }
{
    let mut first = None;
    while let Some(term) = stack.pop() {
        first = earlier(first, own_span(known, &term));
        push_arguments(&mut stack, &term)?;
    }
    Ok(first)
}

// Puts the arguments of a term on a stack, the first at its top.
fn push_arguments<'a>(stack: &mut Vec<TermRef<'a>>, term: &TermRef<'a>) -> Result<(), NoMemory>
    ensures { OnOk result (stack.new.items ≡ stacked stack.old.items (arguments_of term.now)) }
{
    let mut rest = term.arguments();
    while let Some(last) = rest.take_last() {
        stack.push(last)?;
    }
    Ok(())
}

// Where a call stands that is of no predicate.
fn call_span(known: &Known<'_>, term: &TermRef<'_>, span: Span) -> Option<Span>
    ensures { result ≡ call_span known.now term.now span }
{
    if is_unknown_call(known, term) {
        Some(span)
    } else {
        None
    }
}

fn is_unknown_call(known: &Known<'_>, term: &TermRef<'_>) -> bool
    ensures { result ≡ is_unknown_call known.now term.now }
{
    match term.shape() {
        Shape::Application {
            name,
            qualifier,
            arity,
        } => !known.is_callee(known.callee(name, qualifier, arity)),
        _ => false,
    }
}

// Where a term stands that is unknown itself.
fn own_span(known: &Known<'_>, term: &TermRef<'_>) -> Option<Span>
    ensures { result ≡ own_span known.now term.now }
{
    if is_unknown(known, term) {
        Some(term.span())
    } else {
        None
    }
}

// Whether a term is an application that is neither arithmetic nor a constructor.
fn is_unknown(known: &Known<'_>, term: &TermRef<'_>) -> bool
    ensures { result ≡ is_unknown known.now term.now }
{
    match term.shape() {
        Shape::Application {
            name,
            qualifier,
            arity,
        } => {
            !(is_arithmetic(name, qualifier, arity) || known.is_constructor(name, qualifier, arity))
        }
        _ => false,
    }
}

// Whether a name with so many arguments is an operation, or a `-` before its only operand.
fn is_arithmetic(name: Name, qualifier: Option<Name>, arity: usize) -> bool
    ensures { result ≡ is_arithmetic_name name qualifier arity }
{
    qualifier.is_none()
        && ((arity == 2 && operation_of(name).is_some()) || (arity == 1 && name == Name::MINUS))
}
