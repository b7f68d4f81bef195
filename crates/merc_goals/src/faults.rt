//! What is found in the entries of a goal.
ghost use Rattle.std.specs.Prelude.{◌≡◌};
ghost use Rattle.merc_goals.specs.Faults.{earlier, first_of_both, first_span, wrong_form, outside_profile};
ghost use Rattle.merc_goals.specs.Found.{wrong_span, outside_span, wrong_spans, outside_spans, width, widest_of};

use crate::goal::{Entry, Form};
use merc_base::{Construct, Detail, Refusal, Rule, Span};

// The first part that is of no form, or outside the profile.
pub(crate) fn first_fault(entries: &[Entry<'_>]) -> Option<Refusal>
    ensures { result ≡ first_of_both (first_span (wrong_spans entries.now)) (first_span (outside_spans entries.now)) }
{
    first_of_both(first_wrong(entries), first_outside(entries))
}

// The earlier of a part of no form and one outside the profile. At one byte the former is first.
fn first_of_both(wrong: Option<Span>, outside: Option<Span>) -> Option<Refusal>
    ensures { result ≡ first_of_both wrong outside }
{
    match (wrong, outside) {
        (None, None) => None,
        (Some(wrong), None) => Some(wrong_form(wrong)),
        (None, Some(outside)) => Some(outside_profile(outside)),
        (Some(wrong), Some(outside)) => {
            if wrong.first <= outside.first {
                Some(wrong_form(wrong))
            } else {
                Some(outside_profile(outside))
            }
        }
    }
}

fn wrong_form(span: Span) -> Refusal
    ensures { result ≡ wrong_form span }
{
    Refusal {
        rule: Rule::WrongForm,
        place: span.start(),
        detail: Detail::Plain,
    }
}

fn outside_profile(span: Span) -> Refusal
    ensures { result ≡ outside_profile span }
{
    Refusal {
        rule: Rule::OutsideProfile,
        place: span.start(),
        detail: Detail::Word(Construct::Goal),
    }
}

// The first part of no form.
fn first_wrong(entries: &[Entry<'_>]) -> Option<Span>
    ensures { result ≡ first_span (wrong_spans entries.now) }
{
    let mut first = None;
    for entry in entries {
        first = earlier(first, wrong_span(entry));
    }
    first
}

// The first part outside the profile.
fn first_outside(entries: &[Entry<'_>]) -> Option<Span>
    ensures { result ≡ first_span (outside_spans entries.now) }
{
    let mut first = None;
    for entry in entries {
        first = earlier(first, outside_span(entry));
    }
    first
}

/// The one that begins earlier, the former where both begin at one byte.
pub fn earlier(one: Option<Span>, other: Option<Span>) -> Option<Span>
    ensures { result ≡ earlier one other }
{
    match (one, other) {
        (None, other) => other,
        (Some(one), None) => Some(one),
        (Some(one), Some(other)) => Some(if one.first <= other.first { one } else { other }),
    }
}

// The span of an entry of no form.
fn wrong_span(entry: &Entry<'_>) -> Option<Span>
    ensures { result ≡ wrong_span entry.now }
{
    match entry.form {
        Form::WrongForm => Some(entry.span),
        _ => None,
    }
}

// The span of an entry outside the profile.
fn outside_span(entry: &Entry<'_>) -> Option<Span>
    ensures { result ≡ outside_span entry.now }
{
    match entry.form {
        Form::OutsideProfile => Some(entry.span),
        _ => None,
    }
}

// The most conjuncts of a parallel conjunction among these entries.
pub(crate) fn widest_parallel(entries: &[Entry<'_>]) -> usize
    ensures { result ≡ widest_of entries.now }
{
    let mut widest = 0;
    for entry in entries {
        widest = width(entry).max(widest);
    }
    widest
}

// How many conjuncts an entry has as a parallel conjunction.
fn width(entry: &Entry<'_>) -> usize
    ensures { result ≡ width entry.now }
{
    match entry.form {
        Form::Parallel(conjuncts) => conjuncts,
        _ => 0,
    }
}
