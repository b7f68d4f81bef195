//! The forms of declarations and clause heads: each item by itself.
ghost use Rattle.std.specs.Prelude.{◌≡◌, IfOk, IfErr};
ghost use Rattle.merc_base.specs.FirstFault.{AnswersFirst, HasNone};
ghost use Rattle.merc_item_forms.specs.Items.{place_of};
ghost use Rattle.merc_item_forms.specs.FormFaults.{HasFormFault, opened, own_name, Rises};
ghost use Rattle.merc_item_forms.specs.ItemValue.{item_value};
ghost use Rattle.merc_item_forms.specs.FormChecks.{at_place, refusal_at, no_item, first_refusal};

use crate::declarations::{Position, item_fault};
use crate::item::{Item, item_of};
use merc_base::{Detail, Fault, Name, Names, NoMemory, Place, Refusal, Rule};
use merc_tree::{TermRef, Terms};
use std::alloc::Global;

/// Checks the forms of declarations and clause heads. The terms stand in the order of their places.
///
/// # Errors
///
/// `Refused` says the first fault: at the least place, and there of the smaller rule. `NoMemory` says that memory was
/// refused.
pub fn check_forms(alloc: Global, terms: &Terms, names: &Names) -> Result<(), Fault>
    requires order { Rises terms.now }
    ensures fine { IfOk result (λ _. HasNone (HasFormFault names.now terms.now)) }
    ensures refused { IfErr result (λ fault. AnswersFirst (HasFormFault names.now terms.now) fault) }
{
    match first_refusal(alloc, terms, names)? {
        Some(refusal) => Err(Fault::Refused(refusal)),
        None => Ok(()),
    }
}

fn first_refusal(alloc: Global, terms: &Terms, names: &Names) -> Result<Option<Refusal>, NoMemory>
    ensures { IfOk result (λ refusal. refusal ≡ first_refusal names.now terms.now) }
{
    let own = match terms.get(0) {
        Some(first) => opened(&item_of(&first)),
        None => return Ok(Some(no_item())),
    };
    for index in 0..terms.len() {
        if let Some(refusal) = refusal_at(alloc, terms, names, own, index)? {
            return Ok(Some(refusal));
        }
    }
    Ok(None)
}

/// The name of the module, which its first item gives; any name where the first item gives none.
pub fn own_name(terms: &Terms) -> Name
    ensures { result ≡ own_name terms.now }
{
    match terms.get(0) {
        Some(first) => opened(&item_of(&first)),
        None => Name::DIVISION_BY_ZERO,
    }
}

// A module without items is refused at the front of its file.
fn no_item() -> Refusal
    ensures { result ≡ no_item }
{
    Refusal {
        rule: Rule::WrongForm,
        place: Place { byte: 0, line: 1 },
        detail: Detail::Plain,
    }
}

// The name of the module that an item opens. Another item is refused as the first one, and the name is not asked for.
fn opened(item: &Item<'_>) -> Name
    ensures { result ≡ opened (item_value item.now) }
{
    match item {
        Item::Opening(name) => *name,
        _ => Name::DIVISION_BY_ZERO,
    }
}

// The refusal at the item of this index, in a module of this name.
fn refusal_at(
    alloc: Global,
    terms: &Terms,
    names: &Names,
    own: Name,
    index: usize,
) -> Result<Option<Refusal>, NoMemory>
    ensures { IfOk result (λ refusal. refusal ≡ refusal_at names.now own terms.now index) }
{
    let count = terms.len();
    let term = match terms.get(index) {
        Some(term) => term,
        None => return Ok(None),
    };
    let position = Position {
        is_first: index == 0,
        is_last: index + 1 == count,
    };
    let fault = item_fault(alloc, names, own, position, &item_of(&term))?;
    Ok(at_place(place_of(&term), fault))
}

fn at_place(place: Place, fault: Option<(Rule, Detail)>) -> Option<Refusal>
    ensures { result ≡ at_place place fault }
{
    match fault {
        Some((rule, detail)) => Some(Refusal {
            rule,
            place,
            detail,
        }),
        None => None,
    }
}

fn place_of(term: &TermRef<'_>) -> Place
    ensures { result ≡ place_of term.now }
{
    let span = term.span();
    Place {
        byte: span.first,
        line: span.line,
    }
}
