//! What is wrong with a declaration or a clause by itself.
ghost use Rattle.std.specs.Prelude.{◌≡◌, false, not, Some, IfOk};
ghost use Rattle.merc_base.specs.declared.refusal.Construct.TheVariants.{«Type» as TypeWord};
ghost use Rattle.std.specs.List.{list_any, list_all};
ghost use Rattle.merc_base.specs.Names.{comma_name, semicolon_name};
ghost use Rattle.merc_item_forms.specs.Items.{Import, TypeItem, PredicateItem, ModeItem, ClauseItem};
ghost use Rattle.merc_operands.specs.Members.{chain};
ghost use Rattle.merc_item_forms.specs.Forms.{is_application, is_variable, is_foreign, has_part, is_literal, is_wide, is_head, is_opening, words, is_too_wide};
ghost use Rattle.merc_item_forms.specs.ItemValue.{item_value};
ghost use Rattle.merc_item_forms.specs.FormChecks.{are_wrong_parameters, are_wrong_constructors, is_wrong_type, is_wrong_type_head, is_wrong_predicate, is_wrong_mode, first_of, wide_fault, least_fault, fault_of};

use crate::arguments::{
    are_wrong_arguments, category_word, first_argument_word, first_constructor_word,
    first_mode_word, first_unit_word, has_wide_type, lacks_category,
};
use crate::heads::{
    is_application, is_foreign, is_function_head, is_head, is_outside_type, is_variable, is_wide,
    is_wrong_head,
};
use crate::item::Item;
use crate::parameters::repeats;
use crate::parts::{PartTest, has_part};
use merc_base::{Construct, Detail, LimitName, Name, Names, NoMemory, Rule};
use merc_operands::{arguments, members};
use merc_tree::TermRef;
use std::alloc::Global;

/// Where an item stands among the others.
#[derive(Clone, Copy)]
pub(crate) struct Position {
    pub(crate) is_first: bool,
    pub(crate) is_last: bool,
}

// The fault of the lowest rule among a wrong form, what the profile leaves out, and too many arguments.
fn least_fault(is_wrong: bool, word: Option<Construct>, is_too_wide: bool) -> Option<(Rule, Detail)>
    ensures { result ≡ least_fault is_wrong word is_too_wide }
{
    if is_wrong {
        return Some((Rule::WrongForm, Detail::Plain));
    }
    match word {
        Some(word) => Some((Rule::OutsideProfile, Detail::Word(word))),
        None => wide_fault(is_too_wide),
    }
}

fn wide_fault(is_too_wide: bool) -> Option<(Rule, Detail)>
    ensures { result ≡ wide_fault is_too_wide }
{
    if is_too_wide {
        Some((Rule::LimitPassed, Detail::Limit(LimitName::Arity)))
    } else {
        None
    }
}

// The first fault of an import, which has the form of one.
fn import_fault(alloc: Global, root: &TermRef<'_>) -> Result<Option<(Rule, Detail)>, NoMemory>
    ensures { IfOk result (λ fault. fault ≡ least_fault false (first_of (words (Import (chain comma_name root.now)))) false) }
{
    let units = members(alloc, root, Name::COMMA)?;
    let word = first_unit_word(&units);
    // (a call, here and below, since it costs much to prove what is dropped)
    drop(units);
    Ok(least_fault(false, word, false))
}

// The first fault of a type's declaration.
fn type_fault(
    alloc: Global,
    names: &Names,
    own: Name,
    head: &TermRef<'_>,
    root: &TermRef<'_>,
) -> Result<Option<(Rule, Detail)>, NoMemory>
    ensures { IfOk result (λ fault. fault ≡ least_fault (is_wrong_type names.now own head.now (chain semicolon_name root.now)) (first_of (words (TypeItem head.now (chain semicolon_name root.now)))) (is_too_wide (TypeItem head.now (chain semicolon_name root.now)))) }
{
    let constructors = members(alloc, root, Name::SEMICOLON)?;
    let fault = declared_type_fault(alloc, names, own, head, &constructors);
    drop(constructors);
    fault
}

// The first fault of the declaration of a type with these constructors.
fn declared_type_fault(
    alloc: Global,
    names: &Names,
    own: Name,
    head: &TermRef<'_>,
    constructors: &[TermRef<'_>],
) -> Result<Option<(Rule, Detail)>, NoMemory>
    ensures { IfOk result (λ fault. fault ≡ least_fault (is_wrong_type names.now own head.now constructors.now) (first_of (words (TypeItem head.now constructors.now))) (is_too_wide (TypeItem head.now constructors.now))) }
{
    let is_wrong = is_wrong_type(alloc, names, own, head, constructors)?;
    Ok(least_fault(
        is_wrong,
        type_word(head, constructors),
        is_wide(head) || any_is_wide(constructors),
    ))
}

fn is_wrong_type(
    alloc: Global,
    names: &Names,
    own: Name,
    head: &TermRef<'_>,
    constructors: &[TermRef<'_>],
) -> Result<bool, NoMemory>
    ensures { IfOk result (λ wrong. wrong ≡ is_wrong_type names.now own head.now constructors.now) }
{
    if is_wrong_type_head(alloc, names, own, head)? {
        return Ok(true);
    }
    Ok(are_wrong_constructors(constructors, own))
}

// Whether this cannot be the head of a type: a name of the module's own over distinct variables.
fn is_wrong_type_head(
    alloc: Global,
    names: &Names,
    own: Name,
    head: &TermRef<'_>,
) -> Result<bool, NoMemory>
    ensures { IfOk result (λ wrong. wrong ≡ is_wrong_type_head names.now own head.now) }
{
    if !is_application(head) || is_foreign(head, own) {
        return Ok(true);
    }
    let parameters = arguments(alloc, head)?;
    let are_wrong = are_wrong_parameters(alloc, names, &parameters);
    drop(parameters);
    are_wrong
}

// The first fault of a type that is not declared by its constructors.
fn other_type_fault(
    alloc: Global,
    names: &Names,
    own: Name,
    head: &TermRef<'_>,
) -> Result<Option<(Rule, Detail)>, NoMemory>
    ensures { IfOk result (λ fault. fault ≡ least_fault (is_wrong_type_head names.now own head.now) (Some TypeWord) false) }
{
    let is_wrong = is_wrong_type_head(alloc, names, own, head)?;
    Ok(least_fault(is_wrong, Some(Construct::Type), false))
}

// Whether the parameters of a type are not distinct variables.
fn are_wrong_parameters(
    alloc: Global,
    names: &Names,
    parameters: &[TermRef<'_>],
) -> Result<bool, NoMemory>
    ensures { IfOk result (λ wrong. wrong ≡ are_wrong_parameters names.now parameters.now) }
{
    if !are_variables(parameters) {
        return Ok(true);
    }
    repeats(alloc, names, parameters)
}

fn are_variables(terms: &[TermRef<'_>]) -> bool
    ensures { result ≡ list_all is_variable terms.now }
{
    terms.iter().all(|term| is_variable(term))
}

fn are_applications(terms: &[TermRef<'_>]) -> bool
    ensures { result ≡ list_all is_application terms.now }
{
    terms.iter().all(|term| is_application(term))
}

fn are_wrong_constructors(constructors: &[TermRef<'_>], own: Name) -> bool
    ensures { result ≡ are_wrong_constructors own constructors.now }
{
    !are_applications(constructors)
        || any_is_foreign(constructors, own)
        || any_has_literal(constructors)
}

fn any_is_foreign(terms: &[TermRef<'_>], own: Name) -> bool
    ensures { result ≡ list_any (is_foreign own) terms.now }
{
    terms.iter().any(|term| is_foreign(term, own))
}

fn any_has_literal(terms: &[TermRef<'_>]) -> bool
    ensures { result ≡ list_any (has_part is_literal) terms.now }
{
    terms.iter().any(|term| has_part(term, PartTest::Literal))
}

fn any_is_wide(terms: &[TermRef<'_>]) -> bool
    ensures { result ≡ list_any (has_part is_wide) terms.now }
{
    terms.iter().any(|term| has_part(term, PartTest::Wide))
}

// The first word for what the profile leaves out of a type's declaration.
fn type_word(head: &TermRef<'_>, constructors: &[TermRef<'_>]) -> Option<Construct>
    ensures { result ≡ first_of (words (TypeItem head.now constructors.now)) }
{
    if is_outside_type(head) {
        return Some(Construct::Type);
    }
    first_constructor_word(constructors)
}

// The first fault of a predicate's declaration.
fn predicate_fault(
    alloc: Global,
    own: Name,
    head: &TermRef<'_>,
    category: &Option<TermRef<'_>>,
) -> Result<Option<(Rule, Detail)>, NoMemory>
    ensures { IfOk result (λ fault. fault ≡ least_fault (is_wrong_predicate own head.now category.now) (first_of (words (PredicateItem head.now category.now))) (is_too_wide (PredicateItem head.now category.now))) }
{
    let arguments = arguments(alloc, head)?;
    let is_wrong = is_wrong_head(head, own)
        || are_wrong_arguments(&arguments)
        || lacks_category(category);
    let word = if is_function_head(head) {
        Some(Construct::Function)
    } else {
        first_argument_word(&arguments).or(category_word(category))
    };
    let fault = least_fault(is_wrong, word, is_wide(head) || has_wide_type(&arguments));
    drop(arguments);
    Ok(fault)
}

// The first fault of a mode's declaration.
fn mode_fault(
    alloc: Global,
    own: Name,
    head: &TermRef<'_>,
    category: &Option<TermRef<'_>>,
) -> Result<Option<(Rule, Detail)>, NoMemory>
    ensures { IfOk result (λ fault. fault ≡ least_fault (is_wrong_mode own head.now category.now) (first_of (words (ModeItem head.now category.now))) (is_wide head.now)) }
{
    let modes = arguments(alloc, head)?;
    let is_wrong = is_wrong_head(head, own)
        || !are_applications(&modes)
        || lacks_category(category);
    let word = if is_function_head(head) {
        Some(Construct::Function)
    } else {
        first_mode_word(&modes).or(category_word(category))
    };
    drop(modes);
    Ok(least_fault(is_wrong, word, is_wide(head)))
}

// The first fault of a clause's head.
fn clause_fault(head: &TermRef<'_>) -> Option<(Rule, Detail)>
    ensures { result ≡ least_fault (not (is_head head.now)) (first_of (words (ClauseItem head.now None))) (is_wide head.now) }
{
    let word = if is_function_head(head) {
        Some(Construct::Function)
    } else {
        None
    };
    least_fault(!is_head(head), word, is_wide(head))
}

/// The first fault of an item in a module of this name. It may stand first, and it may stand last.
pub(crate) fn item_fault(
    alloc: Global,
    names: &Names,
    own: Name,
    position: Position,
    item: &Item<'_>,
) -> Result<Option<(Rule, Detail)>, NoMemory>
    ensures { IfOk result (λ fault. fault ≡ fault_of names.now own position.is_first position.is_last (item_value item.now)) }
{
    if position.is_first && !is_opening(item) {
        return Ok(Some((Rule::WrongForm, Detail::Plain)));
    }
    match item {
        Item::Opening(_) => Ok(least_fault(!position.is_first, None, false)),
        Item::Ending(name) => Ok(least_fault(!position.is_last || *name != own, None, false)),
        Item::Section => Ok(None),
        Item::Import(root) => import_fault(alloc, root),
        Item::Type(head, root) => type_fault(alloc, names, own, head, root),
        Item::Predicate(head, category) => predicate_fault(alloc, own, head, category),
        Item::Mode(head, category) => mode_fault(alloc, own, head, category),
        Item::Clause(head, _) => Ok(clause_fault(head)),
        Item::OtherType(head) => other_type_fault(alloc, names, own, head),
        Item::OtherFunction => Ok(least_fault(false, Some(Construct::Function), false)),
        Item::OtherGrammar => Ok(least_fault(false, Some(Construct::GrammarRule), false)),
        Item::OtherDeclaration => Ok(least_fault(false, Some(Construct::Declaration), false)),
        Item::Formless => Ok(least_fault(true, None, false)),
    }
}

fn is_opening(item: &Item<'_>) -> bool
    ensures { result ≡ is_opening (item_value item.now) }
{
    matches!(item, Item::Opening(_))
}
