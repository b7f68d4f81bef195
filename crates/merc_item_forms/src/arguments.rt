//! Arguments of declarations: types, modes and categories.
ghost use Rattle.std.specs.Prelude.{◌≡◌, not, Some};
ghost use Rattle.std.specs.List.{list_any, flat_map};
ghost use Rattle.merc_item_forms.specs.Forms.{is_moded, has_part, is_literal, is_wide, argument_type, argument_mode, is_mode, lacks_mode, is_category, category_named, is_outside_category, lacks_category, is_unit, word_if, mode_words, argument_words, constructor_words, category_words};
ghost use Rattle.merc_item_forms.specs.FormChecks.{first_of, unit_words, is_partly_moded, are_wrong_arguments};

use crate::heads::is_application;
use crate::parts::{PartTest, arguments_have_part, has_part, passes};
use merc_base::{Category, Construct, Name};
use merc_operands::{Operands, operands_of, plain_name};
use merc_tree::TermRef;

/// Whether an argument is a `T::M`.
pub fn is_moded(argument: &TermRef<'_>) -> bool
    ensures { result ≡ is_moded argument.now }
{
    passes(&argument.shape(), PartTest::Moded)
}

/// The type of a predicate's argument, without its mode.
pub fn argument_type<'a>(argument: &TermRef<'a>) -> TermRef<'a>
    ensures { result ≡ argument_type argument.now }
{
    match operands_of(argument) {
        Operands::Two(name, first, _) => {
            if name == Name::COLON_COLON {
                first
            } else {
                argument.copy()
            }
        }
        _ => argument.copy(),
    }
}

/// The mode of a predicate's argument, where it has one.
pub fn argument_mode<'a>(argument: &TermRef<'a>) -> Option<TermRef<'a>>
    ensures { result ≡ argument_mode argument.now }
{
    match operands_of(argument) {
        Operands::Two(name, _, second) => {
            if name == Name::COLON_COLON {
                Some(second)
            } else {
                None
            }
        }
        _ => None,
    }
}

// Whether an argument has a variable or a literal where its mode should be.
fn lacks_mode(argument: &TermRef<'_>) -> bool
    ensures { result ≡ lacks_mode (argument_mode argument.now) }
{
    match argument_mode(argument) {
        Some(mode) => !is_application(&mode),
        None => false,
    }
}

/// Whether the arguments of a predicate's declaration are not of their form: a literal in a type, a mode at some
/// alone, or a mode that is no name.
pub(crate) fn are_wrong_arguments(arguments: &[TermRef<'_>]) -> bool
    ensures { result ≡ are_wrong_arguments arguments.now }
{
    has_literal_type(arguments) || is_partly_moded(arguments) || any_lacks_mode(arguments)
}

fn has_literal_type(arguments: &[TermRef<'_>]) -> bool
    ensures { result ≡ list_any (λ argument. has_part is_literal (argument_type argument)) arguments.now }
{
    arguments.iter().any(|argument| has_part(&argument_type(argument), PartTest::Literal))
}

fn is_partly_moded(arguments: &[TermRef<'_>]) -> bool
    ensures { result ≡ is_partly_moded arguments.now }
{
    any_is_moded(arguments) && any_is_plain(arguments)
}

fn any_is_moded(arguments: &[TermRef<'_>]) -> bool
    ensures { result ≡ list_any is_moded arguments.now }
{
    arguments.iter().any(|argument| is_moded(argument))
}

fn any_is_plain(arguments: &[TermRef<'_>]) -> bool
    ensures { result ≡ list_any (λ argument. not (is_moded argument)) arguments.now }
{
    arguments.iter().any(|argument| !is_moded(argument))
}

fn any_lacks_mode(arguments: &[TermRef<'_>]) -> bool
    ensures { result ≡ list_any (λ argument. lacks_mode (argument_mode argument)) arguments.now }
{
    arguments.iter().any(|argument| lacks_mode(argument))
}

/// Whether a type among a predicate's arguments has a part with too many arguments.
pub(crate) fn has_wide_type(arguments: &[TermRef<'_>]) -> bool
    ensures { result ≡ list_any (λ argument. has_part is_wide (argument_type argument)) arguments.now }
{
    arguments.iter().any(|argument| has_part(&argument_type(argument), PartTest::Wide))
}

/// Whether a category is no category's name.
pub(crate) fn lacks_category(category: &Option<TermRef<'_>>) -> bool
    ensures { result ≡ lacks_category category.now }
{
    match category {
        Some(term) => !is_category(plain_name(term)),
        None => false,
    }
}

fn is_category(name: Option<Name>) -> bool
    ensures { result ≡ is_category name }
{
    match name {
        Some(known) => category_named(known).is_some() || is_outside_category(name),
        None => false,
    }
}

/// The category with this name.
pub fn category_named(name: Name) -> Option<Category>
    ensures { result ≡ category_named name }
{
    if name == Name::DET {
        Some(Category::Det)
    } else if name == Name::SEMIDET {
        Some(Category::Semidet)
    } else if name == Name::MULTI {
        Some(Category::Multi)
    } else if name == Name::NONDET {
        Some(Category::Nondet)
    } else if name == Name::ERRONEOUS {
        Some(Category::Erroneous)
    } else if name == Name::FAILURE {
        Some(Category::Failure)
    } else {
        None
    }
}

fn is_outside_category(name: Option<Name>) -> bool
    ensures { result ≡ is_outside_category name }
{
    match name {
        Some(name) => name == Name::CC_MULTI || name == Name::CC_NONDET,
        None => false,
    }
}

/// The word for a category that the profile leaves out.
pub(crate) fn category_word(category: &Option<TermRef<'_>>) -> Option<Construct>
    ensures { result ≡ first_of (category_words category.now) }
{
    match category {
        Some(term) => word_if(is_outside_category(plain_name(term)), Construct::Category),
        None => None,
    }
}

// A word where a test holds.
fn word_if(test: bool, word: Construct) -> Option<Construct>
    ensures { result ≡ first_of (word_if test word) }
{
    if test { Some(word) } else { None }
}

// Whether a mode is `in` or `out`.
fn is_mode(mode: &TermRef<'_>) -> bool
    ensures { result ≡ is_mode mode.now }
{
    match plain_name(mode) {
        Some(name) => name == Name::IN || name == Name::OUT,
        None => false,
    }
}

// The word for a mode that the profile leaves out.
fn mode_word(mode: &TermRef<'_>) -> Option<Construct>
    ensures { result ≡ first_of (mode_words (Some mode.now)) }
{
    word_if(!is_mode(mode), Construct::ModeName)
}

// The first word for what the profile leaves out of an argument of a predicate's declaration.
fn argument_word(argument: &TermRef<'_>) -> Option<Construct>
    ensures { result ≡ first_of (argument_words argument.now) }
{
    if has_part(&argument_type(argument), PartTest::OutsideType) {
        return Some(Construct::Type);
    }
    match argument_mode(argument) {
        Some(mode) => mode_word(&mode),
        None => None,
    }
}

// The word for a constructor that the profile leaves out.
fn constructor_word(constructor: &TermRef<'_>) -> Option<Construct>
    ensures { result ≡ first_of (constructor_words constructor.now) }
{
    let is_outside = has_part(constructor, PartTest::Moded)
        || arguments_have_part(constructor, PartTest::OutsideType);
    word_if(is_outside, Construct::Type)
}

// The word for a unit that there is not.
fn unit_word(unit: &TermRef<'_>) -> Option<Construct>
    ensures { result ≡ first_of (unit_words unit.now) }
{
    word_if(!is_unit(plain_name(unit)), Construct::Import)
}

fn is_unit(name: Option<Name>) -> bool
    ensures { result ≡ is_unit name }
{
    match name {
        Some(name) => is_unit_name(name),
        None => false,
    }
}

fn is_unit_name(name: Name) -> bool
    ensures { result ≡ is_unit (Some name) }
{
    name == Name::INT
        || name == Name::STRING
        || name == Name::LIST
        || name == Name::BOOL
        || name == Name::MAYBE
        || name == Name::REQUIRE
}

/// The first word for what the profile leaves out of the arguments of a predicate's declaration.
pub(crate) fn first_argument_word(arguments: &[TermRef<'_>]) -> Option<Construct>
    ensures { result ≡ first_of (flat_map argument_words arguments.now) }
{
    for argument in arguments {
        if let Some(word) = argument_word(argument) {
            return Some(word);
        }
    }
    None
}

/// The first word for what the profile leaves out of the arguments of a mode's declaration.
pub(crate) fn first_mode_word(modes: &[TermRef<'_>]) -> Option<Construct>
    ensures { result ≡ first_of (flat_map (λ mode. mode_words (Some mode)) modes.now) }
{
    for mode in modes {
        if let Some(word) = mode_word(mode) {
            return Some(word);
        }
    }
    None
}

/// The first word for what the profile leaves out of constructors.
pub(crate) fn first_constructor_word(constructors: &[TermRef<'_>]) -> Option<Construct>
    ensures { result ≡ first_of (flat_map constructor_words constructors.now) }
{
    for constructor in constructors {
        if let Some(word) = constructor_word(constructor) {
            return Some(word);
        }
    }
    None
}

/// The first word for units that there are not.
pub(crate) fn first_unit_word(units: &[TermRef<'_>]) -> Option<Construct>
    ensures { result ≡ first_of (flat_map unit_words units.now) }
{
    for unit in units {
        if let Some(word) = unit_word(unit) {
            return Some(word);
        }
    }
    None
}
