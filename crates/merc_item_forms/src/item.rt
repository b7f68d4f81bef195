//! The items of a module, told by their terms.
ghost use Rattle.std.specs.Prelude.{◌≡◌};
ghost use Rattle.merc_item_forms.specs.Items.{item_of, declaration, unary, nullary, wider, type_item, is_word, with_category, PredicateItem, ModeItem};
ghost use Rattle.merc_item_forms.specs.ItemValue.{item_value};
ghost use Rattle.merc_operands.specs.Operands.{head_and_category};

use merc_base::Name;
use merc_operands::{Operands, operands_of, plain_name};
use merc_tree::TermRef;

/// What an item of a module is.
#[derive(Drop)]
pub enum Item<'a> {
    /// `:- module M.`
    Opening(Name),
    /// `:- end_module M.`
    Ending(Name),
    /// `:- interface.` or `:- implementation.`
    Section,
    /// `:- import_module U, V.`, with the root of the chain of units.
    Import(TermRef<'a>),
    /// `:- type H ---> C ; D.`, with the head and the root of the chain of constructors.
    Type(TermRef<'a>, TermRef<'a>),
    /// `:- pred H is C.`, with the head and the category, if there is one.
    Predicate(TermRef<'a>, Option<TermRef<'a>>),
    /// `:- mode H is C.`, likewise.
    Mode(TermRef<'a>, Option<TermRef<'a>>),
    /// `H :- B.`, or a head alone.
    Clause(TermRef<'a>, Option<TermRef<'a>>),
    /// A type that is not declared by its constructors, with its head.
    OtherType(TermRef<'a>),
    /// A function.
    OtherFunction,
    /// A grammar rule.
    OtherGrammar,
    /// Another declaration that the profile leaves out.
    OtherDeclaration,
    /// Of no known form.
    Formless,
}

/// The item that a term is.
pub fn item_of<'a>(term: &TermRef<'a>) -> Item<'a>
    ensures { item_value result ≡ item_of term.now }
{
    match operands_of(term) {
        Operands::One(name, only) => {
            if name == Name::COLON_MINUS {
                declaration(&only)
            } else {
                Item::Clause(term.copy(), None)
            }
        }
        Operands::Two(name, first, second) => {
            if name == Name::COLON_MINUS {
                Item::Clause(first, Some(second))
            } else if name == Name::GRAMMAR_ARROW {
                Item::OtherGrammar
            } else {
                Item::Clause(term.copy(), None)
            }
        }
        _ => Item::Clause(term.copy(), None),
    }
}

// What stands behind `:-`.
fn declaration<'a>(term: &TermRef<'a>) -> Item<'a>
    ensures { item_value result ≡ declaration term.now }
{
    match operands_of(term) {
        Operands::Zero(word) => nullary(word),
        Operands::One(word, argument) => unary(word, &argument),
        Operands::Two(word, _, _) => wider(word),
        Operands::Many(word) => wider(word),
        Operands::Qualified => Item::OtherDeclaration,
        Operands::NotApplied => Item::Formless,
    }
}

// A declaration that is its word alone.
fn nullary<'a>(word: Name) -> Item<'a>
    ensures { item_value result ≡ nullary word }
{
    if word == Name::INTERFACE || word == Name::IMPLEMENTATION {
        Item::Section
    } else {
        wider(word)
    }
}

// A declaration whose word has one argument.
fn unary<'a>(word: Name, argument: &TermRef<'a>) -> Item<'a>
    ensures { item_value result ≡ unary word argument.now }
{
    if word == Name::MODULE {
        match plain_name(argument) {
            Some(name) => Item::Opening(name),
            None => Item::Formless,
        }
    } else if word == Name::END_MODULE {
        match plain_name(argument) {
            Some(name) => Item::Ending(name),
            None => Item::Formless,
        }
    } else if word == Name::IMPORT_MODULE {
        Item::Import(argument.copy())
    } else if word == Name::MODE {
        mode_item(argument)
    } else if word == Name::TYPE {
        type_item(argument)
    } else if word == Name::PRED {
        predicate_item(argument)
    } else {
        wider(word)
    }
}

// A declaration by its word alone.
fn wider<'a>(word: Name) -> Item<'a>
    ensures { item_value result ≡ wider word }
{
    if word == Name::FUNC {
        Item::OtherFunction
    } else if is_word(word) {
        Item::Formless
    } else {
        Item::OtherDeclaration
    }
}

// Whether a name is a word of the declarations that a module may have.
fn is_word(name: Name) -> bool
    ensures { result ≡ is_word name }
{
    name == Name::MODULE
        || name == Name::END_MODULE
        || name == Name::IMPORT_MODULE
        || name == Name::MODE
        || name == Name::TYPE
        || name == Name::PRED
        || name == Name::INTERFACE
        || name == Name::IMPLEMENTATION
}

fn type_item<'a>(term: &TermRef<'a>) -> Item<'a>
    ensures { item_value result ≡ type_item term.now }
{
    match operands_of(term) {
        Operands::Two(name, head, constructors) => {
            if name == Name::TYPE_ARROW {
                Item::Type(head, constructors)
            } else if name == Name::EQUAL_EQUAL {
                Item::OtherType(head)
            } else {
                Item::OtherType(term.copy())
            }
        }
        _ => Item::OtherType(term.copy()),
    }
}

fn predicate_item<'a>(term: &TermRef<'a>) -> Item<'a>
    ensures { item_value result ≡ with_category PredicateItem term.now }
{
    let (head, category) = head_and_category(term);
    Item::Predicate(head, category)
}

fn mode_item<'a>(term: &TermRef<'a>) -> Item<'a>
    ensures { item_value result ≡ with_category ModeItem term.now }
{
    let (head, category) = head_and_category(term);
    Item::Mode(head, category)
}

// `H is C`, or a head alone.
fn head_and_category<'a>(term: &TermRef<'a>) -> (TermRef<'a>, Option<TermRef<'a>>)
    ensures { result ≡ head_and_category term.now }
{
    match operands_of(term) {
        Operands::Two(name, head, category) => {
            if name == Name::IS {
                (head, Some(category))
            } else {
                (term.copy(), None)
            }
        }
        _ => (term.copy(), None),
    }
}
