//! The symbols of types.
ghost use Rattle.std.specs.Prelude.{◌≡◌, List, [], ◌∷◌, ◌++◌, map, IfOk, OnOk};
ghost use Rattle.std.specs.List.{list_all};
ghost use Rattle.merc_goal_tree.specs.declared.goal.Symbol.{Symbol};
ghost use Rattle.merc_grading.specs.Fitting.{fellows};
ghost use Rattle.merc_grading.specs.Known.{has_symbol, is_single, same_symbol, symbol_of};
ghost use Rattle.merc_det.specs.Symbols.{is_complete_by, AreKeys};

use merc_base::{Groups, Key, NoMemory};
use merc_goal_tree::Symbol;
use merc_grading::symbols::fellows;
use merc_name_resolution::Known;
use merc_tree::Constructor;
use std::alloc::Global;

pub(crate) fn same_symbol(one: Symbol, other: Symbol) -> bool
    ensures { result ≡ same_symbol one other }
{
    match one {
        Symbol::Constructor(name, arity) => match other {
            Symbol::Constructor(other, count) => name == other && arity == count,
            Symbol::Integer(_) | Symbol::Text(_) => false,
        },
        Symbol::Integer(value) => match other {
            Symbol::Integer(other) => value == other,
            Symbol::Constructor(_, _) | Symbol::Text(_) => false,
        },
        Symbol::Text(text) => match other {
            Symbol::Text(other) => text == other,
            Symbol::Constructor(_, _) | Symbol::Integer(_) => false,
        },
    }
}

/// Whether the type to which a symbol belongs has no other symbol.
pub(crate) fn is_single(known: &Known<'_>, symbol: Symbol) -> bool
    ensures { result ≡ is_single (fellows known.now.types symbol) }
{
    match fellows(known, symbol) {
        Some(constructors) => constructors.len() == 1,
        None => false,
    }
}

/// Whether these are all symbols of the type to which they belong. It asks for no more symbols of the type than there
/// are of these, and one.
///
/// # Errors
///
/// `NoMemory` where memory was refused.
pub(crate) fn is_complete(
    alloc: Global,
    known: &Known<'_>,
    symbols: &[Symbol],
) -> Result<bool, NoMemory>
    ensures { IfOk result (λ complete. complete ≡ is_complete_by known.now.types symbols.now) }
{
    match symbols {
        [first, ..] => match fellows(known, *first) {
            Some(constructors) => are_all_among(alloc, constructors, symbols),
            None => Ok(false),
        },
        [] => Ok(false),
    }
}

// Whether all constructors are among the symbols.
fn are_all_among(
    alloc: Global,
    constructors: &[Constructor],
    symbols: &[Symbol],
) -> Result<bool, NoMemory>
    ensures { IfOk result (λ all. all ≡ list_all (λ symbol. has_symbol symbols.now symbol) (map symbol_of constructors.now)) }
{
    let keys = keys_of(alloc, symbols)?;
    for constructor in constructors {
        if !has_constructor(&keys, constructor) {
            return Ok(false);
        }
    }
    Ok(true)
}

// The constructors among symbols, by their names and numbers of arguments.
fn keys_of(alloc: Global, symbols: &[Symbol]) -> Result<Groups<Symbol>, NoMemory>
    ensures { IfOk result (λ keys. AreKeys keys symbols.now) }
{
    let mut keys = Groups::new(alloc);
    for symbol in symbols {
        add_key(alloc, *symbol, &mut keys)?;
    }
    Ok(keys)
}

fn add_key(alloc: Global, symbol: Symbol, keys: &mut Groups<Symbol>) -> Result<(), NoMemory>
    ensures { OnOk result ((symbols : List Symbol) → AreKeys keys.old symbols → AreKeys keys.new (symbols ++ symbol ∷ [])) }
{
    match symbol {
        Symbol::Constructor(name, arity) => keys.add(alloc, Key { name, arity }, symbol),
        Symbol::Integer(_) | Symbol::Text(_) => Ok(()),
    }
}

fn has_constructor(keys: &Groups<Symbol>, constructor: &Constructor) -> bool
    ensures { (symbols : List Symbol) → AreKeys keys.now symbols → result ≡ has_symbol symbols (symbol_of constructor.now) }
{
    let key = Key {
        name: constructor.name,
        arity: constructor.args.len(),
    };
    !keys.at(key).is_empty()
}
