//! Whether the symbols of disjuncts are all of a type.
ghost use Rattle.std.specs.Prelude.{◌≡◌, [], true, false, map, IfOk, MatchOption, OnOk};
ghost use Rattle.std.specs.List.{list_all};
ghost use Rattle.std.specs.Option.{option_map};
ghost use Rattle.merc_grading.specs.Known.{has_symbol, symbol_of};
ghost use Rattle.merc_switch_choice.specs.Choosing.{symbols_in, fellows_of, is_covered};
ghost use Rattle.merc_switch_choice.specs.Symbols.{all_symbols};
ghost use Rattle.merc_switch_choice.specs.Gaps.{symbol_of_gap, IsMissing};

use crate::counted::Disjuncts;
use crate::disjuncts::Disjunct;
use crate::gaps::Gap;
use crate::symbols::SymbolSet;
use merc_base::NoMemory;
use merc_goal_tree::Var;
use merc_grading::symbols::fellows;
use merc_name_resolution::Known;
use merc_tree::Constructor;
use std::alloc::Global;

/// Whether the symbols by which disjuncts split a variable are all of the type to which the first of them belongs. Where
/// those of the type have no end no more symbols are looked at, and neither where one that is missing is known already. One
/// that is found missing is kept with the disjuncts.
///
/// # Errors
///
/// `NoMemory` where memory was refused, here and in the calls below.
pub(crate) fn is_covered(
    alloc: Global,
    known: &Known<'_>,
    disjuncts: &mut Disjuncts<'_>,
    variable: Var,
) -> Result<bool, NoMemory>
    ensures covered { IfOk result (λ covered. covered ≡ is_covered known.now.types disjuncts.old variable) }
    ensures disjuncts { disjuncts.new ≡ disjuncts.old }
{
    let Some(constructors) = fellows_in(known, disjuncts.as_slice(), variable) else {
        return Ok(false);
    };
    if has_gap(disjuncts, variable, constructors) {
        return Ok(false);
    }
    match missing_among(alloc, disjuncts.as_slice(), variable, constructors)? {
        Some(gap) => {
            disjuncts.keep_gap(variable, gap)?;
            Ok(false)
        }
        None => Ok(true),
    }
}

// Whether it is known of one of the constructors that no disjunct splits the variable by it.
fn has_gap(disjuncts: &Disjuncts<'_>, variable: Var, constructors: &[Constructor]) -> bool
    ensures { result ≡ true → list_all (λ symbol. has_symbol (symbols_in disjuncts.now variable) symbol) (map symbol_of constructors.now) ≡ false }
{
    match disjuncts.gap(variable) {
        Some(gap) => gap.is_in(constructors),
        None => false,
    }
}

// The first of the constructors by which none of the disjuncts splits a variable.
fn missing_among(
    alloc: Global,
    disjuncts: &[Disjunct<'_>],
    variable: Var,
    constructors: &[Constructor],
) -> Result<Option<Gap>, NoMemory>
    ensures { IfOk result (λ missing. MatchOption missing (list_all (λ symbol. has_symbol (all_symbols [] (symbols_in disjuncts.now variable)) symbol) (map symbol_of constructors.now) ≡ true) (λ gap. IsMissing (all_symbols [] (symbols_in disjuncts.now variable)) (map symbol_of constructors.now) (symbol_of_gap gap))) }
{
    let symbols = symbols_in(alloc, disjuncts, variable)?;
    let missing = first_missing(&symbols, constructors);
    // (a call, since it costs much to prove what is dropped here)
    drop(symbols);
    Ok(missing)
}

// The symbols by which disjuncts split a variable.
fn symbols_in(
    alloc: Global,
    disjuncts: &[Disjunct<'_>],
    variable: Var,
) -> Result<SymbolSet, NoMemory>
    ensures { IfOk result (λ symbols. symbols ≡ all_symbols [] (symbols_in disjuncts.now variable)) }
{
    let mut symbols = SymbolSet::new(alloc);
    add_symbols(disjuncts, variable, &mut symbols).and(Ok(symbols))
}

// Adds the symbols by which disjuncts split a variable.
fn add_symbols(
    disjuncts: &[Disjunct<'_>],
    variable: Var,
    symbols: &mut SymbolSet,
) -> Result<(), NoMemory>
    ensures { OnOk result (symbols.new ≡ all_symbols symbols.old (symbols_in disjuncts.now variable)) }
{
    for disjunct in disjuncts {
        if let Some(symbol) = disjunct.symbol(variable) {
            symbols.add(symbol)?;
        }
    }
    Ok(())
}

// The constructors of the type to which the first symbol belongs by which disjuncts split a variable, None where its
// symbols have no end.
fn fellows_in<'a>(
    known: &Known<'a>,
    disjuncts: &[Disjunct<'_>],
    variable: Var,
) -> Option<&'a [Constructor]>
    ensures { option_map (λ all. map symbol_of all.now) result ≡ fellows_of known.now.types (symbols_in disjuncts.now variable) }
{
    for disjunct in disjuncts {
        if let Some(symbol) = disjunct.symbol(variable) {
            return fellows(known, symbol);
        }
    }
    None
}

// The first of the constructors that is none of the symbols.
fn first_missing(symbols: &SymbolSet, constructors: &[Constructor]) -> Option<Gap>
    ensures { MatchOption result (list_all (λ symbol. has_symbol symbols.now symbol) (map symbol_of constructors.now) ≡ true) (λ gap. IsMissing symbols.now (map symbol_of constructors.now) (symbol_of_gap gap)) }
{
    for (place, constructor) in constructors.iter().enumerate() {
        let gap = Gap::of(constructor, place);
        if !symbols.contains(gap.symbol()) {
            return Some(gap);
        }
    }
    None
}
