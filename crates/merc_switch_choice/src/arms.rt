//! Disjuncts by the symbols of a variable.
ghost use Rattle.std.specs.Prelude.{◌≡◌, ◌<◌, ◌==◌, ◌++◌, ◌∷◌, List, [], true, length, if◌then◌else◌, IfOk, OnOk};
ghost use Rattle.std.specs.List.{list_all, slice_index_or, slice_set, position_or_len};
ghost use Rattle.merc_grading.specs.Known.{same_symbol};
ghost use Rattle.merc_grading.specs.Switches.{Group, symbol_at, is_there, grouped};
ghost use Rattle.merc_switch_choice.specs.Arms.{AreArms, joined_in};
ghost use Rattle.merc_switch_choice.specs.Summaries.{DescribesAll};
ghost use Rattle.merc_switch_choice.specs.Symbols.{with_symbol};

use crate::counted::{Disjuncts, counted_each};
use crate::disjuncts::Disjunct;
use crate::summary::Summary;
use crate::symbols::SymbolSet;
use merc_base::{NoMemory, Sequence};
use merc_goal_tree::{Symbol, Var};
use std::alloc::Global;

/// The arms of a switch: the symbols, and the disjuncts of each.
#[derive(Drop)]
pub struct Arms<'a> {
    pub symbols: Vec<Symbol>,
    pub groups: Vec<Disjuncts<'a>>,
}

// The arms of a switch before their disjuncts are counted: the symbols, and the disjuncts of each.
#[derive(Drop)]
struct Parts<'a> {
    symbols: Vec<Symbol>,
    groups: Vec<Sequence<Disjunct<'a>>>,
}

/// Disjuncts by the symbols by which they all split a variable at their beginnings. The symbols stand in the order in
/// which they come first.
///
/// # Errors
///
/// `NoMemory` where memory was refused, here and in the calls below.
pub fn arms_of<'a>(
    alloc: Global,
    variable: Var,
    disjuncts: Disjuncts<'a>,
) -> Result<Arms<'a>, NoMemory>
    requires { list_all (λ disjunct. is_there (symbol_at variable disjunct)) disjuncts ≡ true }
    ensures { IfOk result (λ arms. AreArms arms.symbols.items arms.groups.items (grouped variable disjuncts.entry)) }
{
    let (items, summary) = disjuncts.into_parts();
    match parts_of(alloc, variable, items) {
        Ok(parts) => counted_arms(alloc, parts, summary),
        Err(refused) => {
            // (calls, here and below, since it costs much to prove what is dropped)
            drop(summary);
            Err(refused)
        }
    }
}

// The arms with their disjuncts counted. Given is what is known of all together.
fn counted_arms<'a>(alloc: Global, parts: Parts<'a>, summary: Summary) -> Result<Arms<'a>, NoMemory>
    requires { DescribesAll summary parts.groups.items }
    ensures { IfOk result (λ arms. (groups : List Group) → AreArms parts.entry.symbols.items parts.entry.groups.items groups → AreArms arms.symbols.items arms.groups.items groups) }
{
    match counted_each(alloc, parts.groups, summary) {
        Ok(groups) => Ok(Arms {
            symbols: parts.symbols,
            groups,
        }),
        Err(refused) => {
            drop(parts.symbols);
            Err(refused)
        }
    }
}

// Disjuncts by their symbols.
fn parts_of<'a>(
    alloc: Global,
    variable: Var,
    disjuncts: Vec<Disjunct<'a>>,
) -> Result<Parts<'a>, NoMemory>
    ensures { IfOk result (λ parts. AreArms parts.symbols.items parts.groups.items (grouped variable disjuncts.entry.items)) }
{
    let mut places = SymbolSet::new(alloc);
    let mut symbols = Vec::new(alloc);
    let mut groups = Vec::new(alloc);
    let done = put_all(
        alloc,
        variable,
        disjuncts,
        &mut places,
        &mut symbols,
        &mut groups,
    );
    drop(places);
    done.and(Ok(Parts { symbols, groups }))
}

// Puts disjuncts to the arms of their symbols, where there are no arms yet.
fn put_all<'a>(
    alloc: Global,
    variable: Var,
    disjuncts: Vec<Disjunct<'a>>,
    places: &mut SymbolSet,
    symbols: &mut Vec<Symbol>,
    groups: &mut Vec<Sequence<Disjunct<'a>>>,
) -> Result<(), NoMemory>
    requires places { places.old ≡ [] }
    requires symbols { symbols.old.items ≡ [] }
    requires groups { groups.old.items ≡ [] }
    ensures { OnOk result (AreArms symbols.new.items groups.new.items (grouped variable disjuncts.entry.items)) }
{
    for disjunct in disjuncts {
        if let Some(symbol) = disjunct.symbol(variable) {
            put_under(alloc, symbol, disjunct, places, symbols, groups)?;
        } else {
            drop(disjunct);
        }
    }
    Ok(())
}

// Puts a disjunct to the arm of a symbol.
fn put_under<'a>(
    alloc: Global,
    symbol: Symbol,
    disjunct: Disjunct<'a>,
    places: &mut SymbolSet,
    symbols: &mut Vec<Symbol>,
    groups: &mut Vec<Sequence<Disjunct<'a>>>,
) -> Result<(), NoMemory>
    requires { length groups.old.items ≡ length places.old }
    ensures arms { OnOk result ((arms : List Group) → places.old ≡ symbols.old.items → AreArms symbols.old.items groups.old.items arms → AreArms symbols.new.items groups.new.items (joined_in symbol disjunct.entry arms)) }
    ensures places { OnOk result ((arms : List Group) → places.old ≡ symbols.old.items → AreArms symbols.old.items groups.old.items arms → places.new ≡ symbols.new.items) }
{
    match open_arm(alloc, &symbol, places, symbols, groups) {
        Ok(place) => push_at(groups, place, disjunct),
        Err(refused) => {
            drop(disjunct);
            Err(refused)
        }
    }
}

// The place of a symbol's arm. A new symbol has an arm without disjuncts behind the others.
fn open_arm<'a>(
    alloc: Global,
    symbol: &Symbol,
    places: &mut SymbolSet,
    symbols: &mut Vec<Symbol>,
    groups: &mut Vec<Sequence<Disjunct<'a>>>,
) -> Result<usize, NoMemory>
    ensures place { IfOk result (λ place. place ≡ position_or_len (same_symbol symbol.now) places.old) }
    ensures places { OnOk result (places.new ≡ with_symbol places.old symbol.now) }
    ensures symbols { IfOk result (λ place. symbols.new.items ≡ (if place == length groups.old.items then symbols.old.items ++ symbol.now ∷ [] else symbols.old.items)) }
    ensures groups { IfOk result (λ place. groups.new.items ≡ (if place == length groups.old.items then groups.old.items ++ [] ∷ [] else groups.old.items)) }
{
    let place = places.add(*symbol)?;
    if place == groups.len() {
        symbols.push(*symbol)?;
        groups.push(Sequence::new(alloc))?;
    }
    Ok(place)
}

// Puts a disjunct behind those of the group at an index.
fn push_at<'a>(
    groups: &mut [Sequence<Disjunct<'a>>],
    index: usize,
    disjunct: Disjunct<'a>,
) -> Result<(), NoMemory>
    requires { index < length groups.old }
    ensures { OnOk result (groups.new ≡ slice_set groups.old index (slice_index_or groups.old index [] ++ disjunct.entry ∷ [])) }
{
    let group = &mut groups[index];
    group.push(disjunct)?;
    Ok(())
}
