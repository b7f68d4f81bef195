//! The symbols that are known of variables while goals are looked at.
ghost use Rattle.std.specs.Prelude.{◌≡◌, ◌<◌, ◌-◌, ℕ, [], ◌∷◌, None, length, slice_get, take, OnOk};
ghost use Rattle.std.specs.Option.{option_map};
ghost use Rattle.std.specs.List.{slice_index_or, slice_set};
ghost use Rattle.merc_grading.specs.Known.{known_of};
ghost use Rattle.merc_det.specs.Seen.{back_to, known_in, Finds};

use merc_base::NoMemory;
use merc_goal_tree::{Symbol, Var};
use std::alloc::Global;
use std::marker::Model;

// A symbol that is known of a variable.
#[derive(Clone, Copy)]
struct Entry {
    variable: Var,
    symbol: Symbol,
    // the index of the variable's entry before this one
    before: Option<usize>,
}

/// The symbols that are known of variables, in the order in which they became known.
#[derive(Drop)]
pub(crate) struct SeenSymbols {
    entries: Vec<Entry>,
    // by the variable's number, the index of its last entry; those past its end have none
    latest: Vec<Option<usize>>,
}

impl Model for SeenSymbols {
    ghost use Rattle.merc_grading.specs.Known.{Known};
    ghost use Rattle.merc_det.specs.Seen.{known_in, Finds};

    ghost Value = { Known };

    ghost view = { λ s. known_in s.entries.items };

    ghost invariant = { λ s. Finds s.entries.items s.latest.items };
}

impl SeenSymbols {
    /// Nothing is known. It takes no memory.
    pub(crate) fn new(alloc: Global) -> SeenSymbols
        ensures { result ≡ [] }
    {
        SeenSymbols {
            entries: Vec::new(alloc),
            latest: Vec::new(alloc),
        }
    }

    /// How many symbols are known, to go back to by `forget`.
    pub(crate) fn len(&self) -> usize
        ensures { result ≡ length self.now }
    {
        self.entries.len()
    }

    /// The symbol that is known of a variable, the last one of several.
    pub(crate) fn symbol_of(&self, variable: Var) -> Option<Symbol>
        ensures { result ≡ known_of self.now variable }
    {
        symbol_in(&self.entries, &self.latest, variable)
    }

    /// The symbol is known of the variable from now on.
    ///
    /// # Errors
    ///
    /// `NoMemory` where memory was refused; then the same is known as before.
    pub(crate) fn learn(&mut self, variable: Var, symbol: Symbol) -> Result<(), NoMemory>
        ensures { OnOk result (self.new ≡ (variable, symbol) ∷ self.old) }
    {
        add_entry(&mut self.entries, &mut self.latest, variable, symbol)
    }

    /// Forgets what became known behind the first so many symbols.
    pub(crate) fn forget(&mut self, length: usize)
        ensures { self.new ≡ back_to length self.old }
    {
        remove_entries(&mut self.entries, &mut self.latest, length);
    }
}

// The symbol that is known of a variable.
fn symbol_in(entries: &[Entry], latest: &[Option<usize>], variable: Var) -> Option<Symbol>
    requires { Finds entries.now latest.now }
    ensures { result ≡ known_of (known_in entries.now) variable }
{
    let index = latest_at(latest, variable.number())?;
    symbol_at(entries, index)
}

// The symbol of the entry at an index.
fn symbol_at(entries: &[Entry], index: usize) -> Option<Symbol>
    ensures { result ≡ option_map (λ one. one.symbol) (slice_get entries.now index) }
{
    match entries.get(index) {
        Some(entry) => Some(entry.symbol),
        None => None,
    }
}

// The index of the last entry of the variable of this number.
fn latest_at(latest: &[Option<usize>], number: usize) -> Option<usize>
    ensures { result ≡ slice_index_or latest.now number None }
{
    match latest.get(number) {
        Some(index) => *index,
        None => None,
    }
}

// Adds an entry.
fn add_entry(
    entries: &mut Vec<Entry>,
    latest: &mut Vec<Option<usize>>,
    variable: Var,
    symbol: Symbol,
) -> Result<(), NoMemory>
    requires { Finds entries.old.items latest.old.items }
    ensures finds { Finds entries.new.items latest.new.items }
    ensures known { OnOk result (known_in entries.new.items ≡ (variable, symbol) ∷ known_in entries.old.items) }
{
    let number = variable.number();
    make_room(latest, number)?;
    let index = entries.len();
    entries.push(Entry {
        variable,
        symbol,
        before: latest[number],
    })?;
    set_latest(latest, number, Some(index));
    Ok(())
}

// Makes the table long enough for the number.
fn make_room(latest: &mut Vec<Option<usize>>, number: usize) -> Result<(), NoMemory>
    ensures same { (variable : ℕ) → slice_index_or latest.new.items variable None ≡ slice_index_or latest.old.items variable None }
    ensures room { OnOk result (number < length latest.new.items) }
{
    while latest.len() <= number {
        latest.push(None)?;
    }
    Ok(())
}

// Takes the entries away that stand behind the first so many.
fn remove_entries(entries: &mut Vec<Entry>, latest: &mut [Option<usize>], length: usize)
    requires { Finds entries.old.items latest.old }
    ensures finds { Finds entries.new.items latest.new }
    ensures known { known_in entries.new.items ≡ back_to length (known_in entries.old.items) }
{
    while length < entries.len() {
        remove_last(entries, latest);
    }
}

// Takes the last entry away.
fn remove_last(entries: &mut Vec<Entry>, latest: &mut [Option<usize>])
    requires { Finds entries.old.items latest.old }
    ensures finds { Finds entries.new.items latest.new }
    ensures entries { entries.new.items ≡ take (length entries.old.items - 1) entries.old.items }
{
    if let Some(last) = entries.pop() {
        set_latest(latest, last.variable.number(), last.before);
    }
}

fn set_latest(latest: &mut [Option<usize>], number: usize, index: Option<usize>)
    requires { number < length latest.old }
    ensures { latest.new ≡ slice_set latest.old number index }
{
    latest[number] = index;
}
