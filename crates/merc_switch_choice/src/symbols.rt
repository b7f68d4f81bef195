//! Sets of symbols.
ghost use Rattle.std.specs.Prelude.{◌≡◌, [], IfOk, OnOk};
ghost use Rattle.std.specs.List.{position_or_len};
ghost use Rattle.merc_grading.specs.Known.{same_symbol, has_symbol};
ghost use Rattle.merc_switch_choice.specs.Keys.{symbol_of_key};
ghost use Rattle.merc_switch_choice.specs.Symbols.{with_symbol};

use indexmap::IndexSet;
use merc_base::{Name, NoMemory};
use merc_goal_tree::Symbol;
use std::alloc::Global;
use std::marker::Model;

// A symbol as it is looked up.
#[derive(Clone, Copy, PartialEq, Eq, Hash)]
enum Key {
    Constructor(Name, usize),
    Integer(i64),
    Text(Name),
}

/// Symbols in the order in which they came, each once.
#[derive(Drop)]
pub(crate) struct SymbolSet {
    keys: IndexSet<Key>,
}

impl Model for SymbolSet {
    ghost use Rattle.std.specs.Prelude.{List, map};
    ghost use Rattle.merc_goal_tree.specs.declared.goal.Symbol.{Symbol};
    ghost use Rattle.merc_switch_choice.specs.Keys.{symbol_of_key};

    ghost Value = { List Symbol };

    ghost view = { λ s. map symbol_of_key s.keys.keys };
}

impl SymbolSet {
    /// No symbols. It takes no memory.
    pub(crate) fn new(alloc: Global) -> SymbolSet
        ensures { result ≡ [] }
    {
        SymbolSet {
            keys: IndexSet::new(alloc),
        }
    }

    /// Whether the symbol is one of them.
    pub(crate) fn contains(&self, symbol: Symbol) -> bool
        ensures { result ≡ has_symbol self.now symbol }
    {
        let key = key_of(symbol);
        self.keys.contains(&key)
    }

    /// Puts the symbol behind the others, unless it is one of them, and gives its place.
    ///
    /// # Errors
    ///
    /// `NoMemory` where memory was refused.
    pub(crate) fn add(&mut self, symbol: Symbol) -> Result<usize, NoMemory>
        ensures symbols { OnOk result (self.new ≡ with_symbol self.old symbol) }
        ensures place { IfOk result (λ place. place ≡ position_or_len (same_symbol symbol) self.old) }
    {
        let (place, _) = self.keys.insert_full(key_of(symbol))?;
        Ok(place)
    }
}

fn key_of(symbol: Symbol) -> Key
    ensures { symbol_of_key result ≡ symbol }
{
    match symbol {
        Symbol::Constructor(name, arity) => Key::Constructor(name, arity),
        Symbol::Integer(value) => Key::Integer(value),
        Symbol::Text(text) => Key::Text(text),
    }
}
