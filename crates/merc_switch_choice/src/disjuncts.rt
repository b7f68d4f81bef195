//! Disjuncts with the symbols by which they split variables at their beginnings.
ghost use Rattle.std.specs.Prelude.{◌≡◌, ℕ, nat_eq, length, None, IfOk, OnOk};
ghost use Rattle.indexmap.specs.IndexMap.{get};
ghost use Rattle.merc_order.specs.Bound.{among};
ghost use Rattle.merc_grading.specs.Switches.{beginning, symbol_in, symbol_at, is_there};
ghost use Rattle.merc_switch_choice.specs.Counting.{one_if, occurrences};

use crate::beginnings::splits_of;
use indexmap::IndexMap;
use merc_base::NoMemory;
use merc_goal_tree::{Symbol, Var};
use merc_graded_tree::NodeRef;
use std::alloc::Global;
use std::marker::Model;

/// A disjunct. Contracts see the goal that it is.
#[derive(Drop)]
pub struct Disjunct<'a> {
    goal: NodeRef<'a>,
    // how many splits there are at its beginning
    split_count: usize,
    // the first symbol of each variable that is split there, by the variable's number
    symbols: IndexMap<usize, Symbol>,
}

impl<'a> Model for Disjunct<'a> {
    ghost use Rattle.merc_graded_tree.specs.Nodes.{Node};

    ghost Value = { Node };

    ghost use Rattle.merc_graded_tree.specs.LabelCode.{node_code};

    ghost coded = { node_code };

    ghost use Rattle.merc_switch_choice.specs.Splits.{Knows};

    ghost view = { λ d. d.goal };

    ghost invariant = { λ d. Knows d.goal d.split_count d.symbols };
}

impl<'a> Disjunct<'a> {
    /// The disjunct that a goal is.
    ///
    /// # Errors
    ///
    /// `NoMemory` where memory was refused.
    pub fn of(alloc: Global, goal: NodeRef<'a>) -> Result<Disjunct<'a>, NoMemory>
        ensures { IfOk result (λ disjunct. disjunct ≡ goal.entry) }
    {
        let splits = splits_of(alloc, &goal)?;
        let split_count = splits.len();
        let symbols = first_symbols(alloc, &splits);
        // (a call, since it costs much to prove what is dropped here)
        drop(splits);
        Ok(Disjunct {
            goal,
            split_count,
            symbols: symbols?,
        })
    }

    /// The goal.
    pub fn goal(&self) -> NodeRef<'a>
        ensures { result ≡ self.now }
    {
        self.goal.copy()
    }

    /// How many splits there are at its beginning.
    pub fn split_count(&self) -> usize
        ensures { result ≡ length (beginning self.now).splits }
    {
        self.split_count
    }

    /// The variables that it splits at its beginning, by their numbers, each once.
    pub(crate) fn variables(&self) -> &[usize]
        ensures members { (variable : ℕ) → among result.now variable ≡ is_there (symbol_at variable self.now) }
        ensures once { (variable : ℕ) → occurrences result.now variable ≡ one_if (is_there (symbol_at variable self.now)) }
    {
        self.symbols.keys().as_slice()
    }

    /// The symbol by which it splits a variable at its beginning.
    pub fn symbol(&self, variable: Var) -> Option<Symbol>
        ensures { result ≡ symbol_at variable self.now }
    {
        let number = variable.number();
        self.symbols.get(&number).copied()
    }
}

// The first symbol of each variable, by its number.
fn first_symbols(
    alloc: Global,
    splits: &[(Var, Symbol)],
) -> Result<IndexMap<usize, Symbol>, NoMemory>
    ensures { IfOk result (λ symbols. (variable : ℕ) → get nat_eq symbols variable ≡ symbol_in splits.now variable) }
{
    let mut symbols = IndexMap::new(alloc);
    put_symbols(splits, &mut symbols).and(Ok(symbols))
}

// Puts the first symbol of each variable where there is none.
fn put_symbols(
    splits: &[(Var, Symbol)],
    symbols: &mut IndexMap<usize, Symbol>,
) -> Result<(), NoMemory>
    requires { (variable : ℕ) → get nat_eq symbols.old variable ≡ None }
    ensures { OnOk result ((variable : ℕ) → get nat_eq symbols.new variable ≡ symbol_in splits.now variable) }
{
    let mut index = splits.len();
    while index > 0 {
        index -= 1;
        let (variable, symbol) = splits[index];
        symbols.insert(variable.number(), symbol)?;
    }
    Ok(())
}
