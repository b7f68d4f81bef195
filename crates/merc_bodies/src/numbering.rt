//! New numbers for the variables of clauses.
ghost use Rattle.std.specs.Prelude.{◌≡◌, ◌==◌, ◌≤◌, length, IfOk, OnOk};
ghost use Rattle.std.specs.List.{position_or_len};
ghost use Rattle.std.specs.List.Sorted.{IsStrictlyIncreasing};
ghost use Rattle.merc_bodies.specs.Bodies.{own_variables};
ghost use Rattle.merc_bodies.specs.Numbering.{new_number, IsInHand, GoesOn};

use crate::occurrences::occurrences;
use merc_base::NoMemory;
use merc_goal_tree::{NodeRef, Var};
use std::alloc::Global;

/// The new numbers of the variables of a predicate's clauses, one clause after the other.
#[derive(Drop)]
pub(crate) struct Numbering {
    arity: usize,
    // Where the own variables of the clause in hand start.
    at: usize,
    // The variables by their new numbers: the predicate's arguments, and behind them the own variables of each clause, in
    // the order of their numbers there.
    variables: Vec<Var>,
}

impl Numbering {
    /// For a predicate of so many arguments, before its first clause.
    pub(crate) fn new(alloc: Global, arity: usize) -> Result<Numbering, NoMemory>
        ensures arity { IfOk result (λ numbering. numbering.arity ≡ arity) }
        ensures arguments { IfOk result (λ numbering. length numbering.variables.items ≡ arity) }
    {
        let mut variables = Vec::new(alloc);
        for number in 0..arity {
            variables.push(Var::new(number))?;
        }
        Ok(Numbering {
            arity,
            at: arity,
            variables,
        })
    }

    /// Takes a clause of this flat form in hand, whose own variables have the next numbers.
    ///
    /// With n occurrences of variables this takes time of the order of n log n.
    pub(crate) fn take(&mut self, alloc: Global, form: &NodeRef<'_>) -> Result<(), NoMemory>
        ensures goes_on { OnOk result (GoesOn self.old form.now self.new) }
        ensures in_hand { OnOk result (IsInHand self.new) }
    {
        let own = own_variables(alloc, self.arity, form)?;
        self.at = self.variables.len();
        self.variables.extend_from_slice(&own)?;
        Ok(())
    }

    /// The new number of a variable of the clause in hand.
    pub(crate) fn of(&self, variable: Var) -> Var
        requires { IsInHand self.now }
        ensures { result ≡ new_number self.now variable }
    {
        if variable.number() < self.arity {
            return variable;
        }
        Var::new(self.at + place_of(&self.variables[self.at..], variable))
    }
}

// The place of a variable among others, or their number where it is none of them.
fn place_of(own: &[Var], variable: Var) -> usize
    requires { IsStrictlyIncreasing own.now }
    ensures place { result ≡ position_or_len (λ other. other == variable) own.now }
    ensures within { result ≤ length own.now }
{
    match own.binary_search(&variable) {
        Ok(place) => place,
        Err(_) => own.len(),
    }
}

// The variables of a clause's flat form that are no arguments, each once, in the order of their numbers.
fn own_variables(alloc: Global, arity: usize, form: &NodeRef<'_>) -> Result<Vec<Var>, NoMemory>
    ensures { IfOk result (λ own. own.items ≡ own_variables arity form.now) }
{
    let mut own = occurrences(alloc, arity, form)?;
    own.sort()?;
    own.dedup();
    Ok(own)
}
