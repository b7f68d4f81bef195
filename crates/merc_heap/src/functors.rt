//! The constructors of a heap's cells, by number.
ghost use Rattle.std.specs.Prelude.{◌≡◌, ◌≢◌, ◌<◌, ◌≤◌, [], Some, slice_get, IfOk, IsTrue};
ghost use Rattle.merc_heap.specs.Functors.{functor_numbered, list_number, numbered, Extends};
ghost use Rattle.merc_heap.specs.declared.slot.TheConstants.{MOST};

use crate::slot::MOST;
use merc_base::{Name, NoMemory};
use std::alloc::Global;
use std::collections::HashMap;
use std::marker::Model;

/// A constructor with the number of its arguments.
#[derive(Clone, Copy, PartialEq, Eq, Hash)]
pub struct Functor {
    pub symbol: Name,
    pub arity: usize,
}

/// The number that a field has at which no cell ends.
pub const INNER: u32 = 0;

// The number of the constructor of lists.
const LIST: u32 = 1;

// The number of the first other constructor.
const FIRST: u32 = 2;

// How many constructors are looked through before one is sought by its hash, which takes longer.
const FEW: u32 = 8;

/// Constructors by number. The one of lists has its number from the start, and the others get theirs, from 2 on, where they
/// are asked for it first. It is seen as the list of these others.
#[derive(Drop)]
pub struct Functors {
    others: Vec<Functor>,
    // The number of each of the others.
    numbers: HashMap<Functor, u32>,
}

impl Model for Functors {
    ghost use Rattle.std.specs.Prelude.{List};
    ghost use Rattle.merc_heap.specs.declared.functors.Functor.{Functor};

    ghost Value = { List Functor };

    ghost view = { λ f. f.others.items };

    ghost use Rattle.std.specs.HashMap.{get};
    ghost use Rattle.merc_heap.specs.Functors.{same_functor, IsNumberOf};

    ghost invariant = { λ f. (functor : Functor) → IsNumberOf f.others.items functor (get same_functor f.numbers functor) };
}

impl Functors {
    /// The constructor of lists alone. It takes no memory before another one is asked for its number.
    pub fn new(alloc: Global) -> Functors
        ensures { result ≡ [] }
    {
        Functors {
            others: Vec::new(alloc),
            numbers: HashMap::new(alloc),
        }
    }

    /// The constructor of this number; `[]` without arguments where no cell ends, and for a number that none has.
    #[inline(always)]
    pub fn functor(&self, number: u32) -> Functor
        ensures { result ≡ functor_numbered self.now number }
    {
        if number == LIST {
            return Functor {
                symbol: Name::CONS,
                arity: 2,
            };
        }
        other_functor(&self.others, number)
    }

    /// The number of a constructor with this number of arguments, which it is given where it has none. Others keep theirs,
    /// also where memory is refused, or where there is no number up to [`MOST`] left.
    #[inline(always)]
    pub fn number(&mut self, symbol: Name, arity: usize) -> Result<u32, NoMemory>
        ensures number { IfOk result (λ number. slice_get (numbered self.new) number ≡ Some (record { symbol = symbol; arity = arity })) }
        ensures small { IfOk result (λ number. number ≤ MOST) }
        ensures others { Extends self.old self.new }
    {
        if symbol == Name::CONS && arity == 2 {
            return Ok(LIST);
        }
        self.other_number(symbol, arity)
    }

    // The number of a constructor other than the one of lists, which it is given where it has none.
    #[inline(never)]
    fn other_number(&mut self, symbol: Name, arity: usize) -> Result<u32, NoMemory>
        ensures number { IfOk result (λ number. slice_get (numbered self.new) number ≡ Some (record { symbol = symbol; arity = arity })) }
        ensures small { IfOk result (λ number. number ≤ MOST) }
        ensures others { Extends self.old self.new }
    {
        for number in FIRST..FIRST + FEW {
            if is_number(&self.others, number, symbol, arity) {
                return Ok(number);
            }
        }
        self.sought_number(Functor { symbol, arity })
    }

    // The number of a constructor as `other_number` gives it, by its hash. That is seldom asked, and kept out of the way.
    #[cold]
    #[inline(never)]
    fn sought_number(&mut self, functor: Functor) -> Result<u32, NoMemory>
        ensures number { IfOk result (λ number. slice_get (numbered self.new) number ≡ Some functor) }
        ensures small { IfOk result (λ number. number ≤ MOST) }
        ensures others { Extends self.old self.new }
    {
        if let Some(number) = self.numbers.get(&functor) {
            return Ok(*number);
        }
        let number = match u32::try_from(self.others.len()) {
            Ok(count) if count <= MOST - FIRST => FIRST + count,
            _ => return Err(NoMemory),
        };
        self.others.reserve(1)?;
        self.numbers.insert(functor, number)?;
        self.others.push_reserved(functor);
        Ok(number)
    }
}

// The constructor of a number other than the one of lists.
fn other_functor(others: &[Functor], number: u32) -> Functor
    requires { number ≢ list_number }
    ensures { result ≡ functor_numbered others.now number }
{
    if number >= FIRST {
        if let Some(functor) = others.get((number - FIRST) as usize) {
            return *functor;
        }
    }
    Functor {
        symbol: Name::NIL,
        arity: 0,
    }
}

// Whether this is the number of that constructor.
#[inline(always)]
fn is_number(others: &[Functor], number: u32, symbol: Name, arity: usize) -> bool
    requires { list_number < number }
    ensures { IsTrue result → slice_get (numbered others.now) number ≡ Some (record { symbol = symbol; arity = arity }) }
{
    match others.get((number - FIRST) as usize) {
        Some(known) => known.symbol == symbol && known.arity == arity,
        None => false,
    }
}
