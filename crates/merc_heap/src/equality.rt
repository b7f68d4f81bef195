//! Values of a heap compared.
ghost use Rattle.std.specs.Prelude.{◌≡◌, ℕ, ◌∷◌, ◌↔◌, [], length, IfOk, OnOk, IsTrue, IsFalse};
ghost use Rattle.merc_value.specs.Block.{AreLower, IsBelow, value_of};
ghost use Rattle.merc_heap.specs.Heap.{arguments_in};
ghost use Rattle.merc_heap.specs.Equality.{AreSame, Meets, Notes, pairs};

use crate::Heap;
use crate::comparison::{Outcome, are_alike, compare_words, is_no_cell};
use indexmap::IndexSet;
use merc_base::NoMemory;
use merc_value::Word;

// How many pairs of cells are compared without being remembered, which takes much longer than to compare them.
const FEW: u32 = 256;

impl Heap {
    /// Whether two words stand for one value.
    ///
    /// Equal words are told at once. Else the cost is the number of arguments of the pairs of cells that are met, in
    /// which a pair counts once however often it is met, but for the first few: for two values without sharing, at most
    /// their size.
    ///
    /// # Errors
    ///
    /// `NoMemory` where memory was refused.
    #[inline(always)]
    pub fn equal(&self, one: Word, other: Word) -> Result<bool, NoMemory>
        requires one { IsBelow (length self.now) one }
        requires other { IsBelow (length self.now) other }
        ensures { IfOk result (λ same. IsTrue same ↔ (value_of self.now one ≡ value_of self.now other)) }
    {
        if one == other {
            return Ok(true);
        }
        if is_no_cell(one) && is_no_cell(other) {
            return Ok(false);
        }
        self.equal_cells(&one, &other)
    }

    #[inline(never)]
    fn equal_cells(&self, one: &Word, other: &Word) -> Result<bool, NoMemory>
        requires one { IsBelow (length self.now) one.now }
        requires other { IsBelow (length self.now) other.now }
        ensures { IfOk result (λ same. IsTrue same ↔ (value_of self.now one.now ≡ value_of self.now other.now)) }
    {
        match compare_words(self, *one, *other, FEW) {
            Outcome::Same(_) => Ok(true),
            Outcome::Apart => Ok(false),
            Outcome::Open => self.equal_shared(*one, *other),
        }
    }

    // Whether two words stand for one value, where each pair of cells that is met is remembered.
    #[cold]
    #[inline(never)]
    fn equal_shared(&self, one: Word, other: Word) -> Result<bool, NoMemory>
        requires one { IsBelow (length self.now) one }
        requires other { IsBelow (length self.now) other }
        ensures { IfOk result (λ same. IsTrue same ↔ (value_of self.now one ≡ value_of self.now other)) }
    {
        let mut met = IndexSet::new(self.alloc());
        self.meet_all(one, other, &mut met)
    }

    // Meets two words, and then the arguments of each pair of cells that is met. `false` where the words do not stand for one
    // value.
    #[inline(always)]
    fn meet_all(
        &self,
        one: Word,
        other: Word,
        met: &mut IndexSet<(usize, usize)>,
    ) -> Result<bool, NoMemory>
        requires one { IsBelow (length self.now) one }
        requires other { IsBelow (length self.now) other }
        requires none { met.old.keys ≡ [] }
        ensures { IfOk result (λ same. IsTrue same ↔ (value_of self.now one ≡ value_of self.now other)) }
    {
        if !meet(self, one, other, met)? {
            return Ok(false);
        }
        let mut next = 0;
        while next < met.len() {
            let (place, other_place) = met[next];
            if !meet_arguments(self, Word::Cell(place), Word::Cell(other_place), met)? {
                return Ok(false);
            }
            next += 1;
        }
        Ok(true)
    }
}

// Meets two words: the pair of their cells is put behind those that were met, unless it is one of them. `false` where
// the words do not stand for one value, since their constructors differ.
fn meet(
    heap: &Heap,
    one: Word,
    other: Word,
    met: &mut IndexSet<(usize, usize)>,
) -> Result<bool, NoMemory>
    requires one { IsBelow (length heap.now) one }
    requires other { IsBelow (length heap.now) other }
    ensures yes { IfOk result (λ same. IsTrue same → Meets heap.now ((one, other) ∷ []) met.old.keys met.new.keys) }
    ensures no { IfOk result (λ same. IsFalse same → value_of heap.now one ≡ value_of heap.now other → ⊥) }
{
    if one == other {
        return Ok(true);
    }
    if !are_alike(heap, &one, &other) {
        return Ok(false);
    }
    note(one, other, met)?;
    Ok(true)
}

// Puts the pair of two words' cells behind those that were met, unless it is one of them.
fn note(one: Word, other: Word, met: &mut IndexSet<(usize, usize)>) -> Result<(), NoMemory>
    ensures { OnOk result (Notes one other met.old.keys met.new.keys) }
{
    if let Word::Cell(place) = one {
        if let Word::Cell(other_place) = other {
            met.insert((place, other_place))?;
        }
    }
    Ok(())
}

// Meets the arguments of two words, one after the other. `false` where a pair does not stand for one value.
fn meet_arguments(
    heap: &Heap,
    one: Word,
    other: Word,
    met: &mut IndexSet<(usize, usize)>,
) -> Result<bool, NoMemory>
    requires one { IsBelow (length heap.now) one }
    requires other { IsBelow (length heap.now) other }
    requires count { length (arguments_in heap.now one) ≡ length (arguments_in heap.now other) }
    ensures yes { IfOk result (λ same. IsTrue same → Meets heap.now (pairs (arguments_in heap.now one) (arguments_in heap.now other)) met.old.keys met.new.keys) }
    ensures no { IfOk result (λ same. IsFalse same → AreSame heap.now (pairs (arguments_in heap.now one) (arguments_in heap.now other)) → ⊥) }
    ensures lower { AreLower heap.now }
{
    for index in 0..heap.arity(one) {
        let Some(first) = heap.argument(one, index) else {
            continue;
        };
        let Some(second) = heap.argument(other, index) else {
            continue;
        };
        if !meet(heap, first, second, met)? {
            return Ok(false);
        }
    }
    Ok(true)
}
