//! Values of a heap compared field by field, without memory of what was compared before.
ghost use Rattle.std.specs.Prelude.{◌≡◌, ◌<◌, ℕ, ◌↔◌, length, map, IsTrue, IsFalse};
ghost use Rattle.std.specs.List.{All};
ghost use Rattle.merc_value.specs.Block.{AreLower, IsBelow, value_of};
ghost use Rattle.merc_heap.specs.Heap.{word_of};
ghost use Rattle.merc_heap.specs.Equality.{AreAlike, AreSame, pairs};
ghost use Rattle.merc_heap.specs.Comparison.{Tells};

use crate::Heap;
use crate::slot::Slot;
use merc_base::Name;
use merc_value::Word;

// What comes out where values are compared, of which so many pairs of cells may be met.
#[derive(Clone, Copy)]
pub(crate) enum Outcome {
    // The values are the same, and so many pairs may still be met.
    Same(u32),
    // The values are not the same.
    Apart,
    // More pairs would have to be met.
    Open,
}

// Compares the values of two words, where this many pairs of cells may be met.
#[cycle(comparing)]
#[inline(always)]
pub(crate) fn compare_words(heap: &Heap, one: Word, other: Word, bound: u32) -> Outcome
    requires one { IsBelow (length heap.now) one }
    requires other { IsBelow (length heap.now) other }
    ensures { Tells (value_of heap.now one ≡ value_of heap.now other) bound result }
{
    if one == other {
        return Outcome::Same(bound);
    }
    if let Word::Cell(place) = one {
        if let Word::Cell(other_place) = other {
            if bound > 0 && heap.are_numbered_alike(place, other_place) {
                let (_, fields) = heap.cell(place);
                let others = heap.fields(other_place, fields.len());
                return compare_fields(heap, fields, others, bound - 1);
            }
        }
    }
    compare_headers(heap, one, other)
}

// Compares fields, each with the one of the same number, where this many pairs of cells may be met.
#[cycle(comparing)]
fn compare_fields(heap: &Heap, fields: &[Slot], others: &[Slot], bound: u32) -> Outcome
    requires fields { All (IsBelow (length heap.now)) (map word_of fields.now) }
    requires others { All (IsBelow (length heap.now)) (map word_of others.now) }
    requires count { length fields.now ≡ length others.now }
    ensures { Tells (AreSame heap.now (pairs (map word_of fields.now) (map word_of others.now))) bound result }
{
    let mut left = bound;
    for index in 0..fields.len() {
        match compare_words(heap, fields[index].word(), others[index].word(), left) {
            Outcome::Same(now) => left = now,
            Outcome::Apart => return Outcome::Apart,
            Outcome::Open => return Outcome::Open,
        }
    }
    Outcome::Same(left)
}

// Compares the constructors of two other words, and the numbers of their arguments. Words without cells need no look at them.
#[inline(always)]
fn compare_headers(heap: &Heap, one: Word, other: Word) -> Outcome
    requires one { IsBelow (length heap.now) one }
    requires other { IsBelow (length heap.now) other }
    requires apart { one ≡ other → ⊥ }
    ensures { (bound : ℕ) → Tells (value_of heap.now one ≡ value_of heap.now other) bound result }
{
    if is_no_cell(one) && is_no_cell(other) {
        return Outcome::Apart;
    }
    if are_alike(heap, &one, &other) {
        Outcome::Open
    } else {
        Outcome::Apart
    }
}

// Whether two other words are those of one constructor with as many arguments. That is seldom asked.
#[inline(never)]
pub(crate) fn are_alike(heap: &Heap, one: &Word, other: &Word) -> bool
    requires one { IsBelow (length heap.now) one.now }
    requires other { IsBelow (length heap.now) other.now }
    requires apart { one.now ≡ other.now → ⊥ }
    ensures yes { IsTrue result → AreAlike heap.now one.now other.now }
    ensures no { IsFalse result → value_of heap.now one.now ≡ value_of heap.now other.now → ⊥ }
    ensures lower { AreLower heap.now }
{
    let count = heap.arity(*one);
    let other_count = heap.arity(*other);
    let Some(symbol) = heap.symbol(*one) else {
        return false;
    };
    let Some(other_symbol) = heap.symbol(*other) else {
        return false;
    };
    is_one_header(symbol, other_symbol, count, other_count)
}

// Whether a word leads to no cell. Two such words stand for one value only where they are one.
#[inline(always)]
pub(crate) fn is_no_cell(word: Word) -> bool
    ensures { IsTrue result → (place : ℕ) → word ≡ Word.Cell place → ⊥ }
{
    match word {
        Word::Cell(_) => false,
        _ => true,
    }
}

// Whether two constructors are one, and have as many arguments.
fn is_one_header(symbol: Name, other: Name, count: usize, other_count: usize) -> bool
    ensures { IsTrue result ↔ ((symbol ≡ other) × (count ≡ other_count)) }
{
    symbol == other && count == other_count
}
