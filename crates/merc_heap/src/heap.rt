//! The heap: one flat list of cells.
ghost use Rattle.std.specs.Prelude.{◌≡◌, ◌+◌, ◌-◌, ◌++◌, ◌∷◌, ◌<◌, ◌≤◌, [], Some, length, map, take, slice_get, slice_range, IfOk, IsTrue, OnOk, OnErr};
ghost use Rattle.std.specs.List.{All};
ghost use Rattle.std.specs.Vec.{vec_len, vec_capacity};
ghost use Rattle.merc_value.specs.Value.{Con};
ghost use Rattle.merc_value.specs.Block.{AreLower, IsBelow, word_values, cell_values, value_of};
ghost use Rattle.merc_value.specs.Sharing.{IsWordFor};
ghost use Rattle.merc_heap.specs.Fields.{field_with};
ghost use Rattle.merc_heap.specs.Functors.{inner_number};
ghost use Rattle.merc_heap.specs.declared.slot.TheConstants.{MOST};
ghost use Rattle.merc_heap.specs.Heap.{Keeps, IsFlat, cell_ending, word_of, arguments_in, symbol_of};

use crate::functors::{Functor, Functors, INNER};
use crate::slot::Slot;
use merc_base::{Name, NoMemory};
use merc_value::Word;
use std::alloc::Global;
use std::marker::Model;

/// How far a heap went at some time, as its number of places.
#[derive(Clone, Copy, PartialEq, Eq)]
pub struct Mark(usize);

impl Model for Mark {
    ghost use Rattle.std.specs.Prelude.{ℕ};

    ghost Value = { ℕ };

    ghost view = { λ m. m.0 };

    ghost inverse = { λ n. record { 0 = n } };
}

impl Mark {
    /// The mark at this number of places.
    pub fn new(number: usize) -> Mark
        ensures { result ≡ number }
    {
        Mark(number)
    }

    /// The number of places.
    pub fn number(self) -> usize
        ensures { result ≡ self }
    {
        self.0
    }
}

/// Cells on one flat list of their fields. The last field of each names the constructor, by a number, which tells how many
/// fields there are. It is seen as the list of what ends at each place.
#[derive(Drop)]
pub struct Heap {
    alloc: Global,
    slots: Vec<Slot>,
    functors: Functors,
}

impl Model for Heap {
    ghost use Rattle.std.specs.Prelude.{List};
    ghost use Rattle.merc_value.specs.Block.{CellData};
    ghost use Rattle.merc_heap.specs.Heap.{cells_of, IsFlat};

    ghost Value = { List CellData };

    ghost view = { λ h. cells_of h.functors h.slots.items };

    ghost invariant = { λ h. IsFlat h.functors h.slots.items };
}

impl Heap {
    /// A heap without cells. It takes no memory before something is built.
    pub fn new(alloc: Global) -> Heap
        ensures { result ≡ [] }
    {
        Heap {
            alloc,
            slots: Vec::new(alloc),
            functors: Functors::new(alloc),
        }
    }

    /// Puts a constructor with these arguments behind the other cells, and gives the word for it. Where memory is
    /// refused the heap is unchanged, and so where no number up to `slot::MOST` is left for a constructor without cells so far.
    #[inline(always)]
    pub fn build(&mut self, symbol: Name, arguments: &[Word]) -> Result<Word, NoMemory>
        requires { All (IsBelow (length self.old)) arguments.now }
        ensures word { IfOk result (IsWordFor self.new (Con symbol (word_values (cell_values self.old) arguments.now))) }
        ensures kept { OnOk result (Keeps (length self.old) self.old self.new) }
        ensures front { OnOk result (take (length self.old) self.new ≡ self.old) }
        ensures err { OnErr result (self.new ≡ self.old) }
    {
        let Some((last, front)) = arguments.split_last() else {
            return Ok(Word::Atom(symbol));
        };
        let number = self.functors.number(symbol, arguments.len())?;
        let place = push_cell(&mut self.slots, number, front, *last)?;
        Ok(Word::Cell(place))
    }

    /// The constructor of a word's value; `None` exactly for an integer and a text.
    pub fn symbol(&self, word: Word) -> Option<Name>
        requires { IsBelow (length self.now) word }
        ensures { result ≡ symbol_of (value_of self.now word) }
    {
        match word {
            Word::Int(_) => None,
            Word::Text(_) => None,
            Word::Atom(symbol) => Some(symbol),
            Word::Cell(place) => Some(functor_at(&self.functors, &self.slots, place).symbol),
        }
    }

    /// The constructor of the cell at a place, and its fields in order.
    #[inline(always)]
    pub fn cell(&self, place: usize) -> (Name, &[Slot])
        requires { place < length self.now }
        ensures symbol { symbol_of (value_of self.now (Word.Cell place)) ≡ Some result.0 }
        ensures fields { map word_of result.1.now ≡ arguments_in self.now (Word.Cell place) }
        ensures lower { AreLower self.now }
    {
        cell_at(&self.functors, &self.slots, place)
    }

    // Whether the constructors of the cells at two places have one number, so that they are one with as many fields.
    #[inline(always)]
    pub(crate) fn are_numbered_alike(&self, place: usize, other: usize) -> bool
        requires one { place < length self.now }
        requires other { other < length self.now }
        ensures symbol { IsTrue result → symbol_of (value_of self.now (Word.Cell place)) ≡ symbol_of (value_of self.now (Word.Cell other)) }
        ensures count { IsTrue result → length (arguments_in self.now (Word.Cell place)) ≡ length (arguments_in self.now (Word.Cell other)) }
    {
        have_one_number(&self.functors, &self.slots, place, other)
    }

    // The fields of the cell at a place, which has so many.
    #[inline(always)]
    pub(crate) fn fields(&self, place: usize, count: usize) -> &[Slot]
        requires place { place < length self.now }
        requires count { count ≡ length (arguments_in self.now (Word.Cell place)) }
        ensures { map word_of result.now ≡ arguments_in self.now (Word.Cell place) }
    {
        slots_ending(&self.slots, place, count)
    }

    /// The number of the fields of a word, 0 for all but a cell.
    pub fn arity(&self, word: Word) -> usize
        requires { IsBelow (length self.now) word }
        ensures arity { result ≡ length (arguments_in self.now word) }
        ensures lower { AreLower self.now }
    {
        match word {
            Word::Cell(place) => functor_at(&self.functors, &self.slots, place).arity,
            _ => 0,
        }
    }

    /// Where the heap takes its memory from.
    pub fn alloc(&self) -> Global {
        self.alloc
    }

    /// The word of a field, from 0, whose number is an index; `None` exactly where there is no such field.
    pub fn argument(&self, word: Word, index: usize) -> Option<Word>
        requires { IsBelow (length self.now) word }
        ensures { result ≡ slice_get (arguments_in self.now word) index }
    {
        match word {
            Word::Cell(place) => field_at(&self.functors, &self.slots, place, index),
            _ => None,
        }
    }

    /// How far the heap goes.
    pub fn mark(&self) -> Mark
        ensures { result ≡ length self.now }
    {
        Mark(self.slots.len())
    }

    /// Takes away all cells that were built since the mark.
    pub fn cut_to(&mut self, mark: Mark)
        requires { mark ≤ length self.old }
        ensures cut { self.new ≡ take mark self.old }
        ensures kept { Keeps mark self.old self.new }
    {
        self.slots.truncate(mark.0);
    }
}

// The constructor of the cell that ends at a place, with the number of its fields.
#[inline(always)]
fn functor_at(functors: &Functors, slots: &[Slot], place: usize) -> Functor
    requires within { place < length slots.now }
    requires flat { IsFlat functors.now slots.now }
    ensures symbol { result.symbol ≡ (cell_ending functors.now slots.now place).symbol }
    ensures arity { result.arity ≡ length (cell_ending functors.now slots.now place).arguments }
{
    functors.functor(slots[place].number())
}

// Whether the constructors of the cells that end at two places have one number.
#[inline(always)]
fn have_one_number(functors: &Functors, slots: &[Slot], place: usize, other: usize) -> bool
    requires one { place < length slots.now }
    requires other { other < length slots.now }
    requires flat { IsFlat functors.now slots.now }
    ensures symbol { IsTrue result → (cell_ending functors.now slots.now place).symbol ≡ (cell_ending functors.now slots.now other).symbol }
    ensures count { IsTrue result → length (cell_ending functors.now slots.now place).arguments ≡ length (cell_ending functors.now slots.now other).arguments }
{
    slots[place].number() == slots[other].number()
}

// The constructor of the cell that ends at a place, and its fields.
#[inline(always)]
fn cell_at<'a>(functors: &Functors, slots: &'a [Slot], place: usize) -> (Name, &'a [Slot])
    requires within { place < length slots.now }
    requires flat { IsFlat functors.now slots.now }
    ensures symbol { result.0 ≡ (cell_ending functors.now slots.now place).symbol }
    ensures fields { map word_of result.1.now ≡ (cell_ending functors.now slots.now place).arguments }
{
    let functor = functor_at(functors, slots, place);
    (functor.symbol, slots_ending(slots, place, functor.arity))
}

// So many slots, of which the last is the one at a place.
#[inline(always)]
fn slots_ending(slots: &[Slot], place: usize, count: usize) -> &[Slot]
    requires within { place < length slots.now }
    requires count { count ≤ place + 1 }
    ensures { result.now ≡ slice_range slots.now (place + 1 - count) (place + 1) }
{
    let end = place + 1;
    &slots[end - count..end]
}

// The field of this number of the cell that ends at a place, from 0.
fn field_at(functors: &Functors, slots: &[Slot], place: usize, index: usize) -> Option<Word>
    requires within { place < length slots.now }
    requires flat { IsFlat functors.now slots.now }
    ensures { result ≡ slice_get (cell_ending functors.now slots.now place).arguments index }
{
    let (_, fields) = cell_at(functors, slots, place);
    if index < fields.len() {
        Some(fields[index].word())
    } else {
        None
    }
}

// Puts a cell behind the others, whose constructor has this number, and gives the place of its last field. Where memory is
// refused nothing is put there.
#[inline(always)]
fn push_cell(
    slots: &mut Vec<Slot>,
    number: u32,
    front: &[Word],
    last: Word,
) -> Result<usize, NoMemory>
    requires { number ≤ MOST }
    ensures place { IfOk result (λ place. place ≡ length slots.old.items + length front.now) }
    ensures ok { OnOk result (slots.new.items ≡ (slots.old.items ++ map (field_with inner_number) front.now) ++ field_with number last ∷ []) }
    ensures err { OnErr result (slots.new.items ≡ slots.old.items) }
{
    let place = slots.len() + front.len();
    if place >= slots.capacity() {
        grow(slots, front.len() + 1)?;
    }
    // most cells have two fields, for which no loop is needed
    match front {
        [one] => slots.push_reserved(Slot::ending(INNER, *one)),
        _ => push_inner(slots, front),
    }
    slots.push_reserved(Slot::ending(number, last));
    Ok(place)
}

// Puts fields behind the others at which no cell ends. There is room for them, and for one more.
#[inline(always)]
fn push_inner(slots: &mut Vec<Slot>, fields: &[Word])
    requires { vec_len slots.old + length fields.now < vec_capacity slots.old }
    ensures items { slots.new.items ≡ slots.old.items ++ map (field_with inner_number) fields.now }
    ensures room { vec_len slots.new < vec_capacity slots.new }
{
    for field in fields {
        slots.push_reserved(Slot::ending(INNER, *field));
    }
}

// Makes room for so many slots more. It is seldom missing, and what seldom runs is kept out of the callers' code.
#[cold]
#[inline(never)]
fn grow(slots: &mut Vec<Slot>, count: usize) -> Result<(), NoMemory>
    ensures items { slots.new.items ≡ slots.old.items }
    ensures ok { OnOk result (vec_len slots.new + count ≤ vec_capacity slots.new) }
{
    Ok(slots.reserve(count)?)
}
