//! Values of a heap put into a block.
ghost use Rattle.std.specs.Prelude.{◌≡◌, ◌+◌, ◌++◌, ◌==◌, ◌<◌, ◌≤◌, [], length, map, slice_get, Some, IfOk, OnOk};
ghost use Rattle.std.specs.List.{All, position_or_len};
ghost use Rattle.std.specs.List.Sorted.{IsStrictlyIncreasing};
ghost use Rattle.merc_value.specs.Block.{AreLower, IsBelow, value_of};
ghost use Rattle.merc_value.specs.Writing.{arguments_at};
ghost use Rattle.merc_segments.specs.Segments.{AreWordsFor};
ghost use Rattle.merc_segments.specs.Places.{IsClosed, copy_of, AreCopies};

use crate::reaching::reached_places;
use merc_base::NoMemory;
use merc_heap::Heap;
use merc_value::{Block, Word};
use std::alloc::Global;

/// Copies the values of words of a heap into a block that stands alone, which has a root for each word, in order.
///
/// Each cell that is reached from the words is copied once, however often it is used, so that the block has no more
/// cells than the heap has places. With n cells and m fields of these, the cost is that of n + m searches among n
/// places.
///
/// # Errors
///
/// `NoMemory` where memory was refused.
pub fn freeze(alloc: Global, heap: &Heap, words: &[Word]) -> Result<Block, NoMemory>
    requires { All (IsBelow (length heap.now)) words.now }
    ensures roots { IfOk result (λ block. AreWordsFor block.cells (map (value_of heap.now) words.now) block.roots) }
    ensures few { IfOk result (λ block. length block.cells ≤ length heap.now) }
{
    let places = reached_places(alloc, heap, words)?;
    let mut block = copied_cells(alloc, heap, &places)?;
    add_roots(words, &places, &mut block)?;
    Ok(block)
}

// A block without roots, whose cells are copies of the heap's cells at these places.
fn copied_cells(alloc: Global, heap: &Heap, places: &[usize]) -> Result<Block, NoMemory>
    requires { IsClosed heap.now places.now }
    ensures copies { IfOk result (λ block. AreCopies heap.now places.now block.cells) }
    ensures count { IfOk result (λ block. length block.cells ≡ length places.now) }
    ensures roots { IfOk result (λ block. block.roots ≡ []) }
{
    let mut block = Block::new(alloc);
    for place in places {
        copy_cell(alloc, heap, *place, places, &mut block)?;
    }
    Ok(block)
}

// Puts a copy of the heap's cell at the next place behind the block's cells.
fn copy_cell(
    alloc: Global,
    heap: &Heap,
    place: usize,
    places: &[usize],
    block: &mut Block,
) -> Result<(), NoMemory>
    requires closed { IsClosed heap.now places.now }
    requires next { slice_get places.now (length block.old.cells) ≡ Some place }
    requires copies { AreCopies heap.now places.now block.old.cells }
    ensures copies { OnOk result (AreCopies heap.now places.now block.new.cells) }
    ensures count { OnOk result (length block.new.cells ≡ length block.old.cells + 1) }
    ensures roots { OnOk result (block.new.roots ≡ block.old.roots) }
{
    let arguments = copied_fields(alloc, heap, place, places)?;
    let Some(symbol) = heap.symbol(Word::Cell(place)) else {
        unreachable!()
    };
    block.cell(symbol, &arguments)?;
    Ok(())
}

// The block's words for the fields of the cell at a place.
fn copied_fields(
    alloc: Global,
    heap: &Heap,
    place: usize,
    places: &[usize],
) -> Result<Vec<Word>, NoMemory>
    requires within { place < length heap.now }
    requires rises { IsStrictlyIncreasing places.now }
    ensures fields { IfOk result (λ fields. fields.items ≡ map (copy_of places.now) (arguments_at heap.now place)) }
    ensures lower { AreLower heap.now }
{
    let mut fields = Vec::new(alloc);
    for index in 0..heap.arity(Word::Cell(place)) {
        let Some(field) = heap.argument(Word::Cell(place), index) else {
            unreachable!()
        };
        fields.push(copied(places, field))?;
    }
    Ok(fields)
}

// Puts the block's words for words of the heap behind its roots.
fn add_roots(words: &[Word], places: &[usize], block: &mut Block) -> Result<(), NoMemory>
    requires rises { IsStrictlyIncreasing places.now }
    requires below { All (IsBelow (length block.old.cells)) (map (copy_of places.now) words.now) }
    ensures { OnOk result (block.new ≡ record { cells = block.old.cells; roots = block.old.roots ++ map (copy_of places.now) words.now }) }
{
    for word in words {
        block.add_root(copied(places, *word))?;
    }
    Ok(())
}

// The block's word for a word of the heap.
fn copied(places: &[usize], word: Word) -> Word
    requires { IsStrictlyIncreasing places.now }
    ensures { result ≡ copy_of places.now word }
{
    match word {
        Word::Int(number) => Word::Int(number),
        Word::Text(name) => Word::Text(name),
        Word::Atom(symbol) => Word::Atom(symbol),
        Word::Cell(place) => Word::Cell(number_of(places, place)),
    }
}

// The number of a place among others, or how many they are where it is none of them.
fn number_of(places: &[usize], place: usize) -> usize
    requires { IsStrictlyIncreasing places.now }
    ensures { result ≡ position_or_len (λ other. other == place) places.now }
{
    match places.binary_search(&place) {
        Ok(number) => number,
        Err(_) => places.len(),
    }
}
