//! Values of two blocks compared.
ghost use Rattle.std.specs.Prelude.{◌≡◌, ◌<◌, ◌≤◌, ◌↔◌, ℕ, [], length, map, slice_get, Some, IfOk, IfSome, IfNone, IsTrue, OnOk};
ghost use Rattle.std.specs.List.{All};
ghost use Rattle.merc_value.specs.Value.{Con};
ghost use Rattle.merc_value.specs.Block.{AreLower, IsBelow, word_values, cell_values, root_values};
ghost use Rattle.merc_value.specs.Sharing.{AreShared, KeepsShared, IsWordFor, moved, AreMoved};

use crate::block::Cell;
use crate::{Block, Word};
use merc_base::{Name, NoMemory};
use std::alloc::Global;

/// Whether two roots stand for one value. The roots of these numbers must be there.
///
/// Each value that lies in the blocks gets one word, from the lowest cells up, so that a cell is looked at once however
/// often it is used. Each cell is compared with the different cells before it: at worst the cost is the square of the
/// number of cells in both blocks, times the greatest number of arguments.
///
/// # Errors
///
/// `NoMemory` where memory was refused.
pub fn equal(a: &Block, i: u32, b: &Block, j: u32) -> Result<bool, NoMemory>
    requires one { i < length a.now.roots }
    requires other { j < length b.now.roots }
    ensures { IfOk result (λ same. IsTrue same ↔ (slice_get (root_values a.now) i ≡ slice_get (root_values b.now) j)) }
{
    let mut shared = Vec::new(a.alloc());
    let one = share_root(a, i, &mut shared)?;
    let other = share_root(b, j, &mut shared)?;
    Ok(one == other)
}

// The word for the value of a root, among shared cells.
fn share_root(block: &Block, number: u32, shared: &mut Vec<Cell>) -> Result<Word, NoMemory>
    requires root { number < length block.now.roots }
    requires shared { AreShared shared.old.items }
    ensures kept { OnOk result (KeepsShared shared.old.items shared.new.items) }
    ensures word { IfOk result (λ word. IfSome (slice_get (root_values block.now) number) (λ value. IsWordFor shared.new.items value word)) }
{
    let words = share_cells(block.alloc(), block.cells(), shared)?;
    let root = block.root(number).unwrap();
    Ok(moved(&words, &root))
}

// The words for the values of cells, by place, among shared cells.
fn share_cells(alloc: Global, cells: &[Cell], shared: &mut Vec<Cell>) -> Result<Vec<Word>, NoMemory>
    requires lower { AreLower cells.now }
    requires shared { AreShared shared.old.items }
    ensures kept { OnOk result (KeepsShared shared.old.items shared.new.items) }
    ensures words { IfOk result (λ words. AreMoved cells.now shared.new.items words.items) }
    ensures count { IfOk result (λ words. length words.items ≡ length cells.now) }
{
    let mut words = Vec::new(alloc);
    for cell in cells {
        let arguments = moved_all(alloc, &words, &cell.arguments)?;
        words.push(share_cell(cell.symbol, arguments, shared)?)?;
    }
    Ok(words)
}

// The word for a constructor with these arguments, among shared cells.
fn share_cell(symbol: Name, arguments: Vec<Word>, shared: &mut Vec<Cell>) -> Result<Word, NoMemory>
    requires shared { AreShared shared.old.items }
    requires below { All (IsBelow (length shared.old.items)) arguments.items }
    ensures kept { OnOk result (KeepsShared shared.old.items shared.new.items) }
    ensures word { IfOk result (IsWordFor shared.new.items (Con symbol (word_values (cell_values shared.old.items) arguments.items))) }
{
    if arguments.is_empty() {
        return Ok(Word::Atom(symbol));
    }
    if let Some(place) = find_cell(shared, symbol, &arguments) {
        return Ok(Word::Cell(place));
    }
    let place = shared.len();
    shared.push(Cell { symbol, arguments })?;
    Ok(Word::Cell(place))
}

// The place of the cell with this constructor and these arguments, where there is one.
fn find_cell(cells: &[Cell], symbol: Name, arguments: &[Word]) -> Option<usize>
    ensures found { IfSome result (λ place. slice_get cells.now place ≡ Some (record { symbol = symbol; arguments = arguments.now })) }
    ensures none { IfNone result ((place : ℕ) → slice_get cells.now place ≡ Some (record { symbol = symbol; arguments = arguments.now }) → ⊥) }
{
    for (place, cell) in cells.iter().enumerate() {
        if is_cell(cell, symbol, arguments) {
            return Some(place);
        }
    }
    None
}

fn is_cell(cell: &Cell, symbol: Name, arguments: &[Word]) -> bool
    ensures { IsTrue result ↔ (cell.now ≡ record { symbol = symbol; arguments = arguments.now }) }
{
    cell.symbol == symbol && same_words(&cell.arguments, arguments)
}

fn same_words(one: &[Word], other: &[Word]) -> bool
    ensures { IsTrue result ↔ (one.now ≡ other.now) }
{
    one == other
}

// A word, with the word at a cell's place in place of the cell.
fn moved(words: &[Word], word: &Word) -> Word
    requires { IsBelow (length words.now) word.now }
    ensures { result ≡ moved words.now word.now }
{
    match *word {
        Word::Int(number) => Word::Int(number),
        Word::Text(name) => Word::Text(name),
        Word::Atom(symbol) => Word::Atom(symbol),
        Word::Cell(place) => words[place],
    }
}

/// Words, each with the word at a cell's place in place of the cell. The words must lead to places that have one.
///
/// # Errors
///
/// `NoMemory` where memory was refused.
pub fn moved_all(alloc: Global, words: &[Word], arguments: &[Word]) -> Result<Vec<Word>, NoMemory>
    requires { All (IsBelow (length words.now)) arguments.now }
    ensures { IfOk result (λ all. all.items ≡ map (moved words.now) arguments.now) }
{
    let mut all = Vec::new(alloc);
    for argument in arguments {
        all.push(moved(words, argument))?;
    }
    Ok(all)
}
