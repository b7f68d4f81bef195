//! Words taken apart.
ghost use Rattle.std.specs.Prelude.{◌≡◌, ◌<◌, ℕ, List, [], ◌∷◌, length};
ghost use Rattle.std.specs.List.{All};
ghost use Rattle.merc_value.specs.Value.{Con, none};
ghost use Rattle.merc_value.specs.Block.{CellData, AreLower, IsBelow, word_values, cell_values, value_of};
ghost use Rattle.merc_value.specs.Writing.{arguments_at, HasShape, IsShapeBelow};

use crate::Word;
use crate::block::Cell;
use merc_base::Name;

// What a word stands for, at its outermost.
#[derive(Clone, Copy)]
pub(crate) enum Shape {
    Int(i64),
    Text(Name),
    // The empty list.
    Nil,
    // The list of this head and this tail.
    Pair(Word, Word),
    // Any other constructor, without arguments.
    Atom(Name),
    // Any other constructor, with the arguments of the cell at this place.
    Applied(Name, usize),
}

// The shape of a word.
pub(crate) fn shape_of(cells: &[Cell], word: &Word) -> Shape
    requires lower { AreLower cells.now }
    requires within { IsBelow (length cells.now) word.now }
    ensures shape { HasShape cells.now (value_of cells.now word.now) result }
    ensures below { IsShapeBelow (length cells.now) result }
{
    match *word {
        Word::Int(number) => Shape::Int(number),
        Word::Text(name) => Shape::Text(name),
        Word::Atom(symbol) => atom_shape(symbol),
        Word::Cell(place) => {
            let cell = &cells[place];
            cell_shape(cell.symbol, &cell.arguments, place)
        }
    }
}

// The shape of a constructor without arguments.
fn atom_shape(symbol: Name) -> Shape
    ensures shape { (cells : List CellData) → HasShape cells (Con symbol none) result }
    ensures below { (bound : ℕ) → IsShapeBelow bound result }
{
    if symbol == Name::NIL {
        Shape::Nil
    } else {
        Shape::Atom(symbol)
    }
}

// The shape of a cell.
fn cell_shape(symbol: Name, arguments: &[Word], place: usize) -> Shape
    ensures shape { (cells : List CellData) → arguments_at cells place ≡ arguments.now → HasShape cells (Con symbol (word_values (cell_values cells) arguments.now)) result }
    ensures below { (bound : ℕ) → place < bound → All (IsBelow bound) arguments.now → IsShapeBelow bound result }
{
    match arguments {
        [] => atom_shape(symbol),
        [_] => Shape::Applied(symbol, place),
        [first, second] => pair_shape(symbol, *first, *second, place),
        [_, _, _, ..] => Shape::Applied(symbol, place),
    }
}

// The shape of a cell with two arguments.
fn pair_shape(symbol: Name, first: Word, second: Word, place: usize) -> Shape
    ensures shape { (cells : List CellData) → arguments_at cells place ≡ first ∷ second ∷ [] → HasShape cells (Con symbol (word_values (cell_values cells) (first ∷ second ∷ []))) result }
    ensures below { (bound : ℕ) → place < bound → IsBelow bound first → IsBelow bound second → IsShapeBelow bound result }
{
    if symbol == Name::CONS {
        Shape::Pair(first, second)
    } else {
        Shape::Applied(symbol, place)
    }
}
