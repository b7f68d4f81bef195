//! The text of a value.
ghost use Rattle.std.specs.Prelude.{◌≡◌, ◌++◌, ◌<◌, ◌∷◌, [], length, slice_get, IfOk, IfSome, OnOk, OnErr};
ghost use Rattle.merc_base.specs.Characters.{close_code};
ghost use Rattle.merc_value.specs.Block.{AreLower, IsBelow, value_of, root_values};
ghost use Rattle.merc_value.specs.Text.{value_text, tail_text, arguments_text, others_text};
ghost use Rattle.merc_value.specs.Writing.{arguments_at, arguments_from, todo_text, IsTodoBelow, piece_text, Takes, AppendsFront};

use crate::block::Cell;
use crate::quoting::{name_text, quoted, text_of};
use crate::shape::{Shape, shape_of};
use crate::{Block, Word};
use merc_base::{Name, Names, NoMemory, Text};
use std::alloc::Global;

// What is still to be written.
#[derive(Clone, Copy)]
pub(crate) enum Todo {
    // The value of a word.
    Whole(Word),
    // A list from this tail on, with its closing bracket.
    Tail(Word),
    // The arguments of the cell at this place, in parentheses where there are any.
    Arguments(usize),
    // The arguments of the cell at this place from this one on, each behind a comma, and the closing parenthesis.
    Others(usize, usize),
    // The closing bracket of a list.
    Close,
}

// What is written at once.
#[derive(Clone, Copy)]
pub(crate) enum Piece {
    Nothing,
    EmptyList,
    OpenList,
    CloseList,
    OpenArguments,
    CloseArguments,
    Comma,
    Bar,
    Int(i64),
    // A text, within quotes.
    Text(Name),
    // A constructor's name.
    Symbol(Name),
}

/// Puts the text of a root's value behind a text. The root of this number must be there. Where memory is refused, a
/// front of the value's text stands there.
///
/// The walk keeps a stack of what is still to be written, which is at most about twice as high as the value is deep.
pub fn write_text(
    alloc: Global,
    block: &Block,
    root: u32,
    names: &Names,
    into: &mut Text,
) -> Result<(), NoMemory>
    requires { root < length block.now.roots }
    ensures ok { IfSome (slice_get (root_values block.now) root) (λ value. OnOk result (into.new ≡ into.old ++ value_text names.now value)) }
    ensures err { IfSome (slice_get (root_values block.now) root) (λ value. OnErr result (AppendsFront (value_text names.now value) into.old into.new)) }
{
    let word = block.root(root).unwrap();
    write_word(alloc, block.cells(), word, names, into)
}

// Puts the text of a word's value behind a text.
fn write_word(
    alloc: Global,
    cells: &[Cell],
    word: Word,
    names: &Names,
    into: &mut Text,
) -> Result<(), NoMemory>
    requires lower { AreLower cells.now }
    requires within { IsBelow (length cells.now) word }
    ensures ok { OnOk result (into.new ≡ into.old ++ value_text names.now (value_of cells.now word)) }
    ensures err { OnErr result (AppendsFront (value_text names.now (value_of cells.now word)) into.old into.new) }
{
    let mut stack = Vec::new(alloc);
    stack.push(Todo::Whole(word))?;
    while let Some(todo) = stack.pop() {
        let piece = next_piece(cells, todo, &mut stack)?;
        write_piece(alloc, piece, names, into)?;
    }
    Ok(())
}

// Takes the first piece off an entry of the stack.
fn next_piece(cells: &[Cell], todo: Todo, stack: &mut Vec<Todo>) -> Result<Piece, NoMemory>
    requires lower { AreLower cells.now }
    requires within { IsTodoBelow (length cells.now) todo }
    ensures { IfOk result (Takes cells.now (λ names. todo_text names cells.now todo) stack.old.items stack.new.items) }
{
    match todo {
        Todo::Whole(word) => whole_piece(cells, word, stack),
        Todo::Tail(word) => tail_piece(cells, word, stack),
        Todo::Arguments(place) => arguments_piece(cells, place, stack),
        Todo::Others(place, first) => others_piece(cells, place, first, stack),
        Todo::Close => Ok(Piece::CloseList),
    }
}

// Takes the first piece off a value.
fn whole_piece(cells: &[Cell], word: Word, stack: &mut Vec<Todo>) -> Result<Piece, NoMemory>
    requires lower { AreLower cells.now }
    requires within { IsBelow (length cells.now) word }
    ensures { IfOk result (Takes cells.now (λ names. value_text names (value_of cells.now word)) stack.old.items stack.new.items) }
{
    match shape_of(cells, &word) {
        Shape::Int(number) => Ok(Piece::Int(number)),
        Shape::Text(name) => Ok(Piece::Text(name)),
        Shape::Nil => Ok(Piece::EmptyList),
        Shape::Pair(head, tail) => {
            push_two(stack, Todo::Tail(tail), head)?;
            Ok(Piece::OpenList)
        }
        Shape::Atom(symbol) => Ok(Piece::Symbol(symbol)),
        Shape::Applied(symbol, place) => {
            stack.push(Todo::Arguments(place))?;
            Ok(Piece::Symbol(symbol))
        }
    }
}

// Takes the first piece off a list from this tail on.
fn tail_piece(cells: &[Cell], word: Word, stack: &mut Vec<Todo>) -> Result<Piece, NoMemory>
    requires lower { AreLower cells.now }
    requires within { IsBelow (length cells.now) word }
    ensures { IfOk result (Takes cells.now (λ names. tail_text names (value_of cells.now word) ++ 93 ∷ []) stack.old.items stack.new.items) }
{
    match shape_of(cells, &word) {
        Shape::Nil => Ok(Piece::CloseList),
        Shape::Pair(head, tail) => {
            push_two(stack, Todo::Tail(tail), head)?;
            Ok(Piece::Comma)
        }
        _ => bar_piece(word, stack),
    }
}

// Puts the end of a list that is none itself on the stack, behind its bar.
fn bar_piece(word: Word, stack: &mut Vec<Todo>) -> Result<Piece, NoMemory>
    ensures { IfOk result (λ piece. (piece ≡ Piece.Bar) × (stack.new.items ≡ (stack.old.items ++ Todo.Close ∷ []) ++ Todo.Whole word ∷ [])) }
{
    push_two(stack, Todo::Close, word)?;
    Ok(Piece::Bar)
}

// Takes the first piece off the arguments of a cell.
fn arguments_piece(cells: &[Cell], place: usize, stack: &mut Vec<Todo>) -> Result<Piece, NoMemory>
    requires lower { AreLower cells.now }
    requires within { place < length cells.now }
    ensures { IfOk result (Takes cells.now (λ names. arguments_text names (arguments_from cells.now place 0)) stack.old.items stack.new.items) }
{
    match argument(cells, place, 0) {
        None => Ok(Piece::Nothing),
        Some(word) => {
            push_two(stack, Todo::Others(place, 1), word)?;
            Ok(Piece::OpenArguments)
        }
    }
}

// Takes the first piece off the arguments of a cell from this one on.
fn others_piece(
    cells: &[Cell],
    place: usize,
    first: usize,
    stack: &mut Vec<Todo>,
) -> Result<Piece, NoMemory>
    requires lower { AreLower cells.now }
    requires within { place < length cells.now }
    ensures { IfOk result (Takes cells.now (λ names. others_text names (arguments_from cells.now place first) ++ close_code ∷ []) stack.old.items stack.new.items) }
{
    match argument(cells, place, first) {
        None => Ok(Piece::CloseArguments),
        Some(word) => {
            push_two(stack, Todo::Others(place, first + 1), word)?;
            Ok(Piece::Comma)
        }
    }
}

// An argument of the cell at a place, if the cell has so many.
fn argument(cells: &[Cell], place: usize, number: usize) -> Option<Word>
    requires { place < length cells.now }
    ensures value { result ≡ slice_get (arguments_at cells.now place) number }
    ensures bound { IfSome result (λ _. number < 18446744073709551615) }
{
    let cell = &cells[place];
    cell.arguments.get(number).copied()
}

// Puts what is to be written later on the stack, and then the value of this word.
fn push_two(stack: &mut Vec<Todo>, later: Todo, next: Word) -> Result<(), NoMemory>
    ensures { OnOk result (stack.new.items ≡ (stack.old.items ++ later ∷ []) ++ Todo.Whole next ∷ []) }
{
    stack.push(later)?;
    stack.push(Todo::Whole(next))?;
    Ok(())
}

fn write_piece(alloc: Global, piece: Piece, names: &Names, into: &mut Text) -> Result<(), NoMemory>
    ensures ok { OnOk result (into.new ≡ into.old ++ piece_text names.now piece) }
    ensures err { OnErr result (into.new ≡ into.old) }
{
    match piece {
        Piece::Nothing => Ok(()),
        Piece::EmptyList => into.push(b"[]"),
        Piece::OpenList => into.push(b"["),
        Piece::CloseList => into.push(b"]"),
        Piece::OpenArguments => into.push(b"("),
        Piece::CloseArguments => into.push(b")"),
        Piece::Comma => into.push(b", "),
        Piece::Bar => into.push(b" | "),
        Piece::Int(number) => into.push(number.to_string(alloc)?.as_bytes()),
        Piece::Text(name) => into.push(quoted(alloc, b'"', text_of(names, name))?.bytes()),
        Piece::Symbol(name) => into.push(name_text(alloc, text_of(names, name))?.bytes()),
    }
}
