//! Blocks of memory that hold values.
ghost use Rattle.std.specs.Prelude.{◌≡◌, ◌≤◌, ◌↔◌, [], ◌∷◌, ◌++◌, length, slice_get, IsNone, IfOk, OnOk, OnErr};
ghost use Rattle.std.specs.List.{All};
ghost use Rattle.merc_value.specs.Block.{CellData, BlockData, IsBelow, IsWhole, with_cell, with_root};

use crate::Word;
use merc_base::{Name, NoMemory};
use std::alloc::Global;
use std::marker::Model;

/// A constructor with a word for each argument.
#[derive(Drop)]
pub struct Cell {
    /// The constructor.
    pub symbol: Name,
    /// The words of the arguments, each of which leads to lower cells alone.
    pub arguments: Vec<Word>,
}

impl Model for Cell {
    ghost use Rattle.merc_value.specs.Block.{CellData};

    ghost Value = { CellData };

    ghost view = { λ c. record { symbol = c.symbol; arguments = c.arguments.items } };
}

/// Cells, each a constructor with a word for each argument, and roots, which are words. Each word stands for a value
/// that lies in the block. It is seen as the lists of its cells and its roots.
#[derive(Drop)]
pub struct Block {
    alloc: Global,
    cells: Vec<Cell>,
    roots: Vec<Word>,
}

impl Model for Block {
    ghost use Rattle.merc_value.specs.Block.{BlockData, IsWhole};

    ghost Value = { BlockData };

    ghost view = { λ b. record { cells = b.cells.items; roots = b.roots.items } };

    ghost invariant = { λ b. IsWhole (record { cells = b.cells.items; roots = b.roots.items }) };
}

impl Block {
    /// A block without cells and roots. It takes no memory before something is put in.
    pub fn new(alloc: Global) -> Block
        ensures { result ≡ record { cells = []; roots = [] } }
    {
        Block {
            alloc,
            cells: Vec::new(alloc),
            roots: Vec::new(alloc),
        }
    }

    /// Puts a cell behind the others, and gives the word for it. Where memory is refused the block is unchanged.
    pub fn cell(&mut self, symbol: Name, arguments: &[Word]) -> Result<Word, NoMemory>
        requires { All (IsBelow (length self.old.cells)) arguments.now }
        ensures word { IfOk result (λ word. word ≡ Word.Cell (length self.old.cells)) }
        ensures ok { OnOk result (self.new ≡ with_cell self.old symbol arguments.now) }
        ensures err { OnErr result (self.new ≡ self.old) }
    {
        let place = self.cells.len();
        let arguments = Vec::from_slice(self.alloc, arguments)?;
        self.cells.push(Cell { symbol, arguments })?;
        Ok(Word::Cell(place))
    }

    /// Puts a root behind the others. Where memory is refused the block is unchanged.
    pub fn add_root(&mut self, word: Word) -> Result<(), NoMemory>
        requires { IsBelow (length self.old.cells) word }
        ensures ok { OnOk result (self.new ≡ with_root self.old word) }
        ensures err { OnErr result (self.new ≡ self.old) }
    {
        self.roots.push(word)?;
        Ok(())
    }

    /// The root of this number, from 0; `None` past the last root.
    pub fn root(&self, number: u32) -> Option<Word>
        ensures value { result ≡ slice_get self.now.roots number }
        ensures none { IsNone result ↔ (length self.now.roots ≤ number) }
        ensures whole { IsWhole self.now }
    {
        self.roots.get(number as usize).copied()
    }

    // Where the block takes its memory from.
    pub(crate) fn alloc(&self) -> Global {
        self.alloc
    }

    /// The cells, by place.
    pub fn cells(&self) -> &[Cell]
        ensures value { result.now ≡ self.now.cells }
        ensures whole { IsWhole self.now }
    {
        &self.cells
    }

    /// The roots, by number.
    pub fn roots(&self) -> &[Word]
        ensures { result.now ≡ self.now.roots }
    {
        &self.roots
    }
}
