//! Cells, at which one branch waits for the value of another.
ghost use Rattle.std.specs.Prelude.{◌≡◌};
ghost use Rattle.merc_script.specs.Cells.{value_shown};

use merc_value::Block;
use std::marker::Model;

/// A cell, by a number that no other cell of the root script has.
#[derive(Clone, Copy, PartialEq, Eq, PartialOrd, Ord)]
pub struct CellId {
    number: u64,
}

impl Model for CellId {
    ghost use Rattle.std.specs.Prelude.{ℕ};

    ghost Value = { ℕ };

    ghost view = { λ c. c.number };

    ghost inverse = { λ n. record { number = n } };
}

impl CellId {
    /// The cell of this number.
    pub fn new(number: u64) -> CellId
        ensures { result ≡ number }
    {
        CellId { number }
    }

    /// The cell's number.
    pub fn number(self) -> u64
        ensures { result ≡ self }
    {
        self.number
    }
}

/// A cell of a fork. It is seen as its number with its producer and consumer, and the value that the block's first root
/// stands for.
#[derive(Drop)]
pub struct ScriptCell {
    cell: CellId,
    producer: u32,
    consumer: u32,
    value: Option<Block>,
}

impl Model for ScriptCell {
    ghost use Rattle.merc_script.specs.Script.{Cell};

    ghost Value = { Cell };

    ghost use Rattle.merc_script.specs.ValueCode.{cell_code};

    ghost coded = { cell_code };

    ghost use Rattle.merc_script.specs.Cells.{value_shown};

    ghost view = { λ c. record { cell = c.cell; producer = c.producer; consumer = c.consumer; value = value_shown c.value } };
}

impl ScriptCell {
    /// A cell that the child `producer` may signal, and the child `consumer` wait for; children are numbered from 1, and
    /// the consumer 0 is the parent behind the fork. The value is the one that the cell is given, as a block's first
    /// root, and `None` where no script signals the cell.
    pub fn new(cell: CellId, producer: u32, consumer: u32, value: Option<Block>) -> ScriptCell
        ensures { result ≡ record { cell = cell; producer = producer; consumer = consumer; value = value_shown value } }
    {
        ScriptCell {
            cell,
            producer,
            consumer,
            value,
        }
    }

    /// The cell's number.
    pub fn cell(&self) -> CellId
        ensures { result ≡ self.now.cell }
    {
        self.cell
    }

    /// The child that may signal the cell.
    pub fn producer(&self) -> u32
        ensures { result ≡ self.now.producer }
    {
        self.producer
    }
}

/// A right that a fork moves from the parent into a child.
#[derive(Clone, Copy, PartialEq, Eq)]
pub struct Move {
    pub cell: CellId,
    /// The child, numbered from 1.
    pub child: u32,
    /// Whether it is the right to signal the cell; else it is the right to wait for it.
    pub signal: bool,
}

impl Model for Move {
    ghost use Rattle.merc_script.specs.Script.{Move as MeantMove};

    ghost Value = { MeantMove };

    ghost view = { λ m. record { cell = m.cell; child = m.child; signal = m.signal } };

    ghost inverse = { λ m. record { cell = m.cell; child = m.child; signal = m.signal } };
}
