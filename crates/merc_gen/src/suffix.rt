//! The end of a goal's code, while it is built from its end to its beginning.
ghost use Rattle.std.specs.Prelude.{◌≡◌, [], ◌∷◌, length, OnOk};

use merc_base::NoMemory;
use merc_code::Instruction;
use std::alloc::Global;
use std::marker::Model;

/// The last instructions of code. Others are put before them, so that it is known how many a jump skips when it is put.
#[derive(Drop)]
pub(crate) struct Suffix {
    reversed: Vec<Instruction>,
}

impl Model for Suffix {
    ghost use Rattle.std.specs.Prelude.{reverse};
    ghost use Rattle.merc_code.specs.Steps.{Code};

    ghost Value = { Code };

    ghost view = { λ s. reverse s.reversed.items };
}

impl Suffix {
    /// No instruction. It takes no memory.
    pub(crate) fn new(alloc: Global) -> Suffix
        ensures { result ≡ [] }
    {
        Suffix {
            reversed: Vec::new(alloc),
        }
    }

    /// The number of instructions.
    pub(crate) fn len(&self) -> usize
        ensures { result ≡ length self.now }
    {
        self.reversed.len()
    }

    /// Puts an instruction before the others.
    ///
    /// # Errors
    ///
    /// `NoMemory` where memory was refused.
    pub(crate) fn put_first(&mut self, instruction: Instruction) -> Result<(), NoMemory>
        ensures { OnOk result (self.new ≡ instruction ∷ self.old) }
    {
        self.reversed.push(instruction)?;
        Ok(())
    }

    /// The instructions in order.
    pub(crate) fn into_vec(self) -> Vec<Instruction>
        ensures { result.items ≡ self }
    {
        let mut instructions = self.reversed;
        instructions.reverse();
        instructions
    }
}
