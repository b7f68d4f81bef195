//! Values of variables that stand alone, so that they can go from one store to another.
ghost use Rattle.std.specs.Prelude.{◌≡◌, ◌<◌, ◌++◌, ◌∷◌, [], length, slice_get, true, Some, IfOk, OnOk};
ghost use Rattle.std.specs.Option.{is_some};
ghost use Rattle.merc_value.specs.Value.{Value};
ghost use Rattle.merc_value.specs.Block.{root_values};
ghost use Rattle.merc_frames.specs.Rooms.{AreSlots};
ghost use Rattle.merc_store.specs.Fitting.{slot_value};
ghost use Rattle.merc_store.specs.Frozen.{Freezes, frozen_in, held_variables, held_words};

use crate::Store;
use crate::performing::word_in;
use merc_base::NoMemory;
use merc_frames::Frames;
use merc_goal_tree::Var;
use merc_segments::freeze;
use merc_value::{Block, Word};
use std::alloc::Global;

/// Variables with a value each. The values lie in a block, of which each is the root of the same number.
#[derive(Drop)]
pub struct Frozen {
    pub(crate) variables: Vec<Var>,
    pub(crate) values: Block,
}

impl Store {
    /// Copies of the values of these variables of the current frame, but for those that have none.
    ///
    /// The cost is that of `merc_segments::freeze`.
    ///
    /// # Errors
    ///
    /// `NoMemory` where memory was refused.
    pub fn freeze(&self, alloc: Global, variables: &[Var]) -> Result<Frozen, NoMemory>
        requires slots { AreSlots (length self.now.stacks.current) variables.now }
        ensures { IfOk result (λ frozen. Freezes self.now variables.now (frozen_in frozen)) }
    {
        self.sound();
        let mut held = Vec::new(alloc);
        let mut words = Vec::new(alloc);
        add_all(&self.frames, variables, &mut held, &mut words)?;
        let values = freeze(alloc, &self.heap, &words)?;
        Ok(Frozen {
            variables: held,
            values,
        })
    }

    /// A copy of the value of a variable of the current frame, which is a block's only root.
    ///
    /// The cost is that of `merc_segments::freeze`.
    ///
    /// # Errors
    ///
    /// `NoMemory` where memory was refused.
    pub fn freeze_one(&self, alloc: Global, variable: Var) -> Result<Block, NoMemory>
        requires slot { variable < length self.now.stacks.current }
        requires has { is_some (slot_value self.now.cells (slice_get self.now.stacks.current variable)) ≡ true }
        ensures { IfOk result (λ block. (value : Value) → slot_value self.now.cells (slice_get self.now.stacks.current variable) ≡ Some value → root_values block ≡ value ∷ []) }
    {
        let Some(word) = self.word(variable) else {
            unreachable!()
        };
        freeze(alloc, &self.heap, &[word])
    }

    /// Whether a variable of the current frame has a value.
    #[inline(always)]
    pub fn has_value(&self, variable: Var) -> bool
        requires slot { variable < length self.now.stacks.current }
        ensures { result ≡ is_some (slot_value self.now.cells (slice_get self.now.stacks.current variable)) }
    {
        self.word(variable).is_some()
    }
}

// Puts those of the variables that have a value behind others, and the words of their values behind the words of these.
fn add_all(
    frames: &Frames,
    variables: &[Var],
    held: &mut Vec<Var>,
    words: &mut Vec<Word>,
) -> Result<(), NoMemory>
    requires { AreSlots (length frames.now.stacks.current) variables.now }
    ensures variables { OnOk result (held.new.items ≡ held.old.items ++ held_variables frames.now.stacks.current variables.now) }
    ensures words { OnOk result (words.new.items ≡ words.old.items ++ held_words frames.now.stacks.current variables.now) }
{
    for variable in variables {
        add_held(frames, *variable, held, words)?;
    }
    Ok(())
}

// Puts a variable behind others, and the word of its value behind their words, where it has a value.
fn add_held(
    frames: &Frames,
    variable: Var,
    held: &mut Vec<Var>,
    words: &mut Vec<Word>,
) -> Result<(), NoMemory>
    requires { variable < length frames.now.stacks.current }
    ensures variables { OnOk result (held.new.items ≡ held.old.items ++ held_variables frames.now.stacks.current (variable ∷ [])) }
    ensures words { OnOk result (words.new.items ≡ words.old.items ++ held_words frames.now.stacks.current (variable ∷ [])) }
{
    if let Some(word) = word_in(frames, variable) {
        held.push(variable)?;
        words.push(word)?;
    }
    Ok(())
}
