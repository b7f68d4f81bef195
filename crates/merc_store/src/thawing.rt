//! Values that stand alone, given to variables.
ghost use Rattle.std.specs.Prelude.{◌≡◌, ◌<◌, ℕ, [], ◌∷◌, length, OnOk, OnErr};
ghost use Rattle.std.specs.List.{All};
ghost use Rattle.merc_value.specs.Value.{Value};
ghost use Rattle.merc_value.specs.Block.{IsBelow, root_values};
ghost use Rattle.merc_meaning.specs.Steps.{bound};
ghost use Rattle.merc_code.specs.Steps.{Binds};
ghost use Rattle.merc_frames.specs.Held.{AreHeld};
ghost use Rattle.merc_frames.specs.Rooms.{AreSlots};
ghost use Rattle.merc_store.specs.Data.{IsSlotBelow};
ghost use Rattle.merc_store.specs.Frozen.{OpensWith, Thaws, frozen_in};
ghost use Rattle.merc_store.specs.Performing.{DoesEffect, stored};

use crate::{Done, Frozen, Store};
use merc_base::NoMemory;
use merc_frames::{Frames, Slot};
use merc_goal_tree::Var;
use merc_segments::thaw;
use merc_value::{Block, Word};

impl Store {
    /// Begins anew, with a current frame of `size` slots in which these variables alone have values, those that were copied for
    /// them; no callers and no choice points.
    ///
    /// # Errors
    ///
    /// `NoMemory` where memory was refused.
    pub fn open_with(&mut self, size: usize, frozen: &Frozen) -> Result<(), NoMemory>
        requires slots { AreSlots size frozen.now.variables.items }
        ensures { OnOk result (OpensWith self.new size (frozen_in frozen.now)) }
    {
        self.open(size)?;
        self.thaw_into(&frozen.variables, &frozen.values)
    }

    /// Gives a variable of the current frame the value of a block's only root. What the choice points keep stays as it is.
    ///
    /// # Errors
    ///
    /// `NoMemory` where memory was refused, and nothing changes.
    pub fn give_value(&mut self, to: Var, value: &Block) -> Result<(), NoMemory>
        requires slot { to < length self.old.stacks.current }
        requires root { length value.now.roots ≡ 1 }
        ensures ok { OnOk result ((given : Value) → root_values value.now ≡ given ∷ [] → DoesEffect self.old self.new (to ∷ []) (λ env. Binds (bound env to given)) Done.Bound) }
        ensures err { OnErr result (self.new ≡ self.old) }
    {
        self.thaw_into(&[to], value)
    }

    // Gives variables of the current frame the values of a block's roots, one for one.
    fn thaw_into(&mut self, variables: &[Var], values: &Block) -> Result<(), NoMemory>
        requires slots { AreSlots (length self.old.stacks.current) variables.now }
        ensures ok { OnOk result (Thaws self.old self.new variables.now (root_values values.now)) }
        ensures err { OnErr result (self.new ≡ self.old) }
    {
        self.sound();
        let words = thaw(values, &mut self.heap)?;
        store_words(&mut self.frames, variables, &words);
        Ok(())
    }
}

// Gives variables of the current frame these words, one for one.
fn store_words(frames: &mut Frames, variables: &[Var], words: &[Word])
    requires { AreSlots (length frames.old.stacks.current) variables.now }
    ensures stacks { frames.new.stacks ≡ record frames.old.stacks { current = stored variables.now words.now frames.old.stacks.current } }
    ensures held { (cells : ℕ) → All (IsBelow cells) words.now → AreHeld IsSlotBelow cells frames.old → AreHeld IsSlotBelow cells frames.new }
{
    for (variable, word) in variables.iter().zip(words) {
        frames.set(variable.number(), Slot::holding(*word));
    }
}
