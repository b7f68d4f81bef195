//! What slots of the current frame hold, read and written several at once.
ghost use Rattle.std.specs.Prelude.{◌≡◌, ℕ, length, OnOk};
ghost use Rattle.std.specs.List.{All};
ghost use Rattle.merc_frames.specs.Handing.{carried, delivered};
ghost use Rattle.merc_frames.specs.Held.{AreHeld};
ghost use Rattle.merc_frames.specs.Rooms.{AreSlots};
ghost use Rattle.merc_store.specs.Data.{IsSlotBelow};

use merc_base::NoMemory;
use merc_frames::{Frames, Slot};
use merc_goal_tree::Var;

/// Puts what these slots of the current frame hold on a list, in order.
pub(crate) fn gather(frames: &Frames, own: &[Var], into: &mut Vec<Slot>) -> Result<(), NoMemory>
    requires { AreSlots (length frames.now.stacks.current) own.now }
    ensures { OnOk result (into.new.items ≡ carried own.now frames.now.stacks.current) }
{
    into.clear();
    for variable in own {
        into.push(frames.slot(variable.number()))?;
    }
    Ok(())
}

/// Writes slots into these variables of the current frame, one for one.
pub(crate) fn deliver(frames: &mut Frames, outs: &[Var], slots: &[Slot])
    requires { AreSlots (length frames.old.stacks.current) outs.now }
    ensures stacks { frames.new.stacks ≡ record frames.old.stacks { current = delivered outs.now slots.now frames.old.stacks.current } }
    ensures held { (cells : ℕ) → All (IsSlotBelow cells) slots.now → AreHeld IsSlotBelow cells frames.old → AreHeld IsSlotBelow cells frames.new }
{
    for (variable, slot) in outs.iter().zip(slots) {
        frames.set(variable.number(), *slot);
    }
}
