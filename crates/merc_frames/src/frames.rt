//! Frames of slots in one list, with who called and the choice points.
ghost use Rattle.std.specs.Prelude.{◌≡◌, ◌⊎◌, ◌+◌, ◌-◌, ◌<◌, ◌≤◌, ℕ, Bool, true, false, [], ◌∷◌, length, Some, slice_get, slice_set, IfOk, OnOk, OnErr};
ghost use Rattle.merc_frames.specs.Handing.{passed};
ghost use Rattle.merc_frames.specs.Held.{AreHeld, AreStacksHeld, Passes, cells_left};
ghost use Rattle.merc_frames.specs.Stacks.{GoesOn, caller_place, oldest, softened, Opens, Enters, Renews, GivesBack, GivesSlots, GoesBack};
ghost use Rattle.merc_frames.specs.Rooms.{AreSlots, AreTaken, AreReceived, AreCallerSlots};
ghost use Rattle.merc_frames.specs.View.{caller_top, kept_end, larger, newest, kept_saved};
ghost use Rattle.merc_frames.specs.declared.handing.TheConstants.{FEW_PASSES};
ghost use Rattle.merc_frames.specs.declared.slot.Slot.{Slot};
ghost use Rattle.merc_frames.specs.declared.kept.Kept.{Kept};
ghost use Rattle.merc_frames.specs.declared.kept.Saved.{Saved};

use crate::copying::{copy_frame, copy_up, cut_above, make_empty, make_room};
use crate::handing::{FEW_PASSES, Frame, deliver, make_frame, pass_within};
use crate::kept::{Kept, Saved};
use crate::{Pass, Slot};
use merc_base::NoMemory;
use merc_goal_tree::Var;
use std::alloc::Global;
use std::marker::Model;

// The current frame may lie higher than it has to by so many times its size. Conditions in a loop of last calls seldom leave
// more, and a last call that does not stay in its frame gives it back.
const GAP: usize = 4;

/// What going back finds.
#[derive(Clone, Copy)]
pub enum Backed {
    /// No choice point.
    End,
    /// One that only fails.
    Dead,
    /// One that goes on at this place, with this mark of the heap.
    On(usize, usize),
}

/// Frames of slots: the current one, those of the callers, and those that choice points keep. They are seen as lists
/// of slots, callers and choice points, with all slots that there are: what is left in slots that no frame has may
/// be in a new frame. What all of them hold is told by `held`, of each test of what a slot may hold over so many cells of a
/// heap.
#[derive(Drop)]
pub struct Frames {
    // what calls and returns use stands first: fields are laid out in order, and near ones have short offsets
    slots: Vec<Slot>,
    saved: Vec<Saved>,
    base: usize,
    size: usize,
    height: usize,
    // how many saved frames the newest choice point needs, and where the slots end that it needs; 0 without one
    kept_saved: usize,
    kept_end: usize,
    choices: Vec<Kept>,
}

impl Model for Frames {
    ghost use Rattle.merc_frames.specs.Held.{FramesData};
    ghost use Rattle.merc_frames.specs.View.{data_of, Fine, Needs};

    ghost Value = { FramesData };

    ghost view = { λ f. data_of f.slots.items f.saved.items f.choices.items f.base f.size f.height };

    ghost invariant = { λ f. Fine f.slots.items f.saved.items f.choices.items f.base f.size f.height × Needs f.choices.items f.kept_saved f.kept_end };
}

impl Frames {
    /// A current frame without slots, no callers and no choice points. It takes no memory yet.
    pub fn new(alloc: Global) -> Frames
        ensures frames { result ≡ record { stacks = record { current = []; callers = []; choices = [] }; slots = []; tops = [] } }
        ensures held { (may_hold : ℕ → Slot → Bool) (cells : ℕ) → AreHeld (Passes may_hold) cells result }
    {
        Frames {
            slots: Vec::new(alloc),
            saved: Vec::new(alloc),
            base: 0,
            size: 0,
            height: 0,
            kept_saved: 0,
            kept_end: 0,
            choices: Vec::new(alloc),
        }
    }

    /// Begins anew with a current frame of `size` slots, all empty, no callers, no choice points and no other slots. Where
    /// memory is refused, nothing changes.
    pub fn open(&mut self, size: usize) -> Result<(), NoMemory>
        ensures ok { OnOk result (Opens self.new.stacks size) }
        ensures err { OnErr result (self.new ≡ self.old) }
        ensures held { (may_hold : ℕ → Slot → Bool) (cells : ℕ) → Passes may_hold cells Slot.Empty → OnOk result (AreHeld (Passes may_hold) cells self.new) }
    {
        make_empty(&mut self.slots, size)?;
        self.saved.clear();
        self.choices.clear();
        self.base = 0;
        self.size = size;
        self.height = 0;
        self.kept_saved = 0;
        self.kept_end = 0;
        Ok(())
    }

    /// How many slots the current frame has.
    pub fn slot_count(&self) -> usize
        ensures { result ≡ length self.now.stacks.current }
    {
        self.size
    }

    /// The slot of this number, from 0, which the current frame has.
    pub fn slot(&self, number: usize) -> Slot
        requires there { number < length self.now.stacks.current }
        ensures { slice_get self.now.stacks.current number ≡ Some result }
    {
        self.slots[self.base + number]
    }

    /// Writes the slot of this number, from 0, which the current frame has.
    pub fn set(&mut self, number: usize, slot: Slot)
        requires there { number < length self.old.stacks.current }
        ensures stacks { self.new.stacks ≡ record self.old.stacks { current = slice_set self.old.stacks.current number slot } }
        ensures held { (may_hold : ℕ → Slot → Bool) (cells : ℕ) → Passes may_hold cells Slot.Empty → Passes may_hold cells slot → AreHeld (Passes may_hold) cells self.old → AreHeld (Passes may_hold) cells self.new }
    {
        self.slots[self.base + number] = slot;
    }

    /// The place where the newest caller goes on. There has to be a caller.
    pub fn caller_place(&self) -> usize
        requires there { self.now.stacks.callers ≡ [] → ⊥ }
        ensures { caller_place self.now.stacks.callers ≡ Some result }
    {
        self.saved[self.height - 1].place
    }

    /// A call: the current frame is the newest caller's, which goes on at `place`, and the current one is new. It has `size`
    /// slots, with what is passed over what is left there, which is nothing where it is emptied. Where memory is refused,
    /// no frame, caller or choice point changes.
    #[inline(always)]
    pub fn enter(
        &mut self,
        place: usize,
        size: usize,
        is_emptied: bool,
        inputs: &[Pass],
    ) -> Result<(), NoMemory>
        requires taken { AreTaken (length self.old.stacks.current) inputs.now }
        requires received { AreReceived size inputs.now }
        ensures ok { OnOk result (Enters self.old.stacks self.new.stacks place size is_emptied inputs.now) }
        ensures err { OnErr result (self.new.stacks ≡ self.old.stacks) }
        ensures held { (may_hold : ℕ → Slot → Bool) (cells : ℕ) → Passes may_hold cells Slot.Empty → AreHeld (Passes may_hold) cells self.old → AreHeld (Passes may_hold) cells self.new }
    {
        let caller = Frame {
            base: self.base,
            size: self.size,
        };
        let base = caller.base + caller.size;
        make_room(&mut self.slots, base, size)?;
        self.saved.push(Saved {
            base: caller.base,
            size: caller.size,
            place,
            parent: self.height,
        })?;
        make_frame(
            &mut self.slots,
            inputs,
            caller,
            Frame { base, size },
            is_emptied,
        );
        self.base = base;
        self.size = size;
        self.height = self.saved.len();
        Ok(())
    }

    /// A last call: the current frame is given back, and the current one is new. It has `size` slots, with what is passed
    /// over what is left there, which is nothing where it is emptied. Where memory is refused, nothing changes.
    #[inline(always)]
    pub fn renew(&mut self, size: usize, is_emptied: bool, inputs: &[Pass]) -> Result<(), NoMemory>
        requires taken { AreTaken (length self.old.stacks.current) inputs.now }
        requires received { AreReceived size inputs.now }
        ensures ok { OnOk result (Renews self.old.stacks self.new.stacks size is_emptied inputs.now) }
        ensures err { OnErr result (self.new ≡ self.old) }
        ensures held { (may_hold : ℕ → Slot → Bool) (cells : ℕ) → Passes may_hold cells Slot.Empty → AreHeld (Passes may_hold) cells self.old → AreHeld (Passes may_hold) cells self.new }
    {
        if self.is_renewed_within(size, is_emptied, inputs) {
            self.renew_within(inputs);
            Ok(())
        } else {
            self.renew_apart(size, is_emptied, inputs)
        }
    }

    // Whether a last call may write what it passes into the current frame: the new one is as large, and what is left there
    // stays; no saved frame is given back, and few slots are passed.
    #[inline(always)]
    fn is_renewed_within(&self, size: usize, is_emptied: bool, inputs: &[Pass]) -> bool
        ensures size { result ≡ true → size ≡ length self.now.stacks.current }
        ensures left { result ≡ true → is_emptied ≡ false }
        ensures few { result ≡ true → length inputs.now ≤ FEW_PASSES }
    {
        size == self.size
            && !is_emptied
            && self.height == self.saved.len()
            && inputs.len() <= FEW_PASSES
    }

    // A last call in place of a frame of the same size, of which only what is passed is written.
    #[inline(always)]
    fn renew_within(&mut self, inputs: &[Pass])
        requires taken { AreTaken (length self.old.stacks.current) inputs.now }
        requires received { AreReceived (length self.old.stacks.current) inputs.now }
        requires few { length inputs.now ≤ FEW_PASSES }
        ensures stacks { self.new.stacks ≡ record self.old.stacks { current = passed inputs.now self.old.stacks.current self.old.stacks.current } }
        ensures held { (may_hold : ℕ → Slot → Bool) (cells : ℕ) → Passes may_hold cells Slot.Empty → AreHeld (Passes may_hold) cells self.old → AreHeld (Passes may_hold) cells self.new }
    {
        let frame = Frame {
            base: self.base,
            size: self.size,
        };
        pass_within(&mut self.slots, inputs, frame);
    }

    // A last call where the new frame has no slot of the old one. What is saved above the callers that are there is given back
    // too.
    #[inline(always)]
    fn renew_apart(
        &mut self,
        size: usize,
        is_emptied: bool,
        inputs: &[Pass],
    ) -> Result<(), NoMemory>
        requires taken { AreTaken (length self.old.stacks.current) inputs.now }
        requires received { AreReceived size inputs.now }
        ensures ok { OnOk result (Renews self.old.stacks self.new.stacks size is_emptied inputs.now) }
        ensures err { OnErr result (self.new ≡ self.old) }
        ensures held { (may_hold : ℕ → Slot → Bool) (cells : ℕ) → Passes may_hold cells Slot.Empty → AreHeld (Passes may_hold) cells self.old → AreHeld (Passes may_hold) cells self.new }
    {
        let count = larger_of(self.height, self.kept_saved);
        let low = larger_of(
            caller_end(&self.saved, self.height, self.base),
            self.kept_end,
        );
        let old = Frame {
            base: self.base,
            size: self.size,
        };
        let base = base_of(low, old.base, old.base + old.size, size);
        make_room(&mut self.slots, base, size)?;
        make_frame(
            &mut self.slots,
            inputs,
            old,
            Frame { base, size },
            is_emptied,
        );
        self.saved.truncate(count);
        self.base = base;
        self.size = size;
        Ok(())
    }

    /// Goes back to the newest caller, whose frame is the current one, and gives the place where it goes on. There has to be
    /// a caller. What the own slots hold is put into the caller's, one for one. Where memory is refused, nothing changes.
    #[inline(always)]
    pub fn give_back(&mut self, own: &[Var], outs: &[Var]) -> Result<usize, NoMemory>
        requires there { self.old.stacks.callers ≡ [] → ⊥ }
        requires own { AreSlots (length self.old.stacks.current) own.now }
        requires outs { AreCallerSlots self.old.stacks.callers outs.now }
        ensures ok { IfOk result (λ place. GivesBack self.old.stacks self.new.stacks own.now outs.now (Some place)) }
        ensures err { OnErr result (self.new ≡ self.old) }
        ensures held { (may_hold : ℕ → Slot → Bool) (cells : ℕ) → Passes may_hold cells Slot.Empty → AreHeld (Passes may_hold) cells self.old → AreHeld (Passes may_hold) cells self.new }
    {
        if self.height > self.kept_saved {
            let caller = self.saved[self.height - 1];
            let from = Frame {
                base: self.base,
                size: self.size,
            };
            let to = Frame {
                base: caller.base,
                size: caller.size,
            };
            deliver(&mut self.slots, own, from, outs, to);
            self.saved.truncate(self.height - 1);
            self.base = caller.base;
            self.size = caller.size;
            self.height = caller.parent;
            Ok(caller.place)
        } else {
            self.give_back_kept(own, outs)
        }
    }

    /// As `give_back`, of one slot that is put into the first of the caller's own. The current frame is not read.
    #[inline(always)]
    pub fn give_slot(&mut self, slot: Slot, outs: &[Var]) -> Result<(), NoMemory>
        requires there { self.old.stacks.callers ≡ [] → ⊥ }
        requires outs { AreCallerSlots self.old.stacks.callers outs.now }
        ensures ok { OnOk result (GivesSlots self.old.stacks self.new.stacks (slot ∷ []) outs.now (caller_place self.old.stacks.callers)) }
        ensures err { OnErr result (self.new ≡ self.old) }
        ensures held { (may_hold : ℕ → Slot → Bool) (cells : ℕ) → Passes may_hold cells Slot.Empty → Passes may_hold cells slot → AreHeld (Passes may_hold) cells self.old → AreHeld (Passes may_hold) cells self.new }
    {
        // the condition under which `give_back` copies no frame, so that only this way stands in the callers' code
        if self.kept_saved < self.height {
            self.put_slot(slot, outs)
        } else {
            self.put_slot_kept(slot, outs)
        }
    }

    // Goes back to the newest caller by `give_back`, and puts the slot into the first of the caller's own.
    #[inline(always)]
    fn put_slot(&mut self, slot: Slot, outs: &[Var]) -> Result<(), NoMemory>
        requires there { self.old.stacks.callers ≡ [] → ⊥ }
        requires outs { AreCallerSlots self.old.stacks.callers outs.now }
        ensures ok { OnOk result (GivesSlots self.old.stacks self.new.stacks (slot ∷ []) outs.now (caller_place self.old.stacks.callers)) }
        ensures err { OnErr result (self.new ≡ self.old) }
        ensures held { (may_hold : ℕ → Slot → Bool) (cells : ℕ) → Passes may_hold cells Slot.Empty → Passes may_hold cells slot → AreHeld (Passes may_hold) cells self.old → AreHeld (Passes may_hold) cells self.new }
    {
        self.give_back(&[], &[])?;
        if let [out, ..] = outs {
            self.set(out.number(), slot);
        }
        Ok(())
    }

    // Does what `put_slot` does, where the newest choice point keeps the frame of the caller.
    #[cold]
    #[inline(never)]
    fn put_slot_kept(&mut self, slot: Slot, outs: &[Var]) -> Result<(), NoMemory>
        requires there { self.old.stacks.callers ≡ [] → ⊥ }
        requires outs { AreCallerSlots self.old.stacks.callers outs.now }
        ensures ok { OnOk result (GivesSlots self.old.stacks self.new.stacks (slot ∷ []) outs.now (caller_place self.old.stacks.callers)) }
        ensures err { OnErr result (self.new ≡ self.old) }
        ensures held { (may_hold : ℕ → Slot → Bool) (cells : ℕ) → Passes may_hold cells Slot.Empty → Passes may_hold cells slot → AreHeld (Passes may_hold) cells self.old → AreHeld (Passes may_hold) cells self.new }
    {
        self.return_kept()?;
        if let [out, ..] = outs {
            self.set(out.number(), slot);
        }
        Ok(())
    }

    // Goes back to the newest caller, to which nothing is given, in a copy of its frame, which the newest choice point keeps. The
    // current frame is not read, so that the copy may lie over it.
    #[inline(always)]
    fn return_kept(&mut self) -> Result<(), NoMemory>
        requires there { self.old.stacks.callers ≡ [] → ⊥ }
        ensures ok { OnOk result (GivesBack self.old.stacks self.new.stacks [] [] (caller_place self.old.stacks.callers)) }
        ensures err { OnErr result (self.new ≡ self.old) }
        ensures held { (may_hold : ℕ → Slot → Bool) (cells : ℕ) → Passes may_hold cells Slot.Empty → AreHeld (Passes may_hold) cells self.old → AreHeld (Passes may_hold) cells self.new }
    {
        let caller = self.saved[self.height - 1];
        let count = larger_of(caller.parent, self.kept_saved);
        let low = larger_of(
            caller_end(&self.saved, caller.parent, self.base),
            self.kept_end,
        );
        make_room(&mut self.slots, low, caller.size)?;
        copy_frame(&mut self.slots, caller.base, caller.size, low);
        self.saved.truncate(count);
        self.base = low;
        self.size = caller.size;
        self.height = caller.parent;
        Ok(())
    }

    // Goes back to the newest caller in a copy of its frame, which the newest choice point keeps.
    #[cold]
    #[inline(never)]
    fn give_back_kept(&mut self, own: &[Var], outs: &[Var]) -> Result<usize, NoMemory>
        requires there { self.old.stacks.callers ≡ [] → ⊥ }
        requires own { AreSlots (length self.old.stacks.current) own.now }
        requires outs { AreCallerSlots self.old.stacks.callers outs.now }
        ensures ok { IfOk result (λ place. GivesBack self.old.stacks self.new.stacks own.now outs.now (Some place)) }
        ensures err { OnErr result (self.new ≡ self.old) }
        ensures held { (may_hold : ℕ → Slot → Bool) (cells : ℕ) → Passes may_hold cells Slot.Empty → AreHeld (Passes may_hold) cells self.old → AreHeld (Passes may_hold) cells self.new }
    {
        let caller = self.saved[self.height - 1];
        let from = Frame {
            base: self.base,
            size: self.size,
        };
        let top = from.base + from.size;
        make_room(&mut self.slots, top, caller.size)?;
        copy_frame(&mut self.slots, caller.base, caller.size, top);
        deliver(
            &mut self.slots,
            own,
            from,
            outs,
            Frame {
                base: top,
                size: caller.size,
            },
        );
        let count = larger_of(caller.parent, self.kept_saved);
        let low = larger_of(
            caller_end(&self.saved, caller.parent, self.base),
            self.kept_end,
        );
        copy_frame(&mut self.slots, top, caller.size, low);
        self.saved.truncate(count);
        self.base = low;
        self.size = caller.size;
        self.height = caller.parent;
        Ok(caller.place)
    }

    /// Makes a choice point of the current frame and its callers, which goes on at `place` with this mark of the heap.
    /// Where memory is refused, no frame, caller or choice point changes.
    pub fn attempt(&mut self, place: usize, heap: usize) -> Result<(), NoMemory>
        ensures ok { OnOk result (self.new.stacks ≡ record self.old.stacks { choices = GoesOn place heap self.old.stacks.current self.old.stacks.callers ∷ self.old.stacks.choices }) }
        ensures err { OnErr result (self.new.stacks ≡ self.old.stacks) }
        ensures held { (may_hold : ℕ → Slot → Bool) → Passes may_hold heap Slot.Empty → AreHeld (Passes may_hold) heap self.old → AreHeld (Passes may_hold) heap self.new }
    {
        // What a choice point keeps is not written any more: the current frame goes on in a copy.
        let copy = self.base + self.size;
        let saved = self.saved.len();
        make_room(&mut self.slots, copy, self.size)?;
        self.choices.push(Kept {
            live: true,
            base: self.base,
            size: self.size,
            place,
            heap,
            height: self.height,
            saved,
        })?;
        copy_up(&mut self.slots, self.base, self.size, copy);
        self.base = copy;
        self.kept_saved = saved;
        self.kept_end = copy;
        Ok(())
    }

    /// Goes back to the newest choice point, which is taken away. `cells` is how many cells the heap has: those at the
    /// choice point's mark and above it are not led to any more.
    pub fn back(&mut self, cells: usize) -> Backed
        ensures stacks { GoesBack self.old.stacks self.new.stacks result }
        ensures held { (may_hold : ℕ → Slot → Bool) → AreHeld (Passes may_hold) cells self.old → AreHeld (Passes may_hold) (cells_left cells result) self.new }
    {
        match self.choices.pop() {
            None => Backed::End,
            Some(kept) => {
                self.kept_saved = kept_saved(&self.choices);
                self.kept_end = kept_end(&self.choices, self.base);
                if kept.live {
                    // What lies above its frame may lead to cells that go. Where none goes, the list keeps its length, so that
                    // calls need not make it longer again.
                    let is_cut = kept.heap < cells;
                    cut_above(&mut self.slots, kept.base, kept.size, is_cut);
                    self.saved.truncate(kept.saved);
                    self.base = kept.base;
                    self.size = kept.size;
                    self.height = kept.height;
                    Backed::On(kept.place, kept.heap)
                } else {
                    Backed::Dead
                }
            }
        }
    }

    /// A law for proofs, which does nothing at run time: what is true of all slots is true of those of each frame.
    #[inline(always)]
    pub fn held(&self)
        ensures { (may_hold : ℕ → Slot → Bool) (cells : ℕ) → AreHeld (Passes may_hold) cells self.now → AreStacksHeld (Passes may_hold) cells self.now.stacks }
    {
        let _ = &self.slots;
    }

    /// How many choice points there are.
    pub fn count(&self) -> usize
        ensures { result ≡ length self.now.stacks.choices }
    {
        self.choices.len()
    }

    /// Takes choice points away: the oldest `count` stay.
    pub fn commit(&mut self, count: usize)
        ensures stacks { self.new.stacks ≡ record self.old.stacks { choices = oldest count self.old.stacks.choices } }
        ensures held { (may_hold : ℕ → Slot → Bool) (cells : ℕ) → AreHeld (Passes may_hold) cells self.old → AreHeld (Passes may_hold) cells self.new }
    {
        if count < self.choices.len() {
            self.choices.truncate(count);
            self.kept_saved = kept_saved(&self.choices);
            self.kept_end = kept_end(&self.choices, self.base);
            self.close_gap();
        }
    }

    // The current frame lies behind those that choice points kept. Where these were taken away, it is moved down to where all
    // ends that is still needed, but only over several times its size: conditions, one behind the other, take the room
    // of a few frames, and most of them copy nothing here.
    #[inline(never)]
    fn close_gap(&mut self)
        ensures stacks { self.new.stacks ≡ self.old.stacks }
        ensures held { (may_hold : ℕ → Slot → Bool) (cells : ℕ) → AreHeld (Passes may_hold) cells self.old → AreHeld (Passes may_hold) cells self.new }
    {
        let end = larger_of(
            caller_end(&self.saved, self.height, self.base),
            self.kept_end,
        );
        if (self.base - end) / GAP > self.size {
            copy_frame(&mut self.slots, self.base, self.size, end);
            let count = larger_of(self.height, self.kept_saved);
            self.saved.truncate(count);
            self.base = end;
        }
    }

    /// The choice point with `count` older ones only fails from now on. Nothing changes where there is none.
    pub fn soften(&mut self, count: usize)
        ensures stacks { self.new.stacks ≡ record self.old.stacks { choices = softened count self.old.stacks.choices } }
        ensures held { (may_hold : ℕ → Slot → Bool) (cells : ℕ) → AreHeld (Passes may_hold) cells self.old → AreHeld (Passes may_hold) cells self.new }
    {
        if count < self.choices.len() {
            let kept = self.choices[count];
            self.choices[count] = Kept {
                live: false,
                ..kept
            };
        }
    }
}

// The larger of two.
#[inline(always)]
fn larger_of(one: usize, other: usize) -> usize
    ensures { result ≡ larger one other }
{
    if one < other { other } else { one }
}

// Where a frame of this size begins that takes the place of the one from `base` to `end`, which it does not meet: where
// all ends that others need, if it fits there below the old one, and else behind that. Behind it is only where it is larger
// than all that lies between, so that any number of them, one after the other, take the room of a few.
#[inline(always)]
fn base_of(low: usize, base: usize, end: usize, size: usize) -> usize
    requires under { low ≤ base }
    requires ordered { base ≤ end }
    ensures low { low ≤ result }
    ensures under { result ≤ end }
    ensures apart { (end ≤ result) ⊎ (result + size ≤ base) }
{
    if size <= base - low { low } else { end }
}

// Where the newest caller's frame ends, which is saved at this height; 0 without a caller.
#[inline(always)]
fn caller_end(saved: &[Saved], height: usize, base: usize) -> usize
    requires callers { height ≤ length saved.now }
    requires tops { (i : ℕ) (s : Saved) → slice_get saved.now i ≡ Some s → s.base + s.size ≤ base }
    ensures { result ≡ caller_top saved.now height }
{
    if height == 0 {
        return 0;
    }
    let frame = saved[height - 1];
    frame.base + frame.size
}

// How many saved frames the newest choice point needs; 0 without one.
fn kept_saved(choices: &[Kept]) -> usize
    ensures { result ≡ kept_saved (newest choices.now) }
{
    match choices.last() {
        Some(kept) => kept.saved,
        None => 0,
    }
}

// Where the slots end that the newest choice point needs; 0 without one.
fn kept_end(choices: &[Kept], base: usize) -> usize
    requires { (i : ℕ) (k : Kept) → slice_get choices.now i ≡ Some k → k.base + k.size ≤ base }
    ensures { result ≡ kept_end (newest choices.now) }
{
    match choices.last() {
        Some(kept) => kept.base + kept.size,
        None => 0,
    }
}
