//! Calls, returns and choice points.
ghost use Rattle.std.specs.Prelude.{◌≡◌, ◌<◌, [], ◌∷◌, List, length, Some, slice_get, slice_set, OnOk};
ghost use Rattle.merc_frames.specs.Stacks.{Caller, GoesOn, caller_place, oldest, softened};
ghost use Rattle.merc_frames.specs.declared.slot.Slot.{Slot};
ghost use Rattle.merc_store.specs.Data.{with_choices, with_current};
ghost use Rattle.merc_store.specs.Fitting.{slot_mark};
ghost use Rattle.merc_frames.specs.Handing.{empty_frame};
ghost use Rattle.merc_frames.specs.Rooms.{AreCallerSlots, AreReceived, AreSlots, AreTaken};
ghost use Rattle.merc_store.specs.Moves.{Calls, CallsLast, GoesBack, Returns};

use crate::store::{Backed, Store};
use merc_base::NoMemory;
use merc_frames::{Pass, Slot};
use merc_goal_tree::Var;
use merc_heap::Mark;

impl Store {
    /// Begins anew: no cells, a current frame of so many empty slots, no callers and no choice points.
    ///
    /// # Errors
    ///
    /// `NoMemory` where memory was refused.
    pub fn open(&mut self, size: usize) -> Result<(), NoMemory>
        ensures { OnOk result (self.new ≡ record { cells = []; stacks = record { current = empty_frame size; callers = []; choices = [] } }) }
    {
        self.frames.open(size)?;
        self.heap.cut_to(Mark::new(0));
        Ok(())
    }

    /// A call: the current frame is the newest caller's, which goes on at `place`. The new one has `size` slots, with what
    /// is passed over what is left there, which is nothing where it is emptied.
    ///
    /// # Errors
    ///
    /// `NoMemory` where memory was refused.
    #[inline(always)]
    pub fn call(
        &mut self,
        place: usize,
        size: usize,
        is_emptied: bool,
        inputs: &[Pass],
    ) -> Result<(), NoMemory>
        requires taken { AreTaken (length self.old.stacks.current) inputs.now }
        requires received { AreReceived size inputs.now }
        ensures { OnOk result (Calls self.old self.new place size is_emptied inputs.now) }
    {
        self.frames.enter(place, size, is_emptied, inputs)
    }

    /// A call whose new frame, which is as by `call`, takes the place of the current one.
    ///
    /// # Errors
    ///
    /// `NoMemory` where memory was refused.
    #[inline(always)]
    pub fn call_last(
        &mut self,
        size: usize,
        is_emptied: bool,
        inputs: &[Pass],
    ) -> Result<(), NoMemory>
        requires taken { AreTaken (length self.old.stacks.current) inputs.now }
        requires received { AreReceived size inputs.now }
        ensures { OnOk result (CallsLast self.old self.new size is_emptied inputs.now) }
    {
        self.frames.renew(size, is_emptied, inputs)
    }

    /// Where the newest caller goes on. There has to be a caller.
    pub fn caller_place(&self) -> usize
        requires there { self.now.stacks.callers ≡ [] → ⊥ }
        ensures { caller_place self.now.stacks.callers ≡ Some result }
    {
        self.frames.caller_place()
    }

    /// Goes back to the newest caller. There has to be one. What these own slots hold is put into its slots, one for one.
    ///
    /// # Errors
    ///
    /// `NoMemory` where memory was refused.
    #[inline(always)]
    pub fn give_back(&mut self, own: &[Var], outs: &[Var]) -> Result<(), NoMemory>
        requires there { self.old.stacks.callers ≡ [] → ⊥ }
        requires own { AreSlots (length self.old.stacks.current) own.now }
        requires outs { AreCallerSlots self.old.stacks.callers outs.now }
        ensures { OnOk result ((newest : Caller) (callers : List Caller) → self.old.stacks.callers ≡ newest ∷ callers → Returns self.old self.new own.now outs.now) }
    {
        self.frames.give_back(own, outs)?;
        Ok(())
    }

    /// The slot becomes a mark of the number of choice points.
    pub fn set_mark(&mut self, slot: usize)
        requires slot { slot < length self.old.stacks.current }
        ensures { self.new ≡ with_current self.old (slice_set self.old.stacks.current slot (Slot.Mark (length self.old.stacks.choices))) }
    {
        let count = self.frames.count();
        self.frames.set(slot, Slot::Mark(count));
    }

    /// Drops the choice points that were made since the slot's mark was set.
    pub fn commit(&mut self, slot: usize)
        requires slot { slot < length self.old.stacks.current }
        ensures { self.new ≡ with_choices self.old (oldest (slot_mark (slice_get self.old.stacks.current slot)) self.old.stacks.choices) }
    {
        let mark = self.frames.slot(slot).mark();
        self.frames.commit(mark);
    }

    /// The choice point that was made next after the slot's mark was set only fails from now on.
    pub fn soften(&mut self, slot: usize)
        requires slot { slot < length self.old.stacks.current }
        ensures { self.new ≡ with_choices self.old (softened (slot_mark (slice_get self.old.stacks.current slot)) self.old.stacks.choices) }
    {
        let mark = self.frames.slot(slot).mark();
        self.frames.soften(mark);
    }

    /// Makes a choice point of the frame and its callers, which goes on at `place` over the cells that there are.
    ///
    /// # Errors
    ///
    /// `NoMemory` where memory was refused.
    pub fn attempt(&mut self, place: usize) -> Result<(), NoMemory>
        ensures { OnOk result (self.new ≡ with_choices self.old (GoesOn place (length self.old.cells) self.old.stacks.current self.old.stacks.callers ∷ self.old.stacks.choices)) }
    {
        self.frames.attempt(place, self.heap.mark().number())?;
        Ok(())
    }

    /// Goes back to the newest choice point, which is taken away; the cells that were built since are given back.
    pub fn back(&mut self) -> Backed
        ensures { GoesBack self.old self.new result }
    {
        // the mark of a choice point is not above the end of the heap
        self.sound();
        match self.frames.back(self.heap.mark().number()) {
            merc_frames::Backed::End => Backed::End,
            merc_frames::Backed::Dead => Backed::Dead,
            merc_frames::Backed::On(place, heap) => {
                self.heap.cut_to(Mark::new(heap));
                Backed::On(place)
            }
        }
    }
}
