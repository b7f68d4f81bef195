//! The store of a run: its heap and its frames.
ghost use Rattle.std.specs.Prelude.{◌≡◌, []};
ghost use Rattle.merc_store.specs.Data.{IsSound};

use merc_base::Name;
use merc_frames::{Frames, Slot};
use merc_heap::Heap;
use merc_value::Word;
use std::alloc::Global;
use std::marker::Model;

/// How an instruction ended.
#[derive(Clone, Copy)]
pub enum Done {
    /// It has given its variables their values.
    Bound,
    Failed,
    /// With an exception of this text.
    Raised(Name),
}

/// What going back finds.
#[derive(Clone, Copy)]
pub enum Backed {
    /// No choice point.
    End,
    /// One that only fails.
    Dead,
    /// One that goes on at this place.
    On(usize),
}

/// The heap and the frames of a run. Contracts see the heap's cells and the frames.
/// What is left in slots that no frame has leads to cells that are there too, since a new frame may have it.
#[derive(Drop)]
pub struct Store {
    // the frames, which most instructions read, stand first: fields are laid out in order, and near ones have short offsets
    pub(crate) frames: Frames,
    pub(crate) heap: Heap,
    // what slots held before several instructions, which have it again where one of them fails
    pub(crate) carried: Vec<Slot>,
    // the words of the arguments of what is built
    pub(crate) words: Vec<Word>,
}

impl Model for Store {
    ghost use Rattle.std.specs.Prelude.{length};
    ghost use Rattle.merc_frames.specs.Held.{AreHeld};
    ghost use Rattle.merc_store.specs.Data.{StoreData, IsSlotBelow};

    ghost Value = { StoreData };

    ghost view = { λ s. record { cells = s.heap; stacks = s.frames.stacks } };

    ghost invariant = { λ s. AreHeld IsSlotBelow (length s.heap) s.frames };
}

impl Store {
    /// A store without cells, with an empty frame. It takes no memory yet.
    pub fn new(alloc: Global) -> Store
        ensures { result ≡ record { cells = []; stacks = record { current = []; callers = []; choices = [] } } }
    {
        Store {
            heap: Heap::new(alloc),
            frames: Frames::new(alloc),
            carried: Vec::new(alloc),
            words: Vec::new(alloc),
        }
    }

    /// A law for proofs, which does nothing at run time: each word of the frames leads to a cell that is there.
    #[inline(always)]
    pub fn sound(&self)
        ensures { IsSound self.now.cells self.now.stacks }
    {
        self.frames.held();
    }
}
