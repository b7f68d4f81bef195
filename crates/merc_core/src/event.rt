//! Events, and why one is refused.
ghost use Rattle.std.specs.Prelude.{◌≡◌};
ghost use Rattle.merc_core.specs.Events.{worker_of};

/// A step of one of the workers. The first number is the worker, numbered from 0.
#[derive(Clone, Copy, PartialEq, Eq)]
pub enum Event {
    /// The branch that the worker runs goes past a Tick.
    Tick(u32),
    /// It parks at a new join. The first child runs on the worker, the others go to the back of its list.
    Fork(u32),
    /// The worker runs the branch at the back of its list.
    Pop(u32),
    /// The worker runs the branch at the front of another worker's list.
    Steal(u32, u32),
    /// A cell becomes full. A branch parked there goes to the back of the worker's list.
    Signal(u32),
    /// The branch goes past a Wait, ends as starved, or parks at the cell.
    Wait(u32),
    /// The branch's outcome is stored at its join, and the cells that it still had to signal are poisoned.
    End(u32),
    /// The parent that the worker holds goes past its Fork, or its script ends as its children's outcomes say.
    Resume(u32),
    /// The branch ends for want of memory, wherever it stands.
    Lost(u32),
}

impl Event {
    /// The worker whose step it is.
    pub fn worker(self) -> u32
        ensures { result ≡ worker_of self }
    {
        match self {
            Event::Tick(worker)
            | Event::Fork(worker)
            | Event::Pop(worker)
            | Event::Steal(worker, _)
            | Event::Signal(worker)
            | Event::Wait(worker)
            | Event::End(worker)
            | Event::Resume(worker)
            | Event::Lost(worker) => worker,
        }
    }
}

/// The first condition of an event that fails.
#[derive(Clone, Copy, PartialEq, Eq)]
pub enum NotNow {
    /// There is no such worker.
    NoWorker,
    /// The worker runs no branch, or holds a parent that is not resumed.
    Idle,
    /// The worker runs or holds a branch.
    Busy,
    /// The branch stands at another item.
    WrongItem,
    /// There is nothing in the list.
    ListEmpty,
    /// A worker steals from itself.
    SameWorker,
    /// The branch is not at its end.
    NotAtEnd,
    /// The worker holds no parent.
    NotHolding,
}
