//! The two ends of a deque of sparks.
ghost use Rattle.std.specs.Prelude.{◌≡◌, ◌+◌, ◌<◌, ◌≤◌, ◌⊎◌, [], ◌∷◌, MatchOption, MatchResult};
ghost use Rattle.crossbeam_deque.specs.Handles.{IsPassOf, SameWorker, worker_flavor, worker_view, worker_capacity, worker_index, stealer_deque, stealer_flavor};
ghost use Rattle.merc_deque.specs.declared.moves.Kind.TheVariants.{Pushed, Popped};
ghost use Rattle.merc_deque.specs.History.{Made, Emptied};
ghost use Rattle.merc_deque.specs.Passes.{IsNew};
ghost use Rattle.merc_deque.specs.Steals.{IsStolen};

use crate::history::{OneHistory, Pass, Pops, Pushes, Steals, Stolen};
use crate::moves::Known;
use crossbeam_deque::{Steal, Stealer, Worker};
use std::alloc::Global;

/// The worker's end.
#[derive(Drop)]
pub struct Sparks<T> {
    pub(crate) worker: Worker<T, Global, Known<T>, OneHistory>,
    ghost pops_at_back: { worker_flavor worker ≡ 1 },
}

/// The end for all thieves.
#[derive(Drop)]
pub struct Thief<T> {
    pub(crate) stealer: Stealer<T, Global, Known<T>, OneHistory>,
    ghost pops_at_back: { stealer_flavor stealer ≡ 1 },
}

impl<T> Sparks<T> {
    /// Puts a spark at the back. A refused spark comes back, and the deque is as it was; as long as fewer sparks were
    /// pushed than the deque has places, none is refused.
    pub fn push(&mut self, spark: T) -> Result<(), T>
        ensures same { SameWorker self.old.worker self.new.worker }
        ensures pushed { MatchResult result (λ _. Made Pushed (worker_view self.old.worker) spark (worker_view self.new.worker) × (worker_index self.new.worker ≡ worker_index self.old.worker + 1)) (λ back. (back ≡ spark) × (worker_view self.new.worker ≡ worker_view self.old.worker) × (worker_index self.new.worker ≡ worker_index self.old.worker) × (worker_capacity self.old.worker ≤ worker_index self.old.worker)) }
    {
        self.worker.push_as::<Pushes>(spark)
    }

    /// Takes the spark at the back. `None` where the deque was empty at this step; the clause says that it can have been,
    /// since others may have taken all that was pushed.
    pub fn pop(&mut self) -> Option<T>
        ensures same { SameWorker self.old.worker self.new.worker × (worker_index self.new.worker ≤ worker_index self.old.worker) }
        ensures popped { MatchOption result ((worker_view self.new.worker ≡ worker_view self.old.worker) × Emptied (worker_view self.old.worker)) (λ spark. Made Popped (worker_view self.old.worker) spark (worker_view self.new.worker)) }
    {
        self.worker.pop_as::<Pops>()
    }
}

impl<T> Thief<T> {
    /// A pass for one more thief, which has seen nothing yet.
    pub fn pass(&self) -> Pass<T>
        ensures { IsNew self.now.stealer result }
    {
        self.stealer.pass()
    }

    /// Takes the spark at the front.
    pub fn steal(&self, pass: &mut Pass<T>) -> Stolen<T>
        requires { IsPassOf (stealer_deque self.now.stealer) pass.old }
        ensures same { IsPassOf (stealer_deque self.now.stealer) pass.new }
        ensures stolen { IsStolen pass.old pass.new result }
    {
        match self.stealer.steal_as::<Steals>(pass) {
            Steal::Success(spark) => Stolen::Got(spark),
            Steal::Empty => Stolen::Few,
            Steal::Retry => Stolen::Again,
        }
    }
}
