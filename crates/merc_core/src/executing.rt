//! The core as a whole.
ghost use Rattle.std.specs.Prelude.{◌≡◌, ◌*◌, ◌≤◌, ◌<◌, ◌⊎◌, [], length, IfOk, IfSome, OnOk, OnErr, is_some};
ghost use Rattle.std.specs.Option.{is_none};
ghost use Rattle.std.specs.List.{AllByRecursion};
ghost use Rattle.merc_script.specs.Script.{end_of, size};
ghost use Rattle.merc_core.specs.WellFormed.{WellFormed, most_workers};
ghost use Rattle.merc_core.specs.Laws.{IsCutEnd, IsKept};
ghost use Rattle.merc_core.specs.Execution.{IsAccepted, outcome_of, state_of, told, with_event};

use crate::course::Course;
use crate::happening::happen;
use crate::join::outermost_outcome;
use crate::making::{Started, begin};
use crate::readying::{first_pop, first_turn};
use crate::state::State;
use crate::{Event, NotNow};
use merc_base::NoMemory;
use merc_script::{Outcome, Script};
use std::alloc::Global;
use std::marker::Model;

/// A root script that is executed by some workers, one event at a time. It is seen as the script, the number of workers
/// and the events so far, in order. All its memory is taken at the start.
#[derive(Drop)]
pub struct Core {
    course: Course,
    state: State,
    events: Vec<Event>,
}

impl Model for Core {
    ghost use Rattle.std.specs.Prelude.{length, vec_capacity};
    ghost use Rattle.merc_core.specs.Execution.{Execution, execution_code};

    ghost Value = { Execution };

    ghost coded = { execution_code };

    ghost use Rattle.merc_script.specs.Items.{script_of};
    ghost use Rattle.merc_core.specs.Stepping.{parts_of};
    ghost use Rattle.merc_core.specs.Replaying.{Replays};

    ghost view = { λ c. record { root = script_of c.course.items.items; workers = length c.state.workers.items; events = c.events.items } };

    ghost invariant = { λ c. Replays c.course.items.items c.course.past.items (parts_of c.state) c.events.items (vec_capacity c.events) };
}

impl Core {
    /// A core at its start: the root's script runs on worker 0. The script has to be well formed, and there are 1 to 64
    /// workers. All memory that the steps will need is taken here.
    ///
    /// # Errors
    ///
    /// `NoMemory` where memory was refused.
    pub fn new(alloc: Global, root: Script, workers: u32) -> Result<Core, NoMemory>
        requires well { WellFormed root }
        requires some { 1 ≤ workers }
        requires few { workers ≤ most_workers }
        ensures start { IfOk result (λ core. core ≡ record { root = root; workers = workers; events = [] }) }
    {
        let Started { course, state } = begin(alloc, root, workers)?;
        let events = Vec::with_capacity(alloc, 2 * course.items.len())?;
        Ok(Core {
            course,
            state,
            events,
        })
    }

    /// The event happens, or the first of its conditions that fails is told and nothing changes. It takes no memory. Its
    /// time is constant, but for these: a cell is found in time logarithmic in their number; a Fork looks at its cells and
    /// moves once for each child; and an End, or a Lost, goes over the rights to signal that the branch was ever given. A
    /// cell or a move of a Fork gives one right at most, so all steps of a run take time of order n log n for a script of
    /// size n with its cells and moves.
    pub fn step(&mut self, event: Event) -> Result<(), NotNow>
        ensures answer { result ≡ told (state_of (with_event event self.old)) }
        ensures ok { OnOk result (self.new ≡ with_event event self.old) }
        ensures err { OnErr result (self.new ≡ self.old) }
        ensures few { length self.new.events < 2 * size self.new.root }
    {
        happen(&self.course, &mut self.state, event)?;
        self.events.push_reserved(event);
        Ok(())
    }

    /// An event that the next step accepts, and never `Lost`; `None` exactly where the outcome is there. It looks at
    /// each worker twice at most, and takes no memory.
    pub fn ready_event(&self) -> Option<Event>
        ensures none { is_none result ≡ is_some (outcome_of (state_of self.now)) }
        ensures accepted { IfSome result (λ event. IsAccepted (with_event event self.now)) }
        ensures kept { IfSome result IsKept }
    {
        if self.outcome().is_some() {
            return None;
        }
        match first_turn(&self.course, &self.state.workers) {
            Some(event) => Some(event),
            None => first_pop(&self.state.workers),
        }
    }

    /// The outcome of the whole; `None` as long as the root's script has not ended. It is the script's own end, whichever
    /// events were accepted, unless one of them was `Lost`. It takes no memory, and constant time.
    pub fn outcome(&self) -> Option<Outcome>
        ensures outcome { result ≡ outcome_of (state_of self.now) }
        ensures whole { IfSome result (λ o. AllByRecursion IsKept self.now.events → o ≡ end_of self.now.root) }
        ensures nearly { IfSome result (λ o. (o ≡ end_of self.now.root) ⊎ IsCutEnd o) }
    {
        outermost_outcome(&self.state.joins)
    }

    /// The events so far, in order.
    pub fn events(&self) -> &[Event]
        ensures events { result.now ≡ self.now.events }
        ensures accepted { IsAccepted self.now }
        ensures well { WellFormed self.now.root }
    {
        &self.events
    }
}
