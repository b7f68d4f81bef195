//! An event, whichever it is.
ghost use Rattle.std.specs.Prelude.{◌<◌, length};
ghost use Rattle.merc_core.specs.Stepping.{parts_of, IsKept, Keeps};

use crate::course::Course;
use crate::ending::{end, lose};
use crate::forking::fork;
use crate::resuming::resume;
use crate::signalling::signal;
use crate::simple_events::tick;
use crate::state::State;
use crate::taking::{pop, steal};
use crate::waiting::wait;
use crate::{Event, NotNow};

// The event happens, or the first of its conditions that fails is told.
pub(crate) fn happen(course: &Course, state: &mut State, event: Event) -> Result<(), NotNow>
    requires kept { IsKept course.now.items.items course.now.past.items (parts_of state.old) }
    ensures { Keeps course.now.items.items course.now.past.items event state.old result state.new }
{
    let workers = state.workers.len();
    let worker = event.worker() as usize;
    if worker >= workers {
        return Err(NotNow::NoWorker);
    }
    match event {
        Event::Tick(_) => tick(course, state, worker),
        Event::Fork(_) => fork(course, state, worker),
        Event::Pop(_) => pop(course, state, worker),
        Event::Steal(_, victim) => steal_from(course, state, worker, victim as usize),
        Event::Signal(_) => signal(course, state, worker),
        Event::Wait(_) => wait(course, state, worker),
        Event::End(_) => end(course, state, worker),
        Event::Resume(_) => resume(course, state, worker),
        Event::Lost(_) => lose(course, state, worker),
    }
}

// A worker steals from another, if there is one.
fn steal_from(
    course: &Course,
    state: &mut State,
    worker: usize,
    victim: usize,
) -> Result<(), NotNow>
    requires worker { worker < length state.old.workers.items }
    requires kept { IsKept course.now.items.items course.now.past.items (parts_of state.old) }
    ensures { Keeps course.now.items.items course.now.past.items (Event.Steal worker victim) state.old result state.new }
{
    if victim >= state.workers.len() {
        return Err(NotNow::NoWorker);
    }
    steal(course, state, worker, victim)
}
