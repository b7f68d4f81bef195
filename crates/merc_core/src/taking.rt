//! Events by which a worker takes up a branch.
ghost use Rattle.std.specs.Prelude.{◌<◌, length};
ghost use Rattle.merc_core.specs.Stepping.{parts_of, IsKept, Keeps};

use crate::course::Course;
use crate::lists::{move_first, move_last};
use crate::state::State;
use crate::{Event, NotNow};
use std::collections::LinkedList;

// A worker runs the branch at the back of its list.
pub(crate) fn pop(course: &Course, state: &mut State, worker: usize) -> Result<(), NotNow>
    requires worker { worker < length state.old.workers.items }
    requires kept { IsKept course.now.items.items course.now.past.items (parts_of state.old) }
    ensures { Keeps course.now.items.items course.now.past.items (Event.Pop worker) state.old result state.new }
{
    let idle = &state.workers[worker];
    if !idle.hand.is_empty() {
        return Err(NotNow::Busy);
    }
    if idle.list.is_empty() {
        return Err(NotNow::ListEmpty);
    }
    let runner = &mut state.workers[worker];
    runner.held = None;
    move_last(&mut runner.list, &mut runner.hand);
    Ok(())
}

// A worker runs the branch at the front of another worker's list.
pub(crate) fn steal(
    course: &Course,
    state: &mut State,
    worker: usize,
    victim: usize,
) -> Result<(), NotNow>
    requires worker { worker < length state.old.workers.items }
    requires victim { victim < length state.old.workers.items }
    requires kept { IsKept course.now.items.items course.now.past.items (parts_of state.old) }
    ensures { Keeps course.now.items.items course.now.past.items (Event.Steal worker victim) state.old result state.new }
{
    if !state.workers[worker].hand.is_empty() {
        return Err(NotNow::Busy);
    }
    if worker == victim {
        return Err(NotNow::SameWorker);
    }
    if state.workers[victim].list.is_empty() {
        return Err(NotNow::ListEmpty);
    }
    let mut taken = LinkedList::new(state.alloc);
    move_first(&mut state.workers[victim].list, &mut taken);
    let runner = &mut state.workers[worker];
    runner.held = None;
    runner.hand = taken;
    Ok(())
}
