//! A signal to a cell.
ghost use Rattle.std.specs.Prelude.{◌<◌, length};
ghost use Rattle.merc_core.specs.Stepping.{parts_of, IsKept, Keeps};

use crate::branch::pass_item;
use crate::cell::fill;
use crate::course::{Course, Next};
use crate::running::next_of;
use crate::state::State;
use crate::{Event, NotNow};

// The branch that a worker runs fills a cell. One that is parked there goes to the back of the worker's list.
pub(crate) fn signal(course: &Course, state: &mut State, worker: usize) -> Result<(), NotNow>
    requires worker { worker < length state.old.workers.items }
    requires kept { IsKept course.now.items.items course.now.past.items (parts_of state.old) }
    ensures { Keeps course.now.items.items course.now.past.items (Event.Signal worker) state.old result state.new }
{
    match next_of(course, &state.workers[worker]) {
        None => Err(NotNow::Idle),
        Some(next) => match next {
            Next::Signal(cell) => {
                let runner = &mut state.workers[worker];
                pass_item(&mut runner.hand);
                fill(&mut state.cells, cell, &mut runner.list);
                Ok(())
            }
            _ => Err(NotNow::WrongItem),
        },
    }
}
