//! A wait for a cell.
ghost use Rattle.std.specs.Prelude.{◌<◌, length};
ghost use Rattle.merc_core.specs.Stepping.{parts_of, IsKept, Keeps};

use crate::branch::{end_first, pass_item};
use crate::cell::{Meeting, find_cell, park};
use crate::course::{Course, Next};
use crate::running::next_of;
use crate::state::State;
use crate::{Event, NotNow};
use merc_script::Outcome;

// The branch that a worker runs goes past a wait, ends as starved, or parks at the cell.
pub(crate) fn wait(course: &Course, state: &mut State, worker: usize) -> Result<(), NotNow>
    requires worker { worker < length state.old.workers.items }
    requires kept { IsKept course.now.items.items course.now.past.items (parts_of state.old) }
    ensures { Keeps course.now.items.items course.now.past.items (Event.Wait worker) state.old result state.new }
{
    match next_of(course, &state.workers[worker]) {
        None => Err(NotNow::Idle),
        Some(next) => match next {
            Next::Wait(cell) => match find_cell(&state.cells, cell) {
                Meeting::Full => {
                    pass_item(&mut state.workers[worker].hand);
                    Ok(())
                }
                Meeting::Poisoned => {
                    end_first(&mut state.workers[worker].hand, Outcome::Starved);
                    Ok(())
                }
                Meeting::Open => {
                    let runner = &mut state.workers[worker];
                    pass_item(&mut runner.hand);
                    park(&mut state.cells, cell, &mut runner.hand);
                    Ok(())
                }
            },
            _ => Err(NotNow::WrongItem),
        },
    }
}
