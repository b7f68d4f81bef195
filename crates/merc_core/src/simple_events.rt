//! Events after which the branch goes on by itself.
ghost use Rattle.std.specs.Prelude.{◌<◌, length};
ghost use Rattle.merc_core.specs.Stepping.{parts_of, IsKept, Keeps};

use crate::branch::pass_tick;
use crate::course::{Course, Next};
use crate::running::next_of;
use crate::state::State;
use crate::{Event, NotNow};

// The branch that a worker runs goes past a tick.
pub(crate) fn tick(course: &Course, state: &mut State, worker: usize) -> Result<(), NotNow>
    requires worker { worker < length state.old.workers.items }
    requires kept { IsKept course.now.items.items course.now.past.items (parts_of state.old) }
    ensures { Keeps course.now.items.items course.now.past.items (Event.Tick worker) state.old result state.new }
{
    match next_of(course, &state.workers[worker]) {
        None => Err(NotNow::Idle),
        Some(next) => match next {
            Next::Tick => {
                pass_tick(&mut state.workers[worker].hand);
                Ok(())
            }
            _ => Err(NotNow::WrongItem),
        },
    }
}
