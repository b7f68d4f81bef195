//! A parent that goes on behind its fork.
ghost use Rattle.std.specs.Prelude.{◌<◌, length};
ghost use Rattle.merc_core.specs.Stepping.{parts_of, IsKept, Keeps};

use crate::course::Course;
use crate::state::State;
use crate::{Event, NotNow};

// The parent that a worker holds goes on behind its fork.
pub(crate) fn resume(course: &Course, state: &mut State, worker: usize) -> Result<(), NotNow>
    requires worker { worker < length state.old.workers.items }
    requires kept { IsKept course.now.items.items course.now.past.items (parts_of state.old) }
    ensures { Keeps course.now.items.items course.now.past.items (Event.Resume worker) state.old result state.new }
{
    if state.workers[worker].hand.is_empty() {
        return Err(NotNow::NotHolding);
    }
    match state.workers[worker].held {
        None => Err(NotNow::NotHolding),
        Some(number) => {
            if number >= state.joins.len() {
                return Err(NotNow::NotHolding);
            }
            match state.joins[number].joined() {
                None => Err(NotNow::NotHolding),
                Some(outcome) => {
                    state.workers[worker].go_behind(outcome);
                    Ok(())
                }
            }
        }
    }
}
