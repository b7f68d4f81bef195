//! What a worker's branch comes to next.
ghost use Rattle.std.specs.Prelude.{◌<◌, length, MatchOption};
ghost use Rattle.std.specs.List.{AllByRecursion};
ghost use Rattle.merc_core.specs.Stepping.{IsIdle, RunsNext};

use crate::course::{Course, Next};
use crate::worker::Worker;

// What the branch comes to next that a worker runs; `None` where it runs none.
pub(crate) fn next_of<'a>(course: &'a Course, worker: &Worker) -> Option<Next<'a>>
    requires { AllByRecursion (λ b. b.at < length course.now.items.items) worker.now.hand }
    ensures { MatchOption result (IsIdle worker.now) (λ next. RunsNext course.now.items.items worker.now next) }
{
    match worker.held {
        Some(_) => None,
        None => match worker.hand.front() {
            Some(branch) => Some(course.next(branch)),
            None => None,
        },
    }
}
