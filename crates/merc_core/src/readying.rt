//! The next event of some worker.
ghost use Rattle.std.specs.Prelude.{◌≡◌, ◌<◌, ◌≤◌, [], length, MatchOption};
ghost use Rattle.std.specs.List.{AllByRecursion};
ghost use Rattle.merc_core.specs.WellFormed.{most_workers};
ghost use Rattle.merc_core.specs.Replaying.{IsFirstTurn, IsTurn, first_pop};

use crate::Event;
use crate::course::{Course, Next};
use crate::running::next_of;
use crate::worker::Worker;

// The next event of a worker, if it has a branch in its hand.
fn turn_of(course: &Course, worker: &Worker, number: u32) -> Option<Event>
    requires within { AllByRecursion (λ b. b.at < length course.now.items.items) worker.now.hand }
    ensures { MatchOption result (worker.now.hand ≡ []) (λ event. IsTurn course.now.items.items number worker.now event) }
{
    if worker.hand.is_empty() {
        return None;
    }
    match next_of(course, worker) {
        None => Some(Event::Resume(number)),
        Some(next) => match next {
            Next::Tick => Some(Event::Tick(number)),
            Next::Wait(_) => Some(Event::Wait(number)),
            Next::Signal(_) => Some(Event::Signal(number)),
            Next::Fork(_) => Some(Event::Fork(number)),
            Next::End(_) => Some(Event::End(number)),
        },
    }
}

// The next event of the first worker that has a branch in its hand.
pub(crate) fn first_turn(course: &Course, workers: &[Worker]) -> Option<Event>
    requires few { length workers.now ≤ most_workers }
    requires within { AllByRecursion (λ k. AllByRecursion (λ b. b.at < length course.now.items.items) k.hand) workers.now }
    ensures { IsFirstTurn course.now.items.items 0 workers.now result }
{
    let mut rest = workers;
    let mut number = 0;
    while let [first, others @ ..] = rest {
        if let Some(event) = turn_of(course, first, number) {
            return Some(event);
        }
        number += 1;
        rest = others;
    }
    None
}

// A pop of the first worker with a branch in its list.
pub(crate) fn first_pop(workers: &[Worker]) -> Option<Event>
    requires few { length workers.now ≤ most_workers }
    ensures { result ≡ first_pop 0 workers.now }
{
    let mut rest = workers;
    let mut number = 0;
    while let [first, others @ ..] = rest {
        if !first.list.is_empty() {
            return Some(Event::Pop(number));
        }
        number += 1;
        rest = others;
    }
    None
}
