//! The end of a branch.
ghost use Rattle.std.specs.Prelude.{◌≡◌, ◌<◌, ◌∷◌, ℕ, Some, length, slice_get};
ghost use Rattle.std.specs.Ordering.{nat_cmp};
ghost use Rattle.std.specs.BTreeMap.{get};
ghost use Rattle.merc_core.specs.Queues.{cells_after, first_stored, list_after, stored_from};
ghost use Rattle.merc_core.specs.Roomy.{IsRoomy};
ghost use Rattle.merc_script.specs.Joining.{HasFewSteps};
ghost use Rattle.merc_core.specs.Stepping.{parts_of, Finishes, IsKept, Keeps, RunsNext};

use crate::branch::Branch;
use crate::cell::{Cell, spoil};
use crate::course::{Course, Next};
use crate::lists::move_all;
use crate::running::next_of;
use crate::state::State;
use crate::{Event, NotNow};
use merc_script::{CellId, Outcome};
use std::collections::{BTreeMap, LinkedList};

// Cells are spoiled one after the other. Those that wait for them end as starved, and go behind a list.
pub(crate) fn poison(
    cells: &mut BTreeMap<CellId, Cell>,
    mut signals: LinkedList<CellId>,
    list: &mut LinkedList<Branch>,
)
    requires { IsRoomy (λ cell. get nat_cmp cells.old cell) list.old }
    ensures cells { (cell : ℕ) → get nat_cmp cells.new cell ≡ cells_after signals (λ other. get nat_cmp cells.old other) cell }
    ensures list { list.new ≡ list_after signals (λ other. get nat_cmp cells.old other) list.old }
{
    while let Some(cell) = signals.pop_front() {
        spoil(cells, cell, list);
    }
}

// Stores the outcome of a child, unless one is stored.
pub(crate) fn store(outcomes: &mut LinkedList<Option<Outcome>>, child: usize, outcome: Outcome)
    ensures { outcomes.new ≡ stored_from 1 child outcome outcomes.old }
{
    if child == 0 || child > outcomes.len() {
        return;
    }
    if let Ok(mut back) = outcomes.split_off(child - 1) {
        store_first(&mut back, outcome);
        move_all(&mut back, outcomes);
    }
}

// Stores the outcome of the first, unless one is stored.
fn store_first(outcomes: &mut LinkedList<Option<Outcome>>, outcome: Outcome)
    ensures { (first : _) (rest : _) → outcomes.old ≡ first ∷ rest → outcomes.new ≡ first_stored first outcome ∷ rest }
{
    if let Some(stored) = outcomes.front_mut() {
        if stored.is_none() {
            *stored = Some(outcome);
        }
    }
}

// The branch that a worker runs ends with an outcome. It is stored, the cells that the branch had to signal are spoiled,
// and the worker holds the parent if all children have ended.
fn finish(course: &Course, state: &mut State, worker: usize, outcome: Outcome)
    requires worker { worker < length state.old.workers.items }
    requires kept { IsKept course.now.items.items course.now.past.items (parts_of state.old) }
    requires few { HasFewSteps outcome }
    requires runs { (k : _) × (next : _) × (slice_get state.old.workers.items worker ≡ Some k) × RunsNext course.now.items.items k next }
    ensures { Finishes course.now.items.items worker outcome (parts_of state.old) (parts_of state.new) }
{
    let runner = &mut state.workers[worker];
    if let Some(branch) = runner.hand.pop_front() {
        let Branch {
            join,
            child,
            signals,
            ..
        } = branch;
        poison(&mut state.cells, signals, &mut runner.list);
        if join < state.joins.len() {
            let ended = &mut state.joins[join];
            store(&mut ended.outcomes, child, outcome);
            if let Some(_) = ended.joined() {
                move_all(&mut ended.parent, &mut runner.hand);
                runner.held = Some(join);
            }
        }
    }
}

// The branch that a worker runs ends as its script says.
pub(crate) fn end(course: &Course, state: &mut State, worker: usize) -> Result<(), NotNow>
    requires worker { worker < length state.old.workers.items }
    requires kept { IsKept course.now.items.items course.now.past.items (parts_of state.old) }
    ensures { Keeps course.now.items.items course.now.past.items (Event.End worker) state.old result state.new }
{
    match next_of(course, &state.workers[worker]) {
        None => Err(NotNow::Idle),
        Some(next) => match next {
            Next::End(outcome) => {
                finish(course, state, worker, outcome);
                Ok(())
            }
            _ => Err(NotNow::NotAtEnd),
        },
    }
}

// The branch that a worker runs ends for want of memory, wherever it stands.
pub(crate) fn lose(course: &Course, state: &mut State, worker: usize) -> Result<(), NotNow>
    requires worker { worker < length state.old.workers.items }
    requires kept { IsKept course.now.items.items course.now.past.items (parts_of state.old) }
    ensures { Keeps course.now.items.items course.now.past.items (Event.Lost worker) state.old result state.new }
{
    match next_of(course, &state.workers[worker]) {
        None => Err(NotNow::Idle),
        Some(_) => {
            finish(course, state, worker, Outcome::NoMemory);
            Ok(())
        }
    }
}
