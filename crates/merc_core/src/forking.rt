//! A fork.
ghost use Rattle.std.specs.Prelude.{◌≡◌, ◌+◌, ◌≤◌, ◌<◌, ◌^◌, ◌∷◌, ◌++◌, [], Some, true, length, slice_get};
ghost use Rattle.merc_core.specs.declared.branch.Branch.{Branch as CoreBranch};
ghost use Rattle.merc_core.specs.Forking.{born_from, not_stored, rights_wanted};
ghost use Rattle.merc_core.specs.Stepping.{parts_of, ForksTo, IsForkNext, IsKept, Keeps, RunsNext};
ghost use Rattle.merc_core.specs.Rights.{made_by, moved_to, signals_at};

use crate::branch::Branch;
use crate::course::{Course, Next};
use crate::join::Join;
use crate::lists::{move_all, put_first, put_last};
use crate::running::next_of;
use crate::state::{Spare, State};
use crate::{Event, NotNow};
use merc_script::{CellId, Fork, Move, Outcome, ScriptCell};
use std::alloc::Global;
use std::collections::LinkedList;

// Puts the cells that a child produces behind others, in nodes that are spare.
fn put_made(
    alloc: Global,
    spare: &mut LinkedList<CellId>,
    rights: &mut LinkedList<CellId>,
    cells: &[ScriptCell],
    child: usize,
)
    requires some { length (made_by child cells.now) ≤ length spare.old }
    requires room { length rights.old + length spare.old < 2 ^ 63 }
    ensures rights { rights.new ≡ rights.old ++ made_by child cells.now }
    ensures spare { length rights.new + length spare.new ≡ length rights.old + length spare.old }
{
    let mut rest = cells;
    while let [first, others @ ..] = rest {
        if first.producer() as usize == child {
            put_last(alloc, spare, rights, first.cell());
        }
        rest = others;
    }
}

// Puts the cells whose rights to signal move into a child behind others, in nodes that are spare.
fn put_moved(
    alloc: Global,
    spare: &mut LinkedList<CellId>,
    rights: &mut LinkedList<CellId>,
    moves: &[Move],
    child: usize,
)
    requires some { length (moved_to child true moves.now) ≤ length spare.old }
    requires room { length rights.old + length spare.old < 2 ^ 63 }
    ensures rights { rights.new ≡ rights.old ++ moved_to child true moves.now }
    ensures spare { length rights.new + length spare.new ≡ length rights.old + length spare.old }
{
    let mut rest = moves;
    while let [first, others @ ..] = rest {
        if first.child as usize == child && first.signal {
            put_last(alloc, spare, rights, first.cell);
        }
        rest = others;
    }
}

// The cells that a child has to signal at first.
fn rights_of(
    alloc: Global,
    spare: &mut LinkedList<CellId>,
    fork: &Fork,
    child: usize,
) -> LinkedList<CellId>
    requires some { length (signals_at child fork.now.cells fork.now.moves) ≤ length spare.old }
    requires room { length spare.old < 2 ^ 63 }
    ensures rights { result ≡ signals_at child fork.now.cells fork.now.moves }
    ensures spare { length (signals_at child fork.now.cells fork.now.moves) + length spare.new ≡ length spare.old }
{
    let mut rights = LinkedList::new(alloc);
    put_made(alloc, spare, &mut rights, fork.cells.as_slice(), child);
    put_moved(alloc, spare, &mut rights, fork.moves.as_slice(), child);
    rights
}

// The children of a fork, the first at the back. Their scripts stand one after the other from a place on.
fn bear(
    alloc: Global,
    spare: &mut Spare,
    course: &Course,
    fork: &Fork,
    join: usize,
    place: usize,
) -> LinkedList<Branch>
    requires branches { fork.now.children ≤ length spare.old.branches }
    requires rights { rights_wanted fork.now.cells fork.now.moves 1 fork.now.children ≤ length spare.old.rights }
    requires few_branches { length spare.old.branches < 2 ^ 63 }
    requires few_rights { length spare.old.rights < 2 ^ 63 }
    ensures born { result ≡ born_from course.now.past.items join fork.now.cells fork.now.moves 1 place fork.now.children [] }
    ensures branches { length spare.new.branches + fork.now.children ≡ length spare.old.branches }
    ensures rights { rights_wanted fork.now.cells fork.now.moves 1 fork.now.children + length spare.new.rights ≡ length spare.old.rights }
    ensures outcomes { spare.new.outcomes ≡ spare.old.outcomes }
{
    let mut born = LinkedList::new(alloc);
    let mut child = 1;
    let mut at = place;
    let mut left = fork.children;
    while left > 0 {
        let branch = Branch {
            join,
            child,
            at,
            ended: None,
            steps: 0,
            signals: rights_of(alloc, &mut spare.rights, fork, child),
        };
        put_first(alloc, &mut spare.branches, &mut born, branch);
        at = course.past_script(at);
        child += 1;
        left -= 1;
    }
    born
}

// Outcomes of so many children, of which none is stored, in nodes that are spare.
fn take_outcomes(
    alloc: Global,
    spare: &mut LinkedList<Option<Outcome>>,
    children: usize,
) -> LinkedList<Option<Outcome>>
    requires some { children ≤ length spare.old }
    requires room { children < 2 ^ 63 }
    ensures outcomes { result ≡ not_stored children [] }
    ensures spare { length spare.new + children ≡ length spare.old }
{
    let mut outcomes = LinkedList::new(alloc);
    let mut left = children;
    while left > 0 {
        put_first(alloc, spare, &mut outcomes, None);
        left -= 1;
    }
    outcomes
}

// The first branch goes behind a fork, to a place.
fn go_behind_fork(list: &mut LinkedList<Branch>, place: usize)
    ensures { (b : CoreBranch) (bs : _) → list.old ≡ b ∷ bs → list.new ≡ (record b { at = place }) ∷ bs }
{
    if let Some(branch) = list.front_mut() {
        branch.at = place;
    }
}

// The place behind the item of the first branch.
fn place_behind(hand: &LinkedList<Branch>) -> usize
    requires { (b : CoreBranch) × (hand.now ≡ b ∷ []) × (b.at < 2 ^ 63) }
    ensures { (b : CoreBranch) → hand.now ≡ b ∷ [] → result ≡ b.at + 1 }
{
    match hand.front() {
        Some(branch) => branch.at + 1,
        None => 0,
    }
}

// The branch that a worker runs parks at a new join. The first child runs on the worker, the others go to the back of its
// list, the last of them first.
fn start_children(course: &Course, state: &mut State, worker: usize, fork: &Fork)
    requires worker { worker < length state.old.workers.items }
    requires kept { IsKept course.now.items.items course.now.past.items (parts_of state.old) }
    requires runs { (k : _) × (next : _) × (slice_get state.old.workers.items worker ≡ Some k) × RunsNext course.now.items.items k next × IsForkNext next fork.now }
    ensures { ForksTo course.now.items.items course.now.past.items worker fork.now (parts_of state.old) (parts_of state.new) }
{
    let number = state.joins.len();
    let runner = &mut state.workers[worker];
    let place = place_behind(&runner.hand);
    let born = bear(state.alloc, &mut state.spare, course, fork, number, place);
    let mut parent = LinkedList::new(state.alloc);
    move_all(&mut runner.hand, &mut parent);
    go_behind_fork(&mut parent, course.past_scripts(place, fork.children));
    runner.take_children(born);
    let outcomes = take_outcomes(state.alloc, &mut state.spare.outcomes, fork.children);
    state.joins.push_reserved(Join {
        limit: fork.limit,
        outcomes,
        parent,
    });
}

// The branch that a worker runs parks at a new join, and its children start.
pub(crate) fn fork(course: &Course, state: &mut State, worker: usize) -> Result<(), NotNow>
    requires worker { worker < length state.old.workers.items }
    requires kept { IsKept course.now.items.items course.now.past.items (parts_of state.old) }
    ensures { Keeps course.now.items.items course.now.past.items (Event.Fork worker) state.old result state.new }
{
    match next_of(course, &state.workers[worker]) {
        None => Err(NotNow::Idle),
        Some(next) => match next {
            Next::Fork(fork) => {
                start_children(course, state, worker, fork);
                Ok(())
            }
            _ => Err(NotNow::WrongItem),
        },
    }
}
