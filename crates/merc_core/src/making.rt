//! The start of a run.
ghost use Rattle.std.specs.Prelude.{◌≡◌, ◌+◌, ◌≤◌, ◌<◌, ◌^◌, Some, length, slice_get, IfOk, OnOk};
ghost use Rattle.std.specs.Ordering.{nat_cmp};
ghost use Rattle.std.specs.BTreeMap.{get};
ghost use Rattle.merc_core.specs.Mirror.{joins_made, IsCourse, Mirrors};
ghost use Rattle.merc_core.specs.Starting.{first_workers, made_among, open_cell as empty_cell, past_item as past_from, root_branch as first_branch, worker_with, AreFirst, AreOpen, IsPast, IsSpare};
ghost use Rattle.merc_core.specs.Stepping.{parts_of};
ghost use Rattle.merc_core.specs.WellFormed.{most_workers, WellFormed};
ghost use Rattle.merc_core.specs.World.{start};
ghost use Rattle.merc_script.specs.Items.{items_of};
ghost use Rattle.merc_script.specs.declared.items.Item.{Item as MeantItem};
ghost use Rattle.merc_script.specs.Script.{Script as MeantScript};

use crate::branch::Branch;
use crate::cell::Cell;
use crate::course::Course;
use crate::join::Join;
use crate::state::{Spare, State};
use crate::worker::Worker;
use merc_base::NoMemory;
use merc_script::{CellId, Fork, Item, Script};
use std::alloc::Global;
use std::collections::{BTreeMap, LinkedList};

// Where the root's items are, and the state in which its first branch runs on worker 0.
#[derive(Drop)]
pub(crate) struct Started {
    pub(crate) course: Course,
    pub(crate) state: State,
}

// The start of a run by so many workers. All memory that the state will need is taken here.
pub(crate) fn begin(alloc: Global, root: Script, workers: u32) -> Result<Started, NoMemory>
    requires well { WellFormed root }
    requires some { 1 ≤ workers }
    requires few { workers ≤ most_workers }
    ensures course { IfOk result (λ started. IsCourse started.course.items.items started.course.past.items root) }
    ensures state { IfOk result (λ started. Mirrors started.course.items.items (parts_of started.state) (start root workers)) }
{
    let course = course_of(alloc, root.into_items())?;
    let state = first_state(alloc, &course.items, workers)?;
    Ok(Started { course, state })
}

// The items, and for each place the place past the script that starts there.
fn course_of(alloc: Global, items: Vec<Item>) -> Result<Course, NoMemory>
    ensures items { IfOk result (λ course. course.items.items ≡ items.items) }
    ensures past { IfOk result (λ course. IsPast items.items course.past.items) }
{
    let past = vec![in alloc; 0usize; items.len()]?;
    let mut course = Course { items, past };
    // from the back, since the scripts that belong to an item stand behind it
    for place in (0..course.items.len()).rev() {
        let past = past_item(&course, place);
        course.past[place] = past;
    }
    Ok(course)
}

// The place past the script that starts at a place, from what is known of the places behind it.
fn past_item(course: &Course, place: usize) -> usize
    requires { place < length course.now.items.items }
    ensures { (item : MeantItem) → slice_get course.now.items.items place ≡ Some item → result ≡ past_from course.now.past.items item (place + 1) }
{
    let behind = place + 1;
    match &course.items[place] {
        Item::End(_) => behind,
        Item::Tick | Item::Wait(_) | Item::Signal(_) => course.past_script(behind),
        Item::Fork(fork) => course.past_script(course.past_scripts(behind, fork.children)),
    }
}

// The state in which the root's branch runs on worker 0.
fn first_state(alloc: Global, items: &[Item], workers: u32) -> Result<State, NoMemory>
    requires some { 1 ≤ workers }
    requires small { length items.now < 2 ^ 63 }
    ensures { (root : MeantScript) → items.now ≡ items_of root → IfOk result (λ state. Mirrors items.now (parts_of state) (start root workers)) }
{
    Ok(State {
        alloc,
        workers: make_workers(alloc, workers)?,
        cells: open_cells(alloc, items)?,
        joins: make_joins(alloc, count_forks(items))?,
        spare: take_spare(alloc, items)?,
    })
}

// The root's branch. A spare node has it too, as good as any.
fn root_branch(alloc: Global) -> Branch
    ensures { result ≡ first_branch }
{
    Branch {
        join: 0,
        child: 1,
        at: 0,
        ended: None,
        steps: 0,
        signals: LinkedList::new(alloc),
    }
}

// So many workers, of which the first runs the root's branch.
fn make_workers(alloc: Global, count: u32) -> Result<Vec<Worker>, NoMemory>
    requires { 1 ≤ count }
    ensures { IfOk result (λ workers. workers.items ≡ first_workers count) }
{
    // (before the list, so that no list has to be dropped where memory is refused)
    let mut hand = LinkedList::new(alloc);
    hand.push_back(root_branch(alloc))?;
    let mut workers = Vec::new(alloc);
    workers.push(worker_of(alloc, hand))?;
    for _ in 1..count {
        workers.push(worker_of(alloc, LinkedList::new(alloc)))?;
    }
    Ok(workers)
}

// A worker with nothing in its list.
fn worker_of(alloc: Global, hand: LinkedList<Branch>) -> Worker
    ensures { result ≡ worker_with hand }
{
    Worker {
        hand,
        held: None,
        list: LinkedList::new(alloc),
    }
}

// A cell for each wait among items.
fn open_cells(alloc: Global, items: &[Item]) -> Result<BTreeMap<CellId, Cell>, NoMemory>
    ensures { IfOk result (λ cells. AreOpen items.now (λ cell. get nat_cmp cells cell)) }
{
    let mut cells = BTreeMap::new(alloc);
    for item in items {
        if let Item::Wait(cell) = item {
            cells.insert(*cell, open_cell(alloc))?;
        }
    }
    Ok(cells)
}

// A cell for which no branch waits yet.
fn open_cell(alloc: Global) -> Cell
    ensures { result ≡ empty_cell }
{
    Cell {
        is_full: false,
        is_poisoned: false,
        waiting: LinkedList::new(alloc),
    }
}

// The outermost join, with room for those of so many forks.
fn make_joins(alloc: Global, forks: usize) -> Result<Vec<Join>, NoMemory>
    requires { forks < 2 ^ 63 }
    ensures { IfOk result (λ joins. AreFirst forks joins) }
{
    let mut outcomes = LinkedList::new(alloc);
    outcomes.push_back(None)?;
    let mut joins = Vec::with_capacity(alloc, forks + 1)?;
    joins.push_reserved(Join {
        limit: 0,
        outcomes,
        parent: LinkedList::new(alloc),
    });
    Ok(joins)
}

// The number of forks among items.
fn count_forks(items: &[Item]) -> usize
    ensures made { result ≡ made_among joins_made items.now }
    ensures few { result ≤ length items.now }
{
    let mut forks = 0;
    for item in items {
        if let Item::Fork(_) = item {
            forks += 1;
        }
    }
    forks
}

// Spare nodes for all that the forks among items make.
fn take_spare(alloc: Global, items: &[Item]) -> Result<Spare, NoMemory>
    ensures { IfOk result (λ spare. IsSpare items.now spare) }
{
    let mut spare = Spare {
        branches: LinkedList::new(alloc),
        outcomes: LinkedList::new(alloc),
        rights: LinkedList::new(alloc),
    };
    for item in items {
        if let Item::Fork(fork) = item {
            add_spare(alloc, &mut spare, fork)?;
        }
    }
    Ok(spare)
}

// Spare nodes for what a fork makes.
fn add_spare(alloc: Global, spare: &mut Spare, fork: &Fork) -> Result<(), NoMemory>
    ensures branches { OnOk result (length spare.new.branches ≡ length spare.old.branches + fork.now.children) }
    ensures outcomes { OnOk result (length spare.new.outcomes ≡ length spare.old.outcomes + fork.now.children) }
    ensures rights { OnOk result (length spare.new.rights ≡ length spare.old.rights + (length fork.now.cells + length fork.now.moves)) }
    ensures few { OnOk result (length spare.new.rights < 2 ^ 63) }
{
    add_branches(alloc, &mut spare.branches, fork.children)?;
    add_copies(&mut spare.outcomes, None, fork.children)?;
    let any = CellId::new(0);
    add_copies(&mut spare.rights, any, fork.cells.as_slice().len())?;
    add_copies(&mut spare.rights, any, fork.moves.as_slice().len())
}

// Puts so many branches behind a list.
fn add_branches(alloc: Global, list: &mut LinkedList<Branch>, count: usize) -> Result<(), NoMemory>
    ensures { OnOk result (length list.new ≡ length list.old + count) }
{
    for _ in 0..count {
        list.push_back(root_branch(alloc))?;
    }
    Ok(())
}

// Puts so many copies behind a list.
fn add_copies<T: Copy + Drop>(
    list: &mut LinkedList<T>,
    one: T,
    count: usize,
) -> Result<(), NoMemory>
    ensures count { OnOk result (length list.new ≡ length list.old + count) }
    ensures few { OnOk result (length list.new < 2 ^ 63) }
{
    let Some(wanted) = list.len().checked_add(count) else {
        return Err(NoMemory);
    };
    while list.len() < wanted {
        list.push_back(one)?;
    }
    Ok(())
}
