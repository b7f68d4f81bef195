//! Cells, each with the branches that wait for it.
ghost use Rattle.std.specs.Prelude.{◌≡◌, ◌+◌, ◌<◌, ◌^◌, ◌++◌, ℕ, [], map, length, if◌then◌else◌, nat_eq, None, IsSome};
ghost use Rattle.std.specs.Ordering.{nat_cmp};
ghost use Rattle.std.specs.BTreeMap.{get};
ghost use Rattle.merc_core.specs.Queues.{filled, meeting_of, parked_at, spoiled, starved as starved_branch, waiting_of};

use crate::branch::{Branch, end_first};
use crate::lists::{move_all, move_first};
use merc_script::{CellId, Outcome};
use std::collections::{BTreeMap, LinkedList};

/// A cell for which some branch waits in its script.
#[derive(Drop)]
pub struct Cell {
    /// whether it was signalled
    pub is_full: bool,
    /// whether a branch that had to signal it has ended; it counts only where the cell is not full
    pub is_poisoned: bool,
    /// the branches that are parked there, the newest last
    pub waiting: LinkedList<Branch>,
}

/// Fills a cell, if it is there. Those that wait for it go behind a list.
pub fn fill(cells: &mut BTreeMap<CellId, Cell>, cell: CellId, list: &mut LinkedList<Branch>)
    requires { length list.old + length (waiting_of (get nat_cmp cells.old cell)) < 2 ^ 63 }
    ensures cells { (other : ℕ) → get nat_cmp cells.new other ≡ (if nat_eq cell other then filled (get nat_cmp cells.old cell) else get nat_cmp cells.old other) }
    ensures list { list.new ≡ list.old ++ waiting_of (get nat_cmp cells.old cell) }
{
    if let Some(found) = cells.get_mut(&cell) {
        found.is_full = true;
        move_all(&mut found.waiting, list);
    }
}

/// Parks branches at a cell, if it is there.
pub fn park(cells: &mut BTreeMap<CellId, Cell>, cell: CellId, branches: &mut LinkedList<Branch>)
    requires { length (waiting_of (get nat_cmp cells.old cell)) + length branches.old < 2 ^ 63 }
    ensures cells { (other : ℕ) → get nat_cmp cells.new other ≡ (if nat_eq cell other then parked_at branches.old (get nat_cmp cells.old cell) else get nat_cmp cells.old other) }
    ensures branches { IsSome (get nat_cmp cells.old cell) → branches.new ≡ [] }
    ensures left { get nat_cmp cells.old cell ≡ None → branches.new ≡ branches.old }
{
    if let Some(found) = cells.get_mut(&cell) {
        move_all(branches, &mut found.waiting);
    }
}

/// Spoils a cell, if it is there. Those that wait for it end as starved, and go behind a list.
pub fn spoil(cells: &mut BTreeMap<CellId, Cell>, cell: CellId, list: &mut LinkedList<Branch>)
    requires { length list.old + length (waiting_of (get nat_cmp cells.old cell)) < 2 ^ 63 }
    ensures cells { (other : ℕ) → get nat_cmp cells.new other ≡ (if nat_eq cell other then spoiled (get nat_cmp cells.old cell) else get nat_cmp cells.old other) }
    ensures list { list.new ≡ list.old ++ map starved_branch (waiting_of (get nat_cmp cells.old cell)) }
{
    if let Some(found) = cells.get_mut(&cell) {
        found.is_poisoned = true;
        starve_all(&mut found.waiting, list);
    }
}

// Branches end as starved, and go behind a list.
fn starve_all(branches: &mut LinkedList<Branch>, list: &mut LinkedList<Branch>)
    requires { length list.old + length branches.old < 2 ^ 63 }
    ensures branches { branches.new ≡ [] }
    ensures list { list.new ≡ list.old ++ map starved_branch branches.old }
{
    while !branches.is_empty() {
        end_first(branches, Outcome::Starved);
        move_first(branches, list);
    }
}

/// What a branch that comes to a cell finds there.
#[derive(Clone, Copy)]
pub enum Meeting {
    /// It is full, so the branch goes on.
    Full,
    /// It is poisoned and not full, so the branch ends as starved.
    Poisoned,
    /// It is neither, so the branch waits.
    Open,
}

/// What a branch that comes to a cell finds there: `Open` where there is no such cell.
pub fn find_cell(cells: &BTreeMap<CellId, Cell>, cell: CellId) -> Meeting
    ensures { result ≡ meeting_of (get nat_cmp cells.now cell) }
{
    match cells.get(&cell) {
        None => Meeting::Open,
        Some(found) => {
            if found.is_full {
                Meeting::Full
            } else if found.is_poisoned {
                Meeting::Poisoned
            } else {
                Meeting::Open
            }
        }
    }
}
