//! Whether the equations have a solution: they have none where a type would be a part of itself.
ghost use Rattle.std.specs.Prelude.{◌≡◌, ◌<◌, ◌∷◌, [], length, reverse, IfOk};
ghost use Rattle.merc_type_graph.specs.Cells.{entries_of, IsSound};
ghost use Rattle.merc_type_graph.specs.Changes.{Decides};
ghost use Rattle.merc_type_graph.specs.Fresh.{AreNew};
ghost use Rattle.merc_type_graph.specs.Visiting.{mark_at, Advances, IsIdle, IsSettled, IsVisiting, Visits};
ghost use Rattle.merc_type_graph.specs.declared.visiting.Mark.TheVariants.{New};

use crate::cell::{Cell, need_at};
use crate::store::Store;
use merc_base::NoMemory;
use std::alloc::Global;

/// How far the visit of a place is.
#[derive(Clone, Copy, PartialEq, Eq)]
pub(crate) enum Mark {
    New,
    /// Places that it needs are being visited.
    Open,
    /// All that it needs is done.
    Done,
}

/// Whether there are types that solve the equations. Each place is visited once, after those that it needs.
pub(crate) fn decide(alloc: Global, store: &Store<'_>, cells: &[Cell]) -> Result<bool, NoMemory>
    requires { IsSound store.now cells.now }
    ensures { IfOk result (λ solvable. Decides solvable (entries_of store.now cells.now)) }
{
    let mut marks = vec![in alloc; Mark::New; cells.len()]?;
    visit_all(alloc, store, cells, &mut marks)
}

// Visits all places. False where a place needs itself.
fn visit_all(
    alloc: Global,
    store: &Store<'_>,
    cells: &[Cell],
    marks: &mut [Mark],
) -> Result<bool, NoMemory>
    requires sound { IsSound store.now cells.now }
    requires count { length marks.old ≡ length cells.now }
    requires fresh { AreNew marks.old }
    ensures { IfOk result (λ solvable. Decides solvable (entries_of store.now cells.now)) }
{
    for start in 0..cells.len() {
        if !visit_once(alloc, store, cells, start, marks)? {
            return Ok(false);
        }
    }
    Ok(true)
}

// Visits a place and all that it needs, unless that is done. False where a place needs itself.
fn visit_once(
    alloc: Global,
    store: &Store<'_>,
    cells: &[Cell],
    start: usize,
    marks: &mut [Mark],
) -> Result<bool, NoMemory>
    requires sound { IsSound store.now cells.now }
    requires settled { IsSettled store.now cells.now marks.old }
    requires idle { IsIdle marks.old }
    requires there { start < length cells.now }
    ensures { IfOk result (λ fine. Visits fine store.now cells.now marks.old marks.new start) }
{
    match marks[start] {
        Mark::New => visit(alloc, store, cells, start, marks),
        Mark::Open | Mark::Done => Ok(true),
    }
}

// Visits a new place and all that it needs. False where a place needs itself.
fn visit(
    alloc: Global,
    store: &Store<'_>,
    cells: &[Cell],
    start: usize,
    marks: &mut [Mark],
) -> Result<bool, NoMemory>
    requires sound { IsSound store.now cells.now }
    requires settled { IsSettled store.now cells.now marks.old }
    requires idle { IsIdle marks.old }
    requires there { start < length cells.now }
    requires fresh { mark_at marks.old start ≡ New }
    ensures { IfOk result (λ fine. Visits fine store.now cells.now marks.old marks.new start) }
{
    let mut stack = Vec::new(alloc);
    stack.push((start, 0))?;
    marks[start] = Mark::Open;
    while let Some(frame) = stack.pop() {
        if !advance(store, cells, frame, marks, &mut stack)? {
            return Ok(false);
        }
    }
    Ok(true)
}

// Looks at the next place that a place needs. False where the visit of that one is what led here.
fn advance(
    store: &Store<'_>,
    cells: &[Cell],
    frame: (usize, usize),
    marks: &mut [Mark],
    stack: &mut Vec<(usize, usize)>,
) -> Result<bool, NoMemory>
    requires sound { IsSound store.now cells.now }
    requires visiting { IsVisiting store.now cells.now marks.old (frame ∷ reverse stack.old.items) }
    ensures { IfOk result (λ fine. Advances fine store.now cells.now marks.old marks.new (frame ∷ reverse stack.old.items) (reverse stack.new.items)) }
{
    let (place, next) = frame;
    let need = match need_at(&cells[place].known, store, next) {
        Some(need) => need,
        None => {
            marks[place] = Mark::Done;
            return Ok(true);
        }
    };
    match marks[need] {
        Mark::Open => return Ok(false),
        Mark::Done => stack.push((place, next + 1))?,
        Mark::New => {
            stack.push((place, next))?;
            stack.push((need, 0))?;
            marks[need] = Mark::Open;
        }
    }
    Ok(true)
}
