//! The rights of a branch to wait for values and to signal them, and how a fork hands them out.

use merc_base::NoMemory;
use merc_goal_tree::Var;
use merc_rights::{CellInfo, Moved, SiteInfo};
use std::alloc::Global;

/// A right to wait for a variable's value at a cell, or to signal it there: to the conjunct of this number, 0 for the goals
/// behind the fork.
#[derive(Clone, Copy)]
struct Right {
    variable: Var,
    consumer: usize,
    cell: usize,
}

/// What a branch may wait for and signal, in the order in which it has the rights.
#[derive(Drop)]
pub struct Rights {
    waits: Vec<Right>,
    signals: Vec<Right>,
}

impl Rights {
    /// None.
    pub fn new(alloc: Global) -> Rights {
        Rights {
            waits: Vec::new(alloc),
            signals: Vec::new(alloc),
        }
    }

    /// Takes the first right to wait for a variable, and gives its cell.
    pub fn take_wait(&mut self, variable: Var) -> Option<usize> {
        let place = first_for(&self.waits, variable)?;
        taken(&mut self.waits, place)
    }

    /// Takes the right to signal a variable for the conjunct that comes soonest, the goals behind the fork last, and gives its
    /// cell.
    pub fn take_signal(&mut self, variable: Var) -> Option<usize> {
        let place = soonest_for(&self.signals, variable)?;
        taken(&mut self.signals, place)
    }

    /// Puts the rights behind the others that a conjunct has to the cells of its fork, the first of which has this number, and
    /// those that move into it from another branch. Conjuncts are numbered from 1; 0 are the goals behind, which move nothing.
    pub fn add(&mut self, info: &SiteInfo, first: usize, conjunct: usize) -> Result<(), NoMemory> {
        let mut cell = first;
        for one in info.cells.as_slice() {
            self.add_own(one, cell, conjunct)?;
            cell = cell.wrapping_add(1);
        }
        Ok(())
    }

    // Puts the right of a conjunct to a cell, if it has one.
    fn add_own(&mut self, one: &CellInfo, cell: usize, conjunct: usize) -> Result<(), NoMemory> {
        let right = Right {
            variable: one.variable,
            consumer: one.consumer,
            cell,
        };
        put_if(one.consumer == conjunct, &right, &mut self.waits)?;
        put_if(one.producer == conjunct, &right, &mut self.signals)
    }

    /// Puts those rights of another branch behind the others that move into a conjunct, or, for 0, that move into none.
    pub fn add_moved(
        &mut self,
        moves: &[Moved],
        from: &Rights,
        conjunct: usize,
    ) -> Result<(), NoMemory> {
        put_moved(moves, false, &from.waits, conjunct, &mut self.waits)?;
        put_moved(moves, true, &from.signals, conjunct, &mut self.signals)
    }
}

// Puts a right behind others if it is to be put.
fn put_if(is_put: bool, right: &Right, into: &mut Vec<Right>) -> Result<(), NoMemory> {
    if is_put {
        into.push(*right)?;
    }
    Ok(())
}

// The place of the first right for a variable.
fn first_for(rights: &[Right], variable: Var) -> Option<usize> {
    for (place, right) in rights.iter().enumerate() {
        if right.variable == variable {
            return Some(place);
        }
    }
    None
}

// The place of the right for a variable whose conjunct comes soonest, of several the first.
fn soonest_for(rights: &[Right], variable: Var) -> Option<usize> {
    let mut found: Option<(usize, usize)> = None;
    for (place, right) in rights.iter().enumerate() {
        if right.variable == variable && is_sooner(right.consumer, found) {
            found = Some((place, right.consumer));
        }
    }
    match found {
        Some((place, _)) => Some(place),
        None => None,
    }
}

// Whether a conjunct comes before the one that was found.
fn is_sooner(consumer: usize, found: Option<(usize, usize)>) -> bool {
    match found {
        Some((_, other)) => consumer != 0 && (other == 0 || consumer < other),
        None => true,
    }
}

// Takes the right at a place, and gives its cell.
fn taken(rights: &mut Vec<Right>, place: usize) -> Option<usize> {
    if place < rights.len() {
        Some(rights.remove(place).cell)
    } else {
        None
    }
}

// Puts those of these rights behind others that move into a conjunct, or, for 0, that move into none.
fn put_moved(
    moves: &[Moved],
    signal: bool,
    rights: &[Right],
    conjunct: usize,
    into: &mut Vec<Right>,
) -> Result<(), NoMemory> {
    for right in rights {
        if conjunct_for(moves, signal, right.variable) == conjunct {
            into.push(*right)?;
        }
    }
    Ok(())
}

// The conjunct into which the rights of a kind for a variable move; 0 where they stay.
fn conjunct_for(moves: &[Moved], signal: bool, variable: Var) -> usize {
    for moved in moves {
        if moved.variable == variable && moved.signal == signal {
            return moved.child;
        }
    }
    0
}
