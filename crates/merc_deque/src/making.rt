//! How a deque of sparks is made.
ghost use Rattle.std.specs.Prelude.{◌≡◌, ◌≤◌, ℕ, IfOk, length};
ghost use Rattle.crossbeam_deque.specs.Handles.{worker_deque, worker_view, worker_capacity, worker_index, stealer_deque};
ghost use Rattle.merc_deque.specs.History.{newcomer, first_capacity};
ghost use Rattle.merc_deque.specs.Passes.{AreNew};

use crate::history::{OneHistory, Pass};
use crate::moves::Known;
use crate::sparks::{Sparks, Thief};
use crossbeam_deque::Worker;
use merc_base::NoMemory;
use std::alloc::Global;

/// How many places a deque begins with, at least.
pub const CAPACITY: usize = 64;

/// A deque without sparks: the worker's end, the thieves' end, and a pass for each thief.
///
/// # Errors
///
/// `NoMemory` where memory was refused.
#[tactic(auto, using(crate::proofs::Keeping::begins))]
pub fn new_sparks<T: Drop>(
    alloc: Global,
    thieves: u32,
) -> Result<(Sparks<T>, Thief<T>, Vec<Pass<T>>), NoMemory>
    ensures sparks { IfOk result (λ made. (worker_view made.0.worker ≡ newcomer) × (first_capacity ≤ worker_capacity made.0.worker) × (worker_index made.0.worker ≡ 0)) }
    ensures thief { IfOk result (λ made. stealer_deque made.1.stealer ≡ worker_deque made.0.worker) }
    ensures passes { IfOk result (λ made. (length made.2.items ≡ thieves) × AreNew made.1.stealer made.2.items) }
{
    let worker = Worker::<T, Global, Known<T>, OneHistory>::lifo_as(alloc, CAPACITY)?;
    let thief = Thief {
        stealer: worker.stealer()?,
    };
    let passes = passes_of(alloc, &thief, thieves)?;
    Ok((Sparks { worker }, thief, passes))
}

fn passes_of<T: Drop>(alloc: Global, thief: &Thief<T>, count: u32) -> Result<Vec<Pass<T>>, NoMemory>
    ensures { IfOk result (λ passes. (length passes.items ≡ count) × AreNew thief.now.stealer passes.items) }
{
    let mut passes = Vec::new(alloc);
    for i in 0..count {
        passes.push(thief.pass())?;
    }
    Ok(passes)
}
