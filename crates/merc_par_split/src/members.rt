//! Leaving the goals that a goal joins.
ghost use Rattle.std.specs.Prelude.{◌≡◌, ◌<◌, ◌∷◌, ◌++◌, ℕ, IfOk, OnOk};
ghost use Rattle.std.specs.List.Sorted.{IsNonDecreasingBy};
ghost use Rattle.merc_par_split.specs.Tasks.{member_tasks, passing, shares_of};
ghost use Rattle.merc_par_split.specs.declared.tasks.Task.{Task};
ghost use Rattle.merc_rights.specs.Groups.{numbered};
ghost use Rattle.merc_rights.specs.Places.{starts_of};
ghost use Rattle.merc_rights.specs.Rows.{row_of};

use crate::tasks::{Placing, Task, Tasks, leave_passing};
use merc_base::NoMemory;
use merc_graded_tree::NodeRef;
use merc_rights::{Awaited, Members, NumberedGroup, Right, Rows, by_number, start_of, take_row};
use std::alloc::Global;

/// What goes to each of the goals that a goal joins, by their numbers.
#[derive(Drop)]
pub(crate) struct Shares {
    /// Rights to wait.
    pub(crate) waits: Rows<Awaited>,
    /// Rights to signal.
    pub(crate) signals: Vec<NumberedGroup>,
    /// What is waited for behind them.
    pub(crate) passed: Rows<Right>,
}

/// Leaves goals, each with the rights of its number and what is waited for behind it.
///
/// # Errors
///
/// `NoMemory` where memory was refused.
pub(crate) fn leave_members<'a>(
    alloc: Global,
    members: Members<'a>,
    shares: Shares,
    tasks: &mut Tasks<'a>,
) -> Result<(), NoMemory>
    requires { members.starts.items ≡ starts_of members.first members.goals.items }
    ensures { OnOk result (tasks.new ≡ member_tasks members.entry.first (shares_of 0 members.entry.goals.items shares.waits (numbered shares.signals.items) shares.passed) ++ tasks.old) }
{
    let Members { goals, starts, .. } = members;
    let mut goals = goals;
    let mut shares = in_order(shares)?;
    while let Some(goal) = goals.pop() {
        let number = goals.len();
        leave_member(
            alloc,
            goal,
            number,
            start_of(&starts, number),
            &mut shares,
            tasks,
        )?;
    }
    Ok(())
}

// The same, where the rights to signal stand in the order of the numbers.
fn in_order(shares: Shares) -> Result<Shares, NoMemory>
    ensures waits { IfOk result (λ all. all.waits ≡ shares.waits) }
    ensures passed { IfOk result (λ all. all.passed ≡ shares.passed) }
    ensures signals { IfOk result (λ all. (number : ℕ) → row_of number (numbered all.signals.items) ≡ row_of number (numbered shares.signals.items)) }
    ensures in_order { IfOk result (λ all. IsNonDecreasingBy (λ item. item.number) all.signals.items) }
{
    let Shares {
        waits,
        signals,
        passed,
    } = shares;
    Ok(Shares {
        waits,
        signals: by_number(signals)?,
        passed,
    })
}

// Leaves the goal of a number, whose parts begin at a place, and takes its rights to signal and those of numbers behind it out.
fn leave_member<'a>(
    alloc: Global,
    goal: NodeRef<'a>,
    number: usize,
    first: usize,
    shares: &mut Shares,
    tasks: &mut Tasks<'a>,
) -> Result<(), NoMemory>
    requires { IsNonDecreasingBy (λ item. item.number) shares.old.signals.items }
    ensures tasks { OnOk result (tasks.new ≡ Task.Place (record { goal = goal.entry; first = first; waits = row_of number shares.old.waits; signals = row_of number (numbered shares.old.signals.items) }) ∷ (passing goal.entry (row_of number shares.old.passed) ++ tasks.old)) }
    ensures waits { OnOk result (shares.new.waits ≡ shares.old.waits) }
    ensures passed { OnOk result (shares.new.passed ≡ shares.old.passed) }
    ensures rest { OnOk result ((other : ℕ) → other < number → row_of other (numbered shares.new.signals.items) ≡ row_of other (numbered shares.old.signals.items)) }
    ensures in_order { OnOk result (IsNonDecreasingBy (λ item. item.number) shares.new.signals.items) }
{
    let passed = shares.passed.listed(alloc, number)?;
    leave_passing(alloc, &goal, passed, tasks)?;
    let waits = shares.waits.listed(alloc, number)?;
    let signals = take_row(alloc, number, &mut shares.signals)?;
    tasks.push(Task::Place(Placing {
        goal,
        first,
        waits,
        signals,
    }))
}
