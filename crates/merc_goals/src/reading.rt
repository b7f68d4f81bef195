//! How a term is read as a goal.
ghost use Rattle.std.specs.Prelude.{◌≡◌, ◌≤◌, reverse, IfOk};
ghost use Rattle.merc_goals.specs.Written.{written};
ghost use Rattle.merc_goals.specs.Entries.{entries_of};
ghost use Rattle.merc_goals.specs.Numbers.{first_limit};

use crate::goal::{Entry, WrittenGoal};
use crate::numbers::Numbered;
use crate::planning::{Task, plan};
use merc_base::NoMemory;
use merc_tree::TermRef;
use std::alloc::Global;

/// What a term is as a goal. `at` is the term's number among the parts of its text, at most 2^61.
///
/// # Errors
///
/// `NoMemory` says that memory was refused.
pub fn written_goal<'a>(
    alloc: Global,
    term: &TermRef<'a>,
    at: usize,
) -> Result<WrittenGoal<'a>, NoMemory>
    requires { at ≤ first_limit }
    ensures { IfOk result (λ goal. goal ≡ written at term.now) }
{
    let root = Numbered::first(term.copy(), at);
    let mut entries = backward_entries(alloc, root)?;
    entries.reverse();
    Ok(WrittenGoal { entries })
}

// The entries of the goal that a term is, from the last to the first.
fn backward_entries<'a>(alloc: Global, root: Numbered<'a>) -> Result<Vec<Entry<'a>>, NoMemory>
    ensures { IfOk result (λ entries. entries.items ≡ reverse (entries_of (written root.entry.at root.entry.term))) }
{
    let mut entries = Vec::new(alloc);
    let mut tasks = Vec::new(alloc);
    tasks.push(Task::Read(root))?;
    while let Some(task) = tasks.pop() {
        match task {
            Task::Read(numbered) => {
                numbered.keeps_limit();
                plan(alloc, &mut tasks, &numbered, entries.len())?
            }
            Task::Put {
                form,
                at,
                span,
                start,
            } => {
                let size = entries.len().saturating_sub(start) + 1;
                entries.push(Entry {
                    form,
                    at,
                    span,
                    size,
                })?;
            }
        }
    }
    Ok(entries)
}
