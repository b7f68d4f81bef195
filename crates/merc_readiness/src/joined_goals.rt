//! The goals that a goal joins, in their order.
ghost use Rattle.std.specs.Prelude.{◌≡◌, IfOk};

use merc_base::NoMemory;
use merc_goal_tree::{NodeRef, Parts};
use std::alloc::Global;

/// The goals in a list, from the first to the last.
///
/// # Errors
///
/// `NoMemory` where memory was refused.
pub fn members<'a>(alloc: Global, goals: Parts<'a>) -> Result<Vec<NodeRef<'a>>, NoMemory>
    ensures { IfOk result (λ members. members.items ≡ goals.entry) }
{
    let mut members = Vec::new(alloc);
    let mut rest = goals;
    while let Some(last) = rest.take_last() {
        members.push(last)?;
    }
    members.reverse();
    Ok(members)
}
