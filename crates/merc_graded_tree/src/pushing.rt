//! Goals that are put behind others, to be looked at.
ghost use Rattle.std.specs.Prelude.{◌≡◌, ◌++◌, reverse, OnOk};

use crate::{NodeRef, Parts};
use merc_base::NoMemory;

/// Puts goals behind the others, from the last to the first.
///
/// # Errors
///
/// `NoMemory` where memory was refused.
pub fn push_all<'a>(goals: Parts<'a>, left: &mut Vec<NodeRef<'a>>) -> Result<(), NoMemory>
    ensures { OnOk result (left.new.items ≡ left.old.items ++ reverse goals.entry) }
{
    let mut goals = goals;
    while let Some(last) = goals.take_last() {
        left.push(last)?;
    }
    Ok(())
}
