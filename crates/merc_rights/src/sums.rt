//! Sums of numbers of things.
ghost use Rattle.std.specs.Prelude.{◌≡◌, ◌+◌, IfOk};

use merc_base::NoMemory;

/// Two numbers together.
///
/// # Errors
///
/// `NoMemory` where so many things need more memory than there is.
pub fn sum(one: usize, other: usize) -> Result<usize, NoMemory>
    ensures { IfOk result (λ both. both ≡ one + other) }
{
    match one.checked_add(other) {
        Some(both) => Ok(both),
        None => Err(NoMemory),
    }
}
