//! How the outcomes of children are joined to one.
ghost use Rattle.std.specs.Prelude.{◌≡◌, ◌+◌, ◌≤◌, Some, None, if◌then◌else◌, length, nat_le};
ghost use Rattle.std.specs.List.{All};
ghost use Rattle.merc_script.specs.Joining.{HasFewSteps, joined, joined_with};

use crate::Outcome;

/// The outcome of a fork with this limit whose children have these outcomes, in order. It is `NoMemory` exactly where
/// one of them is. Otherwise the outcomes are walked from the left: steps are summed up, `Limit` comes where the sum
/// passes the limit, and the first outcome that is not `Ok` decides, with the sum added to an exception's steps. It
/// takes no memory.
pub fn join(limit: u64, outcomes: &[Outcome]) -> Outcome
    requires few { length outcomes.now ≤ 64 }
    requires small { All HasFewSteps outcomes.now }
    ensures { result ≡ joined limit outcomes.now }
{
    let mut before = Outcome::Ok(0);
    for outcome in outcomes {
        before = join_next(limit, before, *outcome);
    }
    before
}

/// The outcome of a fork with this limit where those of its first children are joined to `before`, `Ok(0)` for none,
/// and the next child has the outcome `next`. So the outcomes of all children are joined one after the other.
pub fn join_next(limit: u64, before: Outcome, next: Outcome) -> Outcome
    ensures { result ≡ joined_with limit before next }
{
    match (before, next) {
        (Outcome::NoMemory, _) | (_, Outcome::NoMemory) => Outcome::NoMemory,
        (Outcome::Ok(sum), Outcome::Ok(steps)) => match sum_within(limit, sum, steps) {
            Some(sum) => Outcome::Ok(sum),
            None => Outcome::Limit,
        },
        (Outcome::Ok(sum), Outcome::Raise(text, steps)) => match sum_within(limit, sum, steps) {
            Some(sum) => Outcome::Raise(text, sum),
            None => Outcome::Limit,
        },
        (Outcome::Ok(_), _) => next,
        _ => before,
    }
}

// The sum of two numbers of steps, unless it passes the limit.
fn sum_within(limit: u64, sum: u64, steps: u64) -> Option<u64>
    ensures { result ≡ (if nat_le (sum + steps) limit then Some (sum + steps) else None) }
{
    if limit < sum || limit - sum < steps {
        return None;
    }
    Some(sum + steps)
}
