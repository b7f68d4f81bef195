//! The history of a deque, which exists in the proofs alone, and what each call tells of it.
ghost use Rattle.std.specs.Prelude.{ℕ, []};
ghost use Rattle.merc_deque.specs.declared.moves.Kind.TheVariants.{Pushed, Popped, Stole};
ghost use Rattle.merc_deque.specs.History.{Kept, newcomer, Told, Emptied, HeldFew};

use crate::moves::Known;
use crossbeam_deque::protocol::{Outcome, Protocol};

/// What one caller has seen of a deque, and its own moves. It has no bytes.
pub type Pass<T> = crossbeam_deque::Pass<T, Known<T>>;

/// What `Thief::steal` answers.
#[derive(Drop)]
pub enum Stolen<T> {
    /// The spark at the front.
    Got(T),
    /// The deque held one spark at most.
    Few,
    /// Another thread took a spark since this pass's step before, or the deque held one at most.
    Again,
}

/// The rule: there is one history, which leaves the sparks that lie in the deque.
pub struct OneHistory;

impl<T> Protocol<T, Known<T>> for OneHistory {
    ghost holds = { Kept };

    ghost first = { newcomer };

    ghost guest = { newcomer };
}

/// A spark joins at the back.
pub struct Pushes;

impl<T> Outcome<T, Known<T>> for Pushes {
    ghost then = { Told Pushed };
}

/// The spark at the back leaves.
pub struct Pops;

impl<T> Outcome<T, Known<T>> for Pops {
    ghost then = { Told Popped };

    ghost empty = { Emptied };
}

/// The spark at the front leaves.
pub struct Steals;

impl<T> Outcome<T, Known<T>> for Steals {
    ghost then = { Told Stole };

    ghost empty = { HeldFew };
}
