//! The rule of a join, and each kind of step on it. These types are for the proofs alone.
ghost use Rattle.merc_join.specs.Join.{Kept, first_stub, after_split, split_off, TookPlace, Brought, Grabbed, Counted, GotOutcome, GotParent};

use crate::stub::{Slot, Stub};
use atomic_table::{Play, Shared, Split, TableRule};
use std::snapshot::Snapshot;

/// What forked. It tells how each of its children may end, by the child's number.
pub trait Forked {
    ghost use Rattle.std.specs.Prelude.{ℕ};
    ghost use Rattle.merc_script.specs.declared.outcome.Outcome.{Outcome};

    ghost ends: { Self → ℕ → Outcome → Type 0 };
}

/// What a join is made for.
#[derive(Drop)]
pub struct JoinKey<P> {
    /// The parent as it was when the join was made.
    pub parent: Snapshot<P>,
    /// The number of its children.
    pub children: u64,
}

/// The rule of a join.
pub struct Joining;

impl<P: Forked> TableRule<Slot<P>, Stub<P>, JoinKey<P>> for Joining {
    ghost holds = { λ key. Kept P.ends key.parent.value };

    ghost first = { λ key. first_stub key.parent.value key.children };
}

/// The word and the slots of a join, as all tickets see them.
pub type Word<P> = Shared<Slot<P>, Stub<P>, JoinKey<P>, Joining>;

/// The first of a seat's children gets a seat of its own.
pub struct FirstChild;

impl<P> Split<Stub<P>> for FirstChild {
    ghost left = { after_split };

    ghost right = { split_off };
}

/// The first seat takes the slot for the parent, to put it there.
pub struct TakePlace;

impl<P> Play<Slot<P>, Stub<P>> for TakePlace {
    ghost then = { λ _ m _ n. TookPlace m n };
}

/// The first seat gives the slot with the parent home.
pub struct Bring;

impl<P> Play<Slot<P>, Stub<P>> for Bring {
    ghost then = { λ _ m _ n. Brought m n };
}

/// A seat takes the slot for its child's outcome, to put it there.
pub struct Grab;

impl<P> Play<Slot<P>, Stub<P>> for Grab {
    ghost then = { λ _ m _ n. Grabbed m n };
}

/// A seat counts its child, and gives the slot with the outcome home.
pub struct Count;

impl<P> Play<Slot<P>, Stub<P>> for Count {
    ghost then = { λ _ m found n. Counted m found n };
}

/// The last seat takes the next slot of an outcome.
pub struct TakeOutcome;

impl<P: Forked> Play<Slot<P>, Stub<P>> for TakeOutcome {
    ghost then = { λ _ m _ n. GotOutcome P.ends m n };
}

/// The last seat takes the slot of the parent.
pub struct TakeParent;

impl<P> Play<Slot<P>, Stub<P>> for TakeParent {
    ghost then = { λ _ m _ n. GotParent m n };
}
