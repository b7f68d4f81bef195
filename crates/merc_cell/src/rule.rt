//! The rule of a cell, and each kind of step on it. These types are for the proofs alone.
ghost use Rattle.std.specs.Prelude.{ℕ, List, true, false};
ghost use Rattle.merc_cell.specs.Cell.{Kept, lone, begun, Grabbed, Waited, Signalled, Spoilt, GotWaiter, GotValue};

use crate::glance::{Glance, Slot};
use atomic_table::{Play, Shared, Split, TableRule};
use std::marker::{Brand, PhantomData};

/// What fits a name: a value that the cell of this name may get, or a waiter that may wait for it.
pub trait Fits {
    ghost use Rattle.std.specs.Prelude.{ℕ, List};

    ghost fits: { List ℕ → Self → Type 0 };
}

/// Names one cell. The call that makes the cell picks it.
pub trait CellName {
    ghost use Rattle.std.specs.Prelude.{ℕ, List};

    ghost name: { List ℕ };
}

impl CellName for Brand {
    ghost use Rattle.std.specs.Prelude.{[]};

    ghost name = { [] };
}

/// The rule of a cell.
pub struct Meeting;

impl<V: Fits, W: Fits> TableRule<Slot<V, W>, Glance<V, W>, ()> for Meeting {
    ghost holds = { λ _. Kept V.fits W.fits };

    ghost first = { λ _. lone };
}

/// The word and the slots of a cell, as both sides see them.
pub type Word<V, W> = Shared<Slot<V, W>, Glance<V, W>, (), Meeting>;

/// The first seat becomes the consumer's, and the second is the producer's.
pub struct Sides<N> {
    name: PhantomData<N>,
}

impl<V, W, N: CellName> Split<Glance<V, W>> for Sides<N> {
    ghost left = { λ _. begun N.name true };

    ghost right = { λ _. begun N.name false };
}

/// A seat takes its own slot, to put its waiter or its value there.
pub struct Grab;

impl<V, W> Play<Slot<V, W>, Glance<V, W>> for Grab {
    ghost then = { λ _ m _ n. Grabbed m n };
}

/// The consumer sets its bit and gives its slot home.
pub struct Waits;

impl<V, W> Play<Slot<V, W>, Glance<V, W>> for Waits {
    ghost then = { λ _ m found n. Waited m found n };
}

/// The producer sets the bit of a full cell and gives its slot home.
pub struct Signals;

impl<V, W> Play<Slot<V, W>, Glance<V, W>> for Signals {
    ghost then = { λ _ m found n. Signalled m found n };
}

/// The producer sets the bit of a poisoned cell.
pub struct Spoils;

impl<V, W> Play<Slot<V, W>, Glance<V, W>> for Spoils {
    ghost then = { λ _ m found n. Spoilt m found n };
}

/// The seat that stepped second takes the waiter's slot.
pub struct TakeWaiter;

impl<V, W: Fits> Play<Slot<V, W>, Glance<V, W>> for TakeWaiter {
    ghost then = { λ _ m _ n. GotWaiter W.fits m n };
}

/// The seat that stepped second takes the value's slot.
pub struct TakeValue;

impl<V: Fits, W> Play<Slot<V, W>, Glance<V, W>> for TakeValue {
    ghost then = { λ _ m _ n. GotValue V.fits m n };
}
