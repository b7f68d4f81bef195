//! The rule of a yard, and each kind of step on it. These types are for the proofs alone.
ghost use Rattle.merc_yard.specs.declared.spot.Fill.TheVariants.{Dealer, Vacant};
ghost use Rattle.merc_yard.specs.Slots.{Kept, label, nowhere, Opened, GaveFilled, GaveEmpty, Moved};

use crate::spot::Label;
use atomic_table::{Play, Shared, Split, TableRule};
use std::marker::{Brand, PhantomData};

/// What may lie in a berth of a spot.
pub trait Lies<T> {
    ghost use Rattle.merc_yard.specs.declared.spot.Spot.{Spot};

    ghost lies: { Spot → T → Type 0 };
}

/// The spot for which a berth is from a call on. The call picks it.
pub trait NextSpot {
    ghost use Rattle.merc_yard.specs.declared.spot.Spot.{Spot};

    ghost spot: { Spot };
}

impl NextSpot for Brand {
    ghost use Rattle.merc_yard.specs.Slots.{nowhere};

    ghost spot = { nowhere };
}

/// The rule of a yard.
pub struct Mooring<L> {
    of: PhantomData<L>,
}

impl<T, L: Lies<T>> TableRule<Option<T>, Label, ()> for Mooring<L> {
    ghost holds = { λ _. Kept L.lies };

    ghost first = { λ _. label 0 Dealer nowhere };
}

/// The word, which nothing writes, and the slots of a yard.
pub type Word<T, L> = Shared<Option<T>, Label, (), Mooring<L>>;

/// The berth of one more slot.
pub struct NextBerth;

impl Split<Label> for NextBerth {
    ghost use Rattle.std.specs.Prelude.{◌+◌};

    ghost left = { λ v. label (v.slot + 1) Dealer nowhere };

    ghost right = { λ v. label v.slot Vacant nowhere };
}

/// A berth's owner takes the slot, and the berth is for another spot.
pub struct Opens<L, C> {
    of: PhantomData<(L, C)>,
}

impl<T, L: Lies<T>, C: NextSpot> Play<Option<T>, Label> for Opens<L, C> {
    ghost then = { λ _ m _ n. Opened L.lies C.spot m n };
}

/// The owner gives the slot home with something in it.
pub struct Fills;

impl<T> Play<Option<T>, Label> for Fills {
    ghost then = { λ _ m _ n. GaveFilled m n };
}

/// The owner gives the slot home with nothing in it.
pub struct Empties;

impl<T> Play<Option<T>, Label> for Empties {
    ghost then = { λ _ m _ n. GaveEmpty m n };
}

/// A vacant berth is for another spot.
pub struct Moves<C> {
    of: PhantomData<C>,
}

impl<T, C: NextSpot> Play<Option<T>, Label> for Moves<C> {
    ghost then = { λ _ m _ n. Moved C.spot m n };
}
