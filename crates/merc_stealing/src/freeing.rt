//! The chains of free berths.
ghost use Rattle.std.specs.Prelude.{◌≡◌, Option, Some, None, IfSome};
ghost use Rattle.merc_yard.specs.declared.spot.Spot.{Spot};
ghost use Rattle.merc_yard.specs.declared.spot.Fill.TheVariants.{Filled};
ghost use Rattle.merc_yard.specs.declared.spot.Purpose.TheVariants.{Free};
ghost use Rattle.merc_yard.specs.Yards.{yard_table};
ghost use Rattle.merc_yard.specs.Berths.{IsFilled, IsVacant, spot_of};
ghost use Rattle.merc_held_branches.specs.Beds.{IsMoored};
ghost use Rattle.merc_held_branches.specs.Lying.{Linked};
ghost use Rattle.merc_held_branches.specs.Owning.{HasBerth};

use crate::seat::{Chain, Seat};
use merc_board::Load;
use merc_held_branches::{Lot, Moored, Room};
use merc_yard::{Berth, NextSpot};
use std::marker::{Brand, PhantomData};

fn link_at<M: Load, C: NextSpot>(lot: &Lot<M>, berth: Berth, next: Option<Berth>) -> Berth
    requires berth { (old : Spot) × IsVacant (yard_table lot.now) old berth }
    requires next { (C.spot.purpose ≡ Free) × Linked Free C.spot.yard.table_id next }
    ensures { IsFilled (yard_table lot.now) C.spot result }
{
    lot.put::<C>(berth, Moored::Link(next))
}

fn unlink_to<M: Load, C: NextSpot>(lot: &Lot<M>, berth: Berth) -> (Berth, Option<Berth>)
    requires filled { IsMoored (yard_table lot.now) Filled Free berth }
    ensures berth { IsVacant (yard_table lot.now) C.spot result.0 }
    ensures next { Linked Free (spot_of berth).yard.table_id result.1 }
{
    let (vacant, moored) = lot.take::<C>(berth);
    match moored {
        Moored::Link(next) => (vacant, next),
        Moored::Lying(_) => unreachable!(),
    }
}

/// Puts a vacant berth in front of a chain of free ones.
pub(crate) fn link_free<M: Load>(lot: &Lot<M>, berth: Berth, next: Option<Berth>) -> Berth
    requires berth { (old : Spot) × IsVacant (yard_table lot.now) old berth }
    requires next { Linked Free (yard_table lot.now) next }
    ensures { IsMoored (yard_table lot.now) Filled Free result }
{
    link_at::<M, Brand>(lot, berth, next)
}

/// Takes the first of a chain of free berths.
pub(crate) fn unlink_free<M: Load>(lot: &Lot<M>, berth: Berth) -> (Berth, Option<Berth>)
    requires { IsMoored (yard_table lot.now) Filled Free berth }
    ensures berth { HasBerth (yard_table lot.now) (Some result.0) }
    ensures next { Linked Free (yard_table lot.now) result.1 }
{
    unlink_to::<M, Brand>(lot, berth)
}

/// A worker keeps a berth for later.
pub(crate) fn keep_berth<M: Load, N: Room>(lot: &Lot<M>, seat: &mut Seat<N>, berth: Berth)
    requires tied { yard_table lot.now ≡ N.table }
    requires berth { (old : Spot) × IsVacant (yard_table lot.now) old berth }
    ensures { seat.new.passes ≡ seat.old.passes }
{
    let berth = match seat.free.take() {
        Some(chain) => {
            let Chain { berth: next, of: _ } = chain;
            link_free(lot, berth, Some(next))
        }
        None => link_free(lot, berth, None),
    };
    seat.free = Some(Chain {
        berth,
        of: PhantomData,
    });
}

/// A free berth of a worker, if it has one.
pub(crate) fn free_berth<M: Load, N: Room>(lot: &Lot<M>, seat: &mut Seat<N>) -> Option<Berth>
    requires { yard_table lot.now ≡ N.table }
    ensures same { seat.new.passes ≡ seat.old.passes }
    ensures berth { IfSome result (λ berth. HasBerth N.table (Some berth)) }
{
    let Some(chain) = seat.free.take() else {
        return None;
    };
    let Chain { berth, of: _ } = chain;
    let (berth, next) = unlink_free(lot, berth);
    if let Some(next) = next {
        seat.free = Some(Chain {
            berth: next,
            of: PhantomData,
        });
    }
    Some(berth)
}
