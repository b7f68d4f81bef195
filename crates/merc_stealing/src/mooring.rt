//! How branches get into their berths and out.
ghost use Rattle.std.specs.Prelude.{◌≡◌, Some};
ghost use Rattle.merc_script.specs.Script.{Script, WaitThen};
ghost use Rattle.merc_script.specs.Places.{Place, left_of};
ghost use Rattle.merc_yard.specs.declared.spot.Spot.{Spot};
ghost use Rattle.merc_yard.specs.declared.spot.Fill.TheVariants.{Vacant, Filled};
ghost use Rattle.merc_yard.specs.declared.spot.Purpose.TheVariants.{Ready, Waits, Forks, Free};
ghost use Rattle.merc_yard.specs.Yards.{yard_table};
ghost use Rattle.merc_yard.specs.Berths.{IsFilled, IsVacant, spot_of};
ghost use Rattle.merc_held_branches.specs.Spots.{used, parked_for, after};
ghost use Rattle.merc_held_branches.specs.Beds.{IsMoored};
ghost use Rattle.merc_held_branches.specs.Lying.{LiesIn, WaitsAt, ForksAt, ReadyAs, IsBusy, rights};
ghost use Rattle.merc_held_branches.specs.Owning.{spot_held, HasBerth, Runs, Own, Unmoored};

use merc_board::Load;
use merc_held_branches::{Held, Lot, Moored};
use merc_yard::{Berth, NextSpot};
use std::marker::Brand;

fn moor_at<M: Load, C: NextSpot>(lot: &Lot<M>, mut branch: Held<M>) -> Berth
    requires berth { HasBerth (yard_table lot.now) branch.value.hold.berth }
    requires lies { LiesIn M.root M.stands M.awaits M.forked M.shows C.spot branch.value }
    ensures { IsFilled (yard_table lot.now) C.spot result }
{
    match branch.hold.berth.take() {
        Some(berth) => lot.put::<C>(berth, Moored::Lying(branch)),
        None => unreachable!(),
    }
}

fn unmoor_to<M: Load, C: NextSpot>(lot: &Lot<M>, berth: Berth) -> Held<M>
    requires filled { (old : Spot) × IsFilled (yard_table lot.now) old berth × IsBusy old.purpose }
    requires yard { C.spot.yard.table_id ≡ yard_table lot.now }
    ensures berth { HasBerth (yard_table lot.now) result.value.hold.berth }
    ensures spot { spot_held result.value.hold.berth ≡ C.spot }
    ensures lay { (old : Spot) → IsFilled (yard_table lot.now) old berth → LiesIn M.root M.stands M.awaits M.forked M.shows old result.value }
{
    let (vacant, moored) = lot.take::<C>(berth);
    match moored {
        Moored::Lying(mut branch) => {
            branch.hold.berth = Some(vacant);
            branch
        }
        Moored::Link(_) => unreachable!(),
    }
}

/// Puts a branch into its berth, to be run.
pub(crate) fn moor_ready<M: Load>(lot: &Lot<M>, branch: Held<M>) -> Berth
    requires berth { HasBerth (yard_table lot.now) branch.value.hold.berth }
    requires lies { LiesIn M.root M.stands M.awaits M.forked M.shows (used Ready (spot_held branch.value.hold.berth)) branch.value }
    ensures { IsMoored (yard_table lot.now) Filled Ready result }
{
    moor_at::<M, Brand>(lot, branch)
}

/// Puts a branch into its berth, to wait for a value.
pub(crate) fn moor_waiting<M: Load>(lot: &Lot<M>, branch: Held<M>) -> Berth
    requires { (at : Place) × Own M.root (yard_table lot.now) branch.value.hold at × WaitsAt M.root M.stands M.awaits M.forked M.shows branch.value.load (rights branch.value.hold) at }
    ensures moored { IsMoored (yard_table lot.now) Filled Waits result }
    ensures spot { spot_of result ≡ parked_for Waits M.root (spot_held branch.value.hold.berth) }
{
    moor_at::<M, Brand>(lot, branch)
}

/// Puts a parent into its berth, to wait for its children.
pub(crate) fn moor_parent<M: Load>(lot: &Lot<M>, branch: Held<M>) -> Berth
    requires { (at : Place) × Own M.root (yard_table lot.now) branch.value.hold at × ForksAt M.root M.stands M.awaits M.forked M.shows branch.value.load (rights branch.value.hold) branch.value.hold.limit at }
    ensures moored { IsMoored (yard_table lot.now) Filled Forks result }
    ensures spot { spot_of result ≡ parked_for Forks M.root (spot_held branch.value.hold.berth) }
{
    moor_at::<M, Brand>(lot, branch)
}

/// Takes a branch out of its berth, behind what it waited for.
pub(crate) fn unmoor<M: Load>(lot: &Lot<M>, berth: Berth) -> Held<M>
    requires { IsMoored (yard_table lot.now) Filled (spot_of berth).purpose berth × IsBusy (spot_of berth).purpose }
    ensures { Unmoored M.root M.stands M.awaits M.forked M.shows (yard_table lot.now) (spot_of berth) result.value }
{
    unmoor_to::<M, Brand>(lot, berth)
}
