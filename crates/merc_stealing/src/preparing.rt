//! How a fork is made.
ghost use Rattle.std.specs.Prelude.{◌≡◌, ◌+◌, ◌*◌, ◌≤◌, List, [], length, All, IfSome, IfOk, IfErr};
ghost use Rattle.std.specs.Vec.{vec_capacity};
ghost use Rattle.merc_cell.specs.Ends.{consumer_name, producer_name};
ghost use Rattle.merc_yard.specs.Yards.{yard_table};
ghost use Rattle.merc_board.specs.Boarding.{Prepares};
ghost use Rattle.merc_held_branches.specs.Beds.{IsNamed};
ghost use Rattle.merc_held_branches.specs.Lying.{AreNamed, rights};
ghost use Rattle.merc_held_branches.specs.Owning.{Own, Runs, spot_held};
ghost use Rattle.merc_held_branches.specs.Kids.{HaveBerths, Joins};
ghost use Rattle.merc_held_branches.specs.Sharing.{cells_ahead};
ghost use Rattle.merc_stealing.specs.Forking.{IsMade};

use crate::children::Children;
use crate::freeing::keep_berth;
use crate::making::{drop_kids, make_kids};
use crate::mooring::{moor_parent, unmoor};
use crate::placing::deal;
use crate::seat::{Seat, Spark};
use merc_base::NoMemory;
use merc_board::{Branch, Handover, Load, SharedCell};
use merc_held_branches::{Bed, Held, HeldSignal, HeldWait, Hold, Lot, Room, hand_out, share_cells};
use merc_join::new_join;
use std::alloc::Global;
use std::marker::PhantomData;

/// What is made for a fork before a right of its parent moves.
#[derive(Drop)]
pub struct Made<M: Load> {
    /// The children, with their rights to the fork's own cells.
    pub(crate) kids: Vec<Held<M>>,
    /// The rights to wait for the fork's own cells that the parent has behind it, and room for those that it keeps.
    pub(crate) behind: Vec<HeldWait<M>>,
    /// Room for the rights to signal that the parent keeps.
    pub(crate) kept: Vec<HeldSignal<M>>,
}

// Room for all rights that a branch can be given at a fork, where that is a number of this machine.
fn room_for(cells: usize, waits: usize, signals: usize) -> Option<usize>
    ensures { IfSome result (λ room. room ≡ 2 * cells + (waits + signals)) }
{
    let own = cells.checked_mul(2)?;
    let moved = waits.checked_add(signals)?;
    own.checked_add(moved)
}

fn make_fork<M: Load, N: Room>(
    alloc: Global,
    lot: &Lot<M>,
    seat: &mut Seat<N>,
    loads: Vec<M>,
    hold: &Hold<M>,
    shared: &[SharedCell],
) -> Result<Made<M>, NoMemory>
    requires tied { yard_table lot.now ≡ N.table }
    requires yard { (spot_held hold.now.berth).yard.table_id ≡ N.table }
    requires count { length (cells_ahead M.root (spot_held hold.now.berth)) ≡ length shared.now }
    ensures seat { seat.new.passes ≡ seat.old.passes }
    ensures made { IfOk result (λ made. IsMade M.root N.table hold.now shared.now loads.items made) }
{
    let Some(room) = room_for(shared.len(), hold.waits.len(), hold.signals.len()) else {
        return Err(NoMemory);
    };
    let mut behind = Vec::with_capacity(alloc, room)?;
    let kept = Vec::with_capacity(alloc, room)?;
    let mut kids = make_kids(alloc, lot, seat, loads, room)?;
    match share_cells::<M, N>(alloc, &mut kids, hold, &mut behind, shared) {
        Ok(()) => Ok(Made { kids, behind, kept }),
        Err(refused) => {
            drop_kids(lot, seat, kids);
            Err(refused)
        }
    }
}

// The parent's rights move into the children, or stay behind those to the fork's own cells.
fn hand_over<M: Load, N: Room>(
    parent: &mut Branch<M, Hold<M>>,
    made: Made<M>,
    limit: u64,
    _shared: &[SharedCell],
    given: &[Handover],
) -> Vec<Held<M>>
    requires { (loads : List M) × IsMade M.root N.table parent.old.hold _shared.now loads made × Prepares (Own M.root N.table parent.old.hold) M.forked M.stands parent.old.load (rights parent.old.hold) _shared.now given.now limit loads }
    ensures count { length result.items ≡ length made.kids.items }
    ensures joins { Joins M.root M.stands M.awaits M.forked M.shows N.table result.items parent.new }
{
    let Made {
        mut kids,
        behind,
        kept,
    } = made;
    hand_out::<M, N>(&mut kids, &mut parent.hold, behind, kept, given);
    parent.hold.limit = limit;
    kids
}

// Rights to wait go back to the parent. There is room for them: they came from it, or are to the fork's own cells.
fn take_waits<M: Load, N: Room>(from: &mut Vec<HeldWait<M>>, to: &mut Vec<HeldWait<M>>)
    requires { All (λ right. IsNamed N.table (consumer_name right.end)) from.old.items × All (λ right. IsNamed N.table (consumer_name right.end)) to.old.items }
    ensures { All (λ right. IsNamed N.table (consumer_name right.end)) to.new.items }
{
    while let Some(right) = from.pop() {
        if to.len() < to.capacity() {
            to.push_reserved(right);
        }
    }
}

// .. and rights to signal.
fn take_signals<M: Load, N: Room>(from: &mut Vec<HeldSignal<M>>, to: &mut Vec<HeldSignal<M>>)
    requires { All (λ right. IsNamed N.table (producer_name right.end)) from.old.items × All (λ right. IsNamed N.table (producer_name right.end)) to.old.items }
    ensures { All (λ right. IsNamed N.table (producer_name right.end)) to.new.items }
{
    while let Some(right) = from.pop() {
        if to.len() < to.capacity() {
            to.push_reserved(right);
        }
    }
}

// A branch's rights go to the parent.
fn take_rights<M: Load, N: Room>(from: &mut Hold<M>, to: &mut Hold<M>)
    requires from { AreNamed N.table from.old }
    requires to { Runs M.root N.table to.old }
    ensures { Runs M.root N.table to.new }
{
    take_waits::<M, N>(&mut from.waits, &mut to.waits);
    take_signals::<M, N>(&mut from.signals, &mut to.signals);
}

// The children are dropped. The parent takes their rights, and the seat keeps their berths.
fn take_back<M: Load, N: Room>(
    lot: &Lot<M>,
    seat: &mut Seat<N>,
    parent: &mut Hold<M>,
    mut kids: Vec<Held<M>>,
)
    requires tied { yard_table lot.now ≡ N.table }
    requires runs { Runs M.root N.table parent.old }
    requires kids { HaveBerths N.table kids.items × All (λ kid. AreNamed N.table kid.value.hold) kids.items }
    ensures seat { seat.new.passes ≡ seat.old.passes }
    ensures runs { Runs M.root N.table parent.new }
{
    while let Some(mut kid) = kids.pop() {
        if let Some(berth) = kid.hold.berth.take() {
            keep_berth(lot, seat, berth);
        }
        take_rights::<M, N>(&mut kid.hold, parent);
    }
}

// The parent lies in its berth, and its children can be started.
fn join_kids<M: Load, N: Room>(
    alloc: Global,
    lot: &Lot<M>,
    seat: &mut Seat<N>,
    kids: Vec<Held<M>>,
    parent: Held<M>,
    sparks: Vec<Spark<N>>,
) -> Result<Children<N>, (Held<M>, NoMemory)>
    requires tied { yard_table lot.now ≡ N.table }
    requires joins { Joins M.root M.stands M.awaits M.forked M.shows N.table kids.items parent.value }
    requires room { (sparks.items ≡ []) × (length kids.items ≤ vec_capacity sparks) }
    ensures seat { seat.new.passes ≡ seat.old.passes }
    ensures err { IfErr result (λ back. Runs M.root N.table back.0.value.hold) }
{
    let count = kids.len();
    let bed = Bed {
        berth: moor_parent(lot, parent),
        of: PhantomData,
    };
    match new_join(alloc, count as u32, bed) {
        Ok(tickets) => Ok(Children {
            sparks: deal(lot, kids, tickets, sparks),
        }),
        Err((bed, refused)) => {
            let mut parent = unmoor(lot, bed.berth);
            take_back(lot, seat, &mut parent.hold, kids);
            Err((parent, refused))
        }
    }
}

/// Branches for the children of a fork, with their rights, berths and places in a join, and the fork's cells. All memory
/// but that of the join is taken before a right moves; where the join's is refused the parent takes the rights back.
///
/// # Errors
///
/// `NoMemory` where memory was refused. The parent comes back, and the loads are dropped.
pub(crate) fn prepare<M: Load, N: Room>(
    alloc: Global,
    lot: &Lot<M>,
    seat: &mut Seat<N>,
    loads: Vec<M>,
    mut parent: Held<M>,
    limit: u64,
    shared: &[SharedCell],
    given: &[Handover],
) -> Result<Children<N>, (Held<M>, NoMemory)>
    requires tied { yard_table lot.now ≡ N.table }
    requires prepares { Prepares (Own M.root N.table parent.value.hold) M.forked M.stands parent.value.load (rights parent.value.hold) shared.now given.now limit loads.items }
    ensures seat { seat.new.passes ≡ seat.old.passes }
    ensures err { IfErr result (λ back. Runs M.root N.table back.0.value.hold) }
{
    let Ok(sparks) = Vec::with_capacity(alloc, loads.len()) else {
        return Err((parent, NoMemory));
    };
    match make_fork(alloc, lot, seat, loads, &parent.hold, shared) {
        Ok(made) => {
            let kids = hand_over::<M, N>(&mut parent, made, limit, shared, given);
            join_kids(alloc, lot, seat, kids, parent, sparks)
        }
        Err(refused) => Err((parent, refused)),
    }
}
