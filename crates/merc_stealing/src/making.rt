//! How branches are made for the children of a fork.
ghost use Rattle.std.specs.Prelude.{◌≡◌, ◌≤◌, None, [], IfOk};
ghost use Rattle.std.specs.Vec.{vec_capacity};
ghost use Rattle.merc_board.specs.declared.branch.Woken.TheVariants.{No};
ghost use Rattle.merc_yard.specs.Yards.{yard_table};
ghost use Rattle.merc_board.specs.Rights.{no_rights};
ghost use Rattle.merc_held_branches.specs.Kids.{IsFor, AreFor, HaveBerths};

use crate::freeing::{free_berth, keep_berth};
use crate::seat::Seat;
use merc_base::NoMemory;
use merc_board::{Branch, Load, Woken};
use merc_held_branches::{Held, Hold, Lot, Room};
use std::alloc::Global;

// A branch without rights, with room for so many of each kind.
fn make_branch<M: Load>(alloc: Global, load: M, room: usize) -> Result<Held<M>, NoMemory>
    ensures load { IfOk result (λ branch. (branch.value.load ≡ load) × (branch.value.hold.link ≡ None) × (branch.value.hold.woken ≡ No)) }
    ensures rights { IfOk result (λ branch. (branch.value.hold.waits.items ≡ []) × (branch.value.hold.signals.items ≡ [])) }
    ensures room { IfOk result (λ branch. (room ≤ vec_capacity branch.value.hold.waits) × (room ≤ vec_capacity branch.value.hold.signals)) }
{
    let hold = Hold {
        waits: Vec::with_capacity(alloc, room)?,
        signals: Vec::with_capacity(alloc, room)?,
        place: None,
        berth: None,
        link: None,
        woken: Woken::No,
        limit: 0,
        held: None,
    };
    match Box::new(alloc, Branch { load, hold }) {
        Ok(branch) => Ok(branch),
        Err(_) => Err(NoMemory),
    }
}

fn make_kid<M: Load, N: Room>(
    alloc: Global,
    lot: &Lot<M>,
    seat: &mut Seat<N>,
    load: M,
    room: usize,
) -> Result<Held<M>, NoMemory>
    requires { yard_table lot.now ≡ N.table }
    ensures seat { seat.new.passes ≡ seat.old.passes }
    ensures kid { IfOk result (λ kid. IsFor N.table room load no_rights kid.value) }
{
    let mut kid = make_branch(alloc, load, room)?;
    match free_berth(lot, seat) {
        Some(berth) => {
            kid.hold.berth = Some(berth);
            Ok(kid)
        }
        None => Err(NoMemory),
    }
}

/// The branches are dropped, and the seat keeps their berths.
pub(crate) fn drop_kids<M: Load, N: Room>(lot: &Lot<M>, seat: &mut Seat<N>, mut kids: Vec<Held<M>>)
    requires tied { yard_table lot.now ≡ N.table }
    requires kids { HaveBerths N.table kids.items }
    ensures { seat.new.passes ≡ seat.old.passes }
{
    while let Some(mut kid) = kids.pop() {
        if let Some(berth) = kid.hold.berth.take() {
            keep_berth(lot, seat, berth);
        }
    }
}

/// A branch for each load, with room for so many rights of each kind.
pub(crate) fn make_kids<M: Load, N: Room>(
    alloc: Global,
    lot: &Lot<M>,
    seat: &mut Seat<N>,
    loads: Vec<M>,
    room: usize,
) -> Result<Vec<Held<M>>, NoMemory>
    requires { yard_table lot.now ≡ N.table }
    ensures seat { seat.new.passes ≡ seat.old.passes }
    ensures kids { IfOk result (λ kids. AreFor N.table room loads.items (λ _. no_rights) kids.items × HaveBerths N.table kids.items) }
{
    let mut kids = Vec::with_capacity(alloc, loads.len())?;
    for load in loads {
        match make_kid(alloc, lot, seat, load, room) {
            Ok(kid) => kids.push_reserved(kid),
            Err(refused) => {
                drop_kids(lot, seat, kids);
                return Err(refused);
            }
        }
    }
    Ok(kids)
}
