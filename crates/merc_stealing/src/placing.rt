//! How the children of a fork get their places in its join.
ghost use Rattle.std.specs.Prelude.{◌≡◌, ◌≤◌, [], length, suc};
ghost use Rattle.std.specs.Vec.{vec_capacity};
ghost use Rattle.merc_script.specs.Places.{left_of};
ghost use Rattle.merc_yard.specs.declared.spot.Spot.{Spot};
ghost use Rattle.merc_yard.specs.declared.spot.Fill.TheVariants.{Filled};
ghost use Rattle.merc_yard.specs.declared.spot.Purpose.TheVariants.{Ready, Forks};
ghost use Rattle.merc_yard.specs.Yards.{yard_table};
ghost use Rattle.merc_yard.specs.Berths.{IsVacant, spot_of};
ghost use Rattle.merc_join.specs.Tickets.{ticket_parent, ticket_child, ticket_children};
ghost use Rattle.merc_held_branches.specs.Spots.{place, child_spot, fork_count};
ghost use Rattle.merc_held_branches.specs.Beds.{IsMoored};
ghost use Rattle.merc_held_branches.specs.Kids.{KidFits, AreMade};

use crate::mooring::moor_ready;
use crate::seat::Spark;
use merc_board::Load;
use merc_held_branches::{Bed, Held, Lot, Room};
use merc_join::Ticket;
use merc_yard::{Berth, NextSpot};
use std::marker::{Brand, PhantomData};

fn move_as<M: Load, C: NextSpot>(lot: &Lot<M>, berth: Berth, _ticket: &Ticket<Bed<M>>) -> Berth
    requires { (old : Spot) × IsVacant (yard_table lot.now) old berth }
    ensures { IsVacant (yard_table lot.now) C.spot result }
{
    lot.move_to::<C>(berth)
}

// The berth is from now on for the beginning of the ticket's child.
fn child_berth<M: Load>(lot: &Lot<M>, berth: Berth, ticket: &Ticket<Bed<M>>) -> Berth
    requires { (old : Spot) × IsVacant (yard_table lot.now) old berth }
    ensures { IsVacant (yard_table lot.now) (child_spot (spot_of (ticket_parent ticket.now).berth) (suc (ticket_child ticket.now))) result }
{
    move_as::<M, Brand>(lot, berth, ticket)
}

// The child lies in its berth, with its place in the join, and can be taken.
fn place_child<M: Load>(lot: &Lot<M>, mut kid: Held<M>, ticket: Ticket<Bed<M>>) -> Berth
    requires kid { KidFits M.root M.stands (yard_table lot.now) (ticket_parent ticket).berth (ticket_child ticket) kid.value }
    requires parent { IsMoored (yard_table lot.now) Filled Forks (ticket_parent ticket).berth }
    requires count { ticket_children ticket ≡ fork_count (left_of (place M.root (spot_of (ticket_parent ticket).berth))) }
    ensures { IsMoored (yard_table lot.now) Filled Ready result }
{
    match kid.hold.berth.take() {
        Some(berth) => {
            kid.hold.berth = Some(child_berth(lot, berth, &ticket));
            kid.hold.place = Some(ticket);
            moor_ready(lot, kid)
        }
        None => unreachable!(),
    }
}

/// Gives the children their places, the last child first.
pub(crate) fn deal<M: Load, N: Room>(
    lot: &Lot<M>,
    mut kids: Vec<Held<M>>,
    mut tickets: Vec<Ticket<Bed<M>>>,
    mut sparks: Vec<Spark<N>>,
) -> Vec<Spark<N>>
    requires tied { yard_table lot.now ≡ N.table }
    requires made { AreMade M.root M.stands N.table kids.items tickets.items }
    requires room { (sparks.items ≡ []) × (length tickets.items ≤ vec_capacity sparks) }
    ensures { length result.items ≡ length tickets.items }
{
    while let (Some(ticket), Some(kid)) = (tickets.pop(), kids.pop()) {
        sparks.push_reserved(Spark {
            berth: place_child(lot, kid, ticket),
            of: PhantomData,
        });
    }
    sparks
}
