//! How a join is made.
ghost use Rattle.std.specs.Prelude.{◌≡◌, ◌+◌, ◌-◌, ◌<◌, ◌≤◌, [], length, replicate, All, IfOk, MatchResult};
ghost use Rattle.std.specs.Arc.{arc_value};
ghost use Rattle.merc_join.specs.declared.stub.Slot.TheVariants.{Empty};
ghost use Rattle.merc_join.specs.Join.{IsSeated, first_stub, begun, most_children};
ghost use Rattle.merc_join.specs.Room.{IsRoom, IsFresh, IsReady};
ghost use Rattle.merc_join.specs.Tickets.{AreTickets, ticket_child, ticket_parent};

use crate::ends::{Join, Ticket};
use crate::rule::{Bring, FirstChild, Forked, JoinKey, TakePlace, Word};
use crate::steps::{JoinSeat, drop_empty};
use crate::stub::Slot;
use atomic_table::Table;
use merc_base::NoMemory;
use std::alloc::Global;
use std::snapshot::Snapshot;
use std::sync::Arc;

// All memory of a join, with its first seat.
struct Room<P: Forked> {
    table: Arc<Join<P>>,
    others: Vec<Arc<Join<P>>>,
    seat: JoinSeat<P>,
    tickets: Vec<Ticket<P>>,
}

fn empty_slots<P: Drop>(alloc: Global, count: usize) -> Result<Vec<Slot<P>>, NoMemory>
    ensures { IfOk result (λ slots. slots.items ≡ replicate count Empty) }
{
    let mut slots = Vec::with_capacity(alloc, count)?;
    for i in 0..count {
        slots.push(Slot::Empty)?;
    }
    Ok(slots)
}

fn other_owners<P: Forked + Drop>(
    alloc: Global,
    table: &Arc<Join<P>>,
    count: usize,
) -> Result<Vec<Arc<Join<P>>>, NoMemory>
    ensures { IfOk result (λ owners. (length owners.items ≡ count) × All (λ owner. arc_value owner ≡ arc_value table.now) owners.items) }
{
    let mut owners = Vec::with_capacity(alloc, count)?;
    for i in 0..count {
        owners.push(Arc::try_clone(table)?)?;
    }
    Ok(owners)
}

// Takes all memory of a join.
fn take_room<P: Forked + Drop>(
    alloc: Global,
    children: usize,
    key: &JoinKey<P>,
) -> Result<Room<P>, NoMemory>
    requires { (0 < children) × (children ≤ most_children) × (key.now.children ≡ children) }
    ensures { IfOk result (λ room. IsRoom children room × IsFresh key.now.parent.value children room) }
{
    let slots = empty_slots(alloc, children + 1)?;
    let Ok((table, seat)) = Table::new(alloc, &[children as u64], slots, key) else {
        return Err(NoMemory);
    };
    let table = Arc::new(alloc, table)?;
    let others = other_owners(alloc, &table, children - 1)?;
    let tickets = Vec::with_capacity(alloc, children)?;
    Ok(Room {
        table,
        others,
        seat,
        tickets,
    })
}

fn bring_parent<P: Forked + Drop>(
    word: &Word<P>,
    seat: &mut JoinSeat<P>,
    children: usize,
    parent: P,
)
    requires { IsSeated seat.old.table_id word.now.table_id × (seat.old.me ≡ (first_stub parent children, [])) × (word.now.key.parent.value ≡ parent) }
    ensures { (seat.new.table_id ≡ seat.old.table_id) × (seat.new.me ≡ (begun parent 0 children, [])) }
{
    word.load::<TakePlace>(seat, 0);
    drop_empty(word.exchange(seat, children, Slot::Parent(parent)));
    word.load::<Bring>(seat, 0);
}

// The ticket of the first child that a seat stands for.
fn split_ticket<P: Forked + Drop>(
    table: Arc<Join<P>>,
    seat: &mut JoinSeat<P>,
    child: usize,
) -> Ticket<P>
    requires table { IsSeated seat.old.table_id (arc_value table).shared.table_id }
    requires within { (child + 1 < (arc_value table).shared.table_id.slots) × ((arc_value table).shared.table_id.slots ≤ most_children + 1) }
    requires view { (seat.old.me ≡ (begun seat.old.me.0.parent child seat.old.me.0.many, [])) × (1 < seat.old.me.0.many) }
    ensures seat { (seat.new.table_id ≡ seat.old.table_id) × (seat.new.me ≡ (begun seat.old.me.0.parent (child + 1) (seat.old.me.0.many - 1), [])) }
    ensures ticket { (ticket_child result ≡ child) × (ticket_parent result ≡ seat.old.me.0.parent) × (result.seat.table_id ≡ seat.old.table_id) }
{
    let first = table.shared.split_seat::<FirstChild>(seat);
    Ticket {
        table,
        seat: first,
        child,
    }
}

// Gives each child a seat of its own.
fn deal<P: Forked + Drop>(room: Room<P>, children: usize) -> Vec<Ticket<P>>
    requires { (children ≤ most_children) × IsReady children room }
    ensures { AreTickets children room.seat.me.0.parent result.items }
{
    let Room {
        table,
        mut others,
        mut seat,
        mut tickets,
    } = room;
    while let Some(owner) = others.pop() {
        let child = tickets.len();
        tickets.push_reserved(split_ticket(owner, &mut seat, child));
    }
    let child = tickets.len();
    tickets.push_reserved(Ticket { table, seat, child });
    tickets
}

/// A ticket for each child of the parent, in order.
///
/// # Errors
///
/// `NoMemory` where memory was refused. The parent comes back.
pub fn new_join<P: Forked + Drop>(
    alloc: Global,
    children: u32,
    parent: P,
) -> Result<Vec<Ticket<P>>, (P, NoMemory)>
    requires { (0 < children) × (children ≤ most_children) }
    ensures { MatchResult result (λ tickets. AreTickets children parent tickets.items) (λ refused. refused.0 ≡ parent) }
{
    let count = children as usize;
    let key = JoinKey {
        parent: Snapshot::of(&parent),
        children: children as u64,
    };
    match take_room(alloc, count, &key) {
        Ok(mut room) => {
            bring_parent(&room.table.shared, &mut room.seat, count, parent);
            Ok(deal(room, count))
        }
        Err(refused) => Err((parent, refused)),
    }
}
