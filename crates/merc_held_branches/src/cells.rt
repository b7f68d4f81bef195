//! The cells of a fork.
ghost use Rattle.std.specs.Prelude.{◌≡◌, ◌+◌, ◌*◌, ◌++◌, ◌≤◌, ◌<◌, ℕ, List, [], ◌∷◌, length, map, All, IfOk, OnOk};
ghost use Rattle.std.specs.Vec.{vec_capacity};
ghost use Rattle.merc_cell.specs.Ends.{consumer_name, producer_name};
ghost use Rattle.merc_board.specs.declared.fork.SharedCell.{SharedCell};
ghost use Rattle.merc_board.specs.Rights.{Rights, no_rights, own_waits};
ghost use Rattle.merc_held_branches.specs.Beds.{IsNamed, cell_name, cell_named};
ghost use Rattle.merc_held_branches.specs.Lying.{due_of};
ghost use Rattle.merc_held_branches.specs.Owning.{spot_held};
ghost use Rattle.merc_held_branches.specs.Kids.{AreFor, HaveBerths};
ghost use Rattle.merc_held_branches.specs.Sharing.{cells_ahead, number_at, own_rights};

use crate::branch::{Held, HeldSignal, HeldWait, Hold};
use crate::room::Room;
use crate::sharing::{give_signal, give_wait};
use crate::types::{Bed, Given};
use merc_base::NoMemory;
use merc_board::{Load, SharedCell};
use merc_cell::{CellName, Consumer, Producer, new_cell};
use std::alloc::Global;
use std::marker::Brand;

/// The two ends of a cell.
pub type Ends<M> = (Producer<Given<M>, Bed<M>>, Consumer<Given<M>, Bed<M>>);

fn cell_as<M: Load, C: CellName>(
    alloc: Global,
    _hold: &Hold<M>,
    _place: usize,
) -> Result<Ends<M>, NoMemory>
    ensures { IfOk result (λ ends. (producer_name ends.0 ≡ C.name) × (consumer_name ends.1 ≡ C.name)) }
{
    new_cell::<Given<M>, Bed<M>, C>(alloc)
}

// A cell of the fork at which the branch parks next, by its place among them.
fn cell_ahead<M: Load>(alloc: Global, hold: &Hold<M>, place: usize) -> Result<Ends<M>, NoMemory>
    ensures producer { IfOk result (λ ends. producer_name ends.0 ≡ cell_name (spot_held hold.now.berth).yard.table_id (number_at (cells_ahead M.root (spot_held hold.now.berth)) place)) }
    ensures consumer { IfOk result (λ ends. consumer_name ends.1 ≡ cell_name (spot_held hold.now.berth).yard.table_id (number_at (cells_ahead M.root (spot_held hold.now.berth)) place)) }
{
    cell_as::<M, Brand>(alloc, hold, place)
}

// The rights to one cell of a fork, under its variable: its producer may signal it, and its consumer may wait for it.
fn share_cell<M: Load, N: Room>(
    kids: &mut Vec<Held<M>>,
    behind: &mut Vec<HeldWait<M>>,
    one: SharedCell,
    ends: Ends<M>,
)
    requires named { IsNamed N.table (producer_name ends.0) × IsNamed N.table (consumer_name ends.1) × All (λ right. IsNamed N.table (consumer_name right.end)) behind.old.items }
    requires same { cell_named (producer_name ends.0) ≡ cell_named (consumer_name ends.1) }
    requires room { length behind.old.items < vec_capacity behind.old }
    requires kids { (room : ℕ) × (loads : List M) × (has : ℕ → Rights) × AreFor N.table (room + 1 + 1) loads has kids.old.items }
    ensures given { (room : ℕ) (loads : List M) (before : List SharedCell) (cells : List ℕ) → length before ≡ length cells → AreFor N.table (room + 1 + 1) loads (own_rights before cells) kids.old.items → AreFor N.table room loads (own_rights (before ++ one ∷ []) (cells ++ cell_named (consumer_name ends.1) ∷ [])) kids.new.items }
    ensures behind { (before : List SharedCell) (cells : List ℕ) → length before ≡ length cells → map due_of behind.old.items ≡ own_waits 0 before cells → map due_of behind.new.items ≡ own_waits 0 (before ++ one ∷ []) (cells ++ cell_named (consumer_name ends.1) ∷ []) }
    ensures named { All (λ right. IsNamed N.table (consumer_name right.end)) behind.new.items }
    ensures room { (length behind.new.items ≤ length behind.old.items + 1) × (vec_capacity behind.old ≤ vec_capacity behind.new) }
    ensures berths { HaveBerths N.table kids.old.items → HaveBerths N.table kids.new.items }
{
    let (producer, consumer) = ends;
    let signal = HeldSignal {
        variable: one.variable,
        consumer: one.consumer,
        end: producer,
    };
    give_signal::<M, N>(kids, one.producer, signal);
    let wait = HeldWait {
        variable: one.variable,
        end: consumer,
    };
    if one.consumer == 0 {
        behind.push_reserved(wait);
    } else {
        give_wait::<M, N>(kids, one.consumer, wait);
    }
}

/// The rights to the cells of the fork at which the branch parks next: the children's, and the branch's own behind it.
pub fn share_cells<M: Load, N: Room>(
    alloc: Global,
    kids: &mut Vec<Held<M>>,
    hold: &Hold<M>,
    behind: &mut Vec<HeldWait<M>>,
    shared: &[SharedCell],
) -> Result<(), NoMemory>
    requires yard { (spot_held hold.now.berth).yard.table_id ≡ N.table }
    requires count { length (cells_ahead M.root (spot_held hold.now.berth)) ≡ length shared.now }
    requires room { (behind.old.items ≡ []) × (length shared.now ≤ vec_capacity behind.old) }
    requires kids { (room : ℕ) × (loads : List M) × AreFor N.table (2 * length shared.now + room) loads (λ _. no_rights) kids.old.items }
    ensures given { OnOk result ((room : ℕ) (loads : List M) → AreFor N.table (2 * length shared.now + room) loads (λ _. no_rights) kids.old.items → AreFor N.table room loads (own_rights shared.now (cells_ahead M.root (spot_held hold.now.berth))) kids.new.items) }
    ensures behind { OnOk result (map due_of behind.new.items ≡ own_waits 0 shared.now (cells_ahead M.root (spot_held hold.now.berth))) }
    ensures named { All (λ right. IsNamed N.table (consumer_name right.end)) behind.new.items }
    ensures room { (length behind.new.items ≤ length shared.now) × (vec_capacity behind.old ≤ vec_capacity behind.new) }
    ensures berths { HaveBerths N.table kids.old.items → HaveBerths N.table kids.new.items }
{
    for (place, one) in shared.iter().enumerate() {
        let ends = cell_ahead(alloc, hold, place)?;
        share_cell::<M, N>(kids, behind, *one, ends);
    }
    Ok(())
}
