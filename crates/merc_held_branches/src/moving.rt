//! How a parent's rights move into the children of its fork.
ghost use Rattle.std.specs.Prelude.{◌≡◌, ◌+◌, ◌++◌, ◌≤◌, ◌<◌, ℕ, List, [], ◌∷◌, length, map, All};
ghost use Rattle.std.specs.Vec.{vec_capacity};
ghost use Rattle.merc_cell.specs.Ends.{consumer_name, producer_name};
ghost use Rattle.merc_board.specs.Rights.{Rights, Due, Owed, waits_kept, signals_kept};
ghost use Rattle.merc_held_branches.specs.Beds.{IsNamed};
ghost use Rattle.merc_held_branches.specs.Lying.{due_of, owed_of, rights, AreNamed};
ghost use Rattle.merc_held_branches.specs.Kids.{AreFor, HaveBerths, with_waits, with_signals};

use crate::branch::{Held, HeldSignal, HeldWait, Hold};
use crate::room::Room;
use crate::sharing::{child_to_signal, child_to_wait, give_signal, give_wait};
use merc_board::{Handover, Load};
use std::mem;

// One of the parent's rights to wait moves into its child, or is kept.
fn move_wait<M: Load, N: Room>(
    kids: &mut Vec<Held<M>>,
    right: HeldWait<M>,
    kept: &mut Vec<HeldWait<M>>,
    given: &[Handover],
)
    requires named { IsNamed N.table (consumer_name right.end) × All (λ right. IsNamed N.table (consumer_name right.end)) kept.old.items }
    requires room { length kept.old.items < vec_capacity kept.old }
    requires kids { (room : ℕ) × (loads : List M) × (has : ℕ → Rights) × AreFor N.table (room + 1) loads has kids.old.items }
    ensures given { (room : ℕ) (loads : List M) (has : ℕ → Rights) (before : List Due) → AreFor N.table (room + 1) loads (with_waits given.now before has) kids.old.items → AreFor N.table room loads (with_waits given.now (before ++ due_of right ∷ []) has) kids.new.items }
    ensures kept { (had before : List Due) → map due_of kept.old.items ≡ had ++ waits_kept given.now before → map due_of kept.new.items ≡ had ++ waits_kept given.now (before ++ due_of right ∷ []) }
    ensures named { All (λ right. IsNamed N.table (consumer_name right.end)) kept.new.items }
    ensures room { (length kept.new.items ≤ length kept.old.items + 1) × (vec_capacity kept.old ≤ vec_capacity kept.new) }
    ensures berths { HaveBerths N.table kids.old.items → HaveBerths N.table kids.new.items }
{
    match child_to_wait(right.variable, given) {
        Some(child) => give_wait::<M, N>(kids, child, right),
        None => kept.push_reserved(right),
    }
}

// The parent's rights to wait that move into children, which are not more than there is room for; it keeps the others.
fn move_waits<M: Load, N: Room>(
    kids: &mut Vec<Held<M>>,
    waits: Vec<HeldWait<M>>,
    kept: &mut Vec<HeldWait<M>>,
    given: &[Handover],
)
    requires named { All (λ right. IsNamed N.table (consumer_name right.end)) waits.items × All (λ right. IsNamed N.table (consumer_name right.end)) kept.old.items }
    requires room { length kept.old.items + length waits.items ≤ vec_capacity kept.old }
    requires kids { (room : ℕ) × (loads : List M) × (has : ℕ → Rights) × AreFor N.table (length waits.items + room) loads has kids.old.items }
    ensures given { (room : ℕ) (loads : List M) (has : ℕ → Rights) → AreFor N.table (length waits.items + room) loads has kids.old.items → AreFor N.table room loads (with_waits given.now (map due_of waits.items) has) kids.new.items }
    ensures kept { map due_of kept.new.items ≡ map due_of kept.old.items ++ waits_kept given.now (map due_of waits.items) }
    ensures named { All (λ right. IsNamed N.table (consumer_name right.end)) kept.new.items }
    ensures berths { HaveBerths N.table kids.old.items → HaveBerths N.table kids.new.items }
{
    for right in waits {
        move_wait::<M, N>(kids, right, kept, given);
    }
}

// One of the parent's rights to signal moves into its child, or is kept.
fn move_signal<M: Load, N: Room>(
    kids: &mut Vec<Held<M>>,
    right: HeldSignal<M>,
    kept: &mut Vec<HeldSignal<M>>,
    given: &[Handover],
)
    requires named { IsNamed N.table (producer_name right.end) × All (λ right. IsNamed N.table (producer_name right.end)) kept.old.items }
    requires room { length kept.old.items < vec_capacity kept.old }
    requires kids { (room : ℕ) × (loads : List M) × (has : ℕ → Rights) × AreFor N.table (room + 1) loads has kids.old.items }
    ensures given { (room : ℕ) (loads : List M) (has : ℕ → Rights) (before : List Owed) → AreFor N.table (room + 1) loads (with_signals given.now before has) kids.old.items → AreFor N.table room loads (with_signals given.now (before ++ owed_of right ∷ []) has) kids.new.items }
    ensures kept { (had before : List Owed) → map owed_of kept.old.items ≡ had ++ signals_kept given.now before → map owed_of kept.new.items ≡ had ++ signals_kept given.now (before ++ owed_of right ∷ []) }
    ensures named { All (λ right. IsNamed N.table (producer_name right.end)) kept.new.items }
    ensures room { (length kept.new.items ≤ length kept.old.items + 1) × (vec_capacity kept.old ≤ vec_capacity kept.new) }
    ensures berths { HaveBerths N.table kids.old.items → HaveBerths N.table kids.new.items }
{
    match child_to_signal(right.variable, given) {
        Some(child) => give_signal::<M, N>(kids, child, right),
        None => kept.push_reserved(right),
    }
}

// .. and its rights to signal.
fn move_signals<M: Load, N: Room>(
    kids: &mut Vec<Held<M>>,
    signals: Vec<HeldSignal<M>>,
    kept: &mut Vec<HeldSignal<M>>,
    given: &[Handover],
)
    requires named { All (λ right. IsNamed N.table (producer_name right.end)) signals.items × All (λ right. IsNamed N.table (producer_name right.end)) kept.old.items }
    requires room { length kept.old.items + length signals.items ≤ vec_capacity kept.old }
    requires kids { (room : ℕ) × (loads : List M) × (has : ℕ → Rights) × AreFor N.table (length signals.items + room) loads has kids.old.items }
    ensures given { (room : ℕ) (loads : List M) (has : ℕ → Rights) → AreFor N.table (length signals.items + room) loads has kids.old.items → AreFor N.table room loads (with_signals given.now (map owed_of signals.items) has) kids.new.items }
    ensures kept { map owed_of kept.new.items ≡ map owed_of kept.old.items ++ signals_kept given.now (map owed_of signals.items) }
    ensures named { All (λ right. IsNamed N.table (producer_name right.end)) kept.new.items }
    ensures berths { HaveBerths N.table kids.old.items → HaveBerths N.table kids.new.items }
{
    for right in signals {
        move_signal::<M, N>(kids, right, kept, given);
    }
}

/// The parent's rights move into the children, or stay behind those to the fork's own cells.
pub fn hand_out<M: Load, N: Room>(
    kids: &mut Vec<Held<M>>,
    hold: &mut Hold<M>,
    behind: Vec<HeldWait<M>>,
    kept: Vec<HeldSignal<M>>,
    given: &[Handover],
)
    requires named { AreNamed N.table hold.old × All (λ right. IsNamed N.table (consumer_name right.end)) behind.items × (kept.items ≡ []) }
    requires room { (length behind.items + length hold.old.waits.items ≤ vec_capacity behind) × (length hold.old.signals.items ≤ vec_capacity kept) }
    requires kids { (room : ℕ) × (loads : List M) × (has : ℕ → Rights) × AreFor N.table (length hold.old.waits.items + (length hold.old.signals.items + room)) loads has kids.old.items }
    ensures given { (room : ℕ) (loads : List M) (has : ℕ → Rights) → AreFor N.table (length hold.old.waits.items + (length hold.old.signals.items + room)) loads has kids.old.items → AreFor N.table room loads (with_signals given.now (rights hold.old).signals (with_waits given.now (rights hold.old).waits has)) kids.new.items }
    ensures rights { rights hold.new ≡ record { waits = map due_of behind.items ++ waits_kept given.now (rights hold.old).waits; signals = signals_kept given.now (rights hold.old).signals } }
    ensures same { (hold.new.berth ≡ hold.old.berth) × (hold.new.place ≡ hold.old.place) × (hold.new.link ≡ hold.old.link) }
    ensures named { AreNamed N.table hold.new }
    ensures berths { HaveBerths N.table kids.old.items → HaveBerths N.table kids.new.items }
{
    let waits = mem::replace(&mut hold.waits, behind);
    move_waits::<M, N>(kids, waits, &mut hold.waits, given);
    let signals = mem::replace(&mut hold.signals, kept);
    move_signals::<M, N>(kids, signals, &mut hold.signals, given);
}
