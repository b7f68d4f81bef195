//! How rights are taken out of a branch.
ghost use Rattle.std.specs.Prelude.{◌≡◌, ◌+◌, ◌<◌, ℕ, suc, Option, Some, None, IfSome, IfNone, length, drop};
ghost use Rattle.atomic_table.specs.Seated.{TableId};
ghost use Rattle.merc_cell.specs.Ends.{consumer_name, producer_name};
ghost use Rattle.merc_board.specs.Rights.{wait_for, signal_for, TookWait, TookSignal, is_sooner};
ghost use Rattle.merc_held_branches.specs.Beds.{IsNamed, cell_named};
ghost use Rattle.merc_held_branches.specs.Lying.{AreNamed, rights};
ghost use Rattle.merc_held_branches.specs.Picking.{lifted, consumer_at, wait_place as place_to_wait, signal_place as place_to_signal, IsKept};

use crate::branch::{HeldSignal, HeldWait, Hold};
use merc_board::Load;
use merc_goal_tree::Var;

fn wait_place<M: Load>(variable: Var, waits: &[HeldWait<M>]) -> Option<usize>
    ensures { result ≡ place_to_wait 0 variable waits.now }
{
    for (place, right) in waits.iter().enumerate() {
        if right.variable == variable {
            return Some(place);
        }
    }
    None
}

/// Takes the first right to wait for a variable out.
pub fn take_wait<M: Load>(hold: &mut Hold<M>, variable: Var) -> Option<HeldWait<M>>
    ensures none { IfNone result (wait_for variable (rights hold.old).waits ≡ None) }
    ensures some { IfSome result (λ right. TookWait variable (rights hold.old) (rights hold.new) (cell_named (consumer_name right.end))) }
    ensures kept { IsKept hold.old hold.new }
    ensures named { IfSome result (λ right. (table : TableId) → AreNamed table hold.old → IsNamed table (consumer_name right.end)) }
{
    match wait_place(variable, &hold.waits) {
        Some(place) => Some(hold.waits.remove(place)),
        None => None,
    }
}

// The children come in order, and the parent behind them.
fn comes_sooner(child: usize, other: usize) -> bool
    ensures { result ≡ is_sooner child other }
{
    child != 0 && (other == 0 || child < other)
}

// The child for which the right at a place is, 0 where none is there.
fn consumer_of<M: Load>(signals: &[HeldSignal<M>], place: usize) -> usize
    ensures { result ≡ consumer_at signals.now place }
{
    if place < signals.len() {
        let right = &signals[place];
        right.consumer
    } else {
        0
    }
}

// Of the right at a place and the one that is used of those behind it, the one that is used.
fn sooner_place<M: Load>(
    variable: Var,
    signals: &[HeldSignal<M>],
    place: usize,
    behind: Option<usize>,
) -> Option<usize>
    requires place { place < length signals.now }
    requires behind { behind ≡ lifted (suc place) (place_to_signal variable (drop (suc place) signals.now)) }
    ensures { result ≡ lifted place (place_to_signal variable (drop place signals.now)) }
{
    let right = &signals[place];
    if right.variable != variable {
        return behind;
    }
    let Some(next) = behind else {
        return Some(place);
    };
    if comes_sooner(consumer_of(signals, next), right.consumer) {
        Some(next)
    } else {
        Some(place)
    }
}

fn signal_place<M: Load>(variable: Var, signals: &[HeldSignal<M>]) -> Option<usize>
    ensures { result ≡ place_to_signal variable signals.now }
{
    let mut used = None;
    let mut place = signals.len();
    while 0 < place {
        place -= 1;
        used = sooner_place(variable, signals, place, used);
    }
    used
}

/// Takes the right to signal a variable out that is used first.
pub fn take_signal<M: Load>(hold: &mut Hold<M>, variable: Var) -> Option<HeldSignal<M>>
    ensures none { IfNone result (signal_for variable (rights hold.old).signals ≡ None) }
    ensures some { IfSome result (λ right. TookSignal variable (rights hold.old) (rights hold.new) (cell_named (producer_name right.end))) }
    ensures kept { IsKept hold.old hold.new }
    ensures named { IfSome result (λ right. (table : TableId) → AreNamed table hold.old → IsNamed table (producer_name right.end)) }
{
    match signal_place(variable, &hold.signals) {
        Some(place) => Some(hold.signals.remove(place)),
        None => None,
    }
}
