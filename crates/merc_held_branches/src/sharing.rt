//! How rights are handed out at a fork.
ghost use Rattle.std.specs.Prelude.{◌≡◌, ◌+◌, ◌<◌, ℕ, List, true, false, length};
ghost use Rattle.std.specs.Vec.{vec_capacity};
ghost use Rattle.merc_cell.specs.Ends.{consumer_name, producer_name};
ghost use Rattle.merc_board.specs.Rights.{Rights, child_for};
ghost use Rattle.merc_held_branches.specs.Beds.{IsNamed};
ghost use Rattle.merc_held_branches.specs.Lying.{due_of, owed_of};
ghost use Rattle.merc_held_branches.specs.Kids.{AreFor, HaveBerths, GotWait, GotSignal, with_wait, with_signal};

use crate::branch::{Held, HeldSignal, HeldWait};
use crate::room::Room;
use merc_board::{Handover, Load};
use merc_goal_tree::Var;

/// The child into which the rights to signal a variable move.
pub(crate) fn child_to_signal(variable: Var, given: &[Handover]) -> Option<usize>
    ensures { result ≡ child_for true variable given.now }
{
    for one in given {
        if one.variable == variable && one.signal {
            return Some(one.child);
        }
    }
    None
}

/// The child into which the rights to wait for a variable move.
pub(crate) fn child_to_wait(variable: Var, given: &[Handover]) -> Option<usize>
    ensures { result ≡ child_for false variable given.now }
{
    for one in given {
        if one.variable == variable && !one.signal {
            return Some(one.child);
        }
    }
    None
}

fn push_wait<M: Load>(kid: &mut Held<M>, right: HeldWait<M>)
    requires { length kid.old.value.hold.waits.items < vec_capacity kid.old.value.hold.waits }
    ensures { GotWait right kid.old.value kid.new.value }
{
    kid.hold.waits.push_reserved(right);
}

fn push_signal<M: Load>(kid: &mut Held<M>, right: HeldSignal<M>)
    requires { length kid.old.value.hold.signals.items < vec_capacity kid.old.value.hold.signals }
    ensures { GotSignal right kid.old.value kid.new.value }
{
    kid.hold.signals.push_reserved(right);
}

/// A right to wait more for a child, where there is one of this number.
pub(crate) fn give_wait<M: Load, N: Room>(kids: &mut Vec<Held<M>>, child: usize, right: HeldWait<M>)
    requires named { IsNamed N.table (consumer_name right.end) }
    requires kids { (room : ℕ) × (loads : List M) × (has : ℕ → Rights) × AreFor N.table (room + 1) loads has kids.old.items }
    ensures given { (room : ℕ) (loads : List M) (has : ℕ → Rights) → AreFor N.table (room + 1) loads has kids.old.items → AreFor N.table room loads (with_wait child (due_of right) has) kids.new.items }
    ensures berths { HaveBerths N.table kids.old.items → HaveBerths N.table kids.new.items }
{
    if 0 < child {
        if child <= kids.len() {
            push_wait(&mut kids[child - 1], right);
        }
    }
}

/// A right to signal more for a child, where there is one of this number.
pub(crate) fn give_signal<M: Load, N: Room>(
    kids: &mut Vec<Held<M>>,
    child: usize,
    right: HeldSignal<M>,
)
    requires named { IsNamed N.table (producer_name right.end) }
    requires kids { (room : ℕ) × (loads : List M) × (has : ℕ → Rights) × AreFor N.table (room + 1) loads has kids.old.items }
    ensures given { (room : ℕ) (loads : List M) (has : ℕ → Rights) → AreFor N.table (room + 1) loads has kids.old.items → AreFor N.table room loads (with_signal child (owed_of right) has) kids.new.items }
    ensures berths { HaveBerths N.table kids.old.items → HaveBerths N.table kids.new.items }
{
    if 0 < child {
        if child <= kids.len() {
            push_signal(&mut kids[child - 1], right);
        }
    }
}
