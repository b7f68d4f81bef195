//! The steps of a ticket, on a seat that is lent, so that a clause can say what the seat knows afterwards. And the law
//! that one ticket is the last.
ghost use Rattle.std.specs.Prelude.{◌≡◌, ◌+◌, ◌<◌, ◌≤◌, ℕ, List, length};
ghost use mathlib.Core.Option.{Option};
ghost use Rattle.merc_join.specs.declared.stub.Slot.{Slot};
ghost use Rattle.merc_join.specs.declared.stub.Slot.TheVariants.{Empty, Ended};
ghost use Rattle.merc_join.specs.declared.stub.Stage.TheVariants.{Last, Over};
ghost use Rattle.merc_join.specs.declared.stub.Stub.{Stub};
ghost use Rattle.merc_join.specs.Join.{stub, Reached, IsBegun, IsSeated, OneIsLast, most_children};
ghost use Rattle.merc_join.specs.Answers.{AreOutcomes, IsDone};

use crate::outcomes::{Finished, Outcomes};
use crate::rule::{Count, Forked, Grab, TakeOutcome, TakeParent, Word};
use crate::stub::{Slot, Stub};
use atomic_table::Seat;
use merc_script::Outcome;

/// A seat of a join.
pub type JoinSeat<P> = Seat<Slot<P>, Stub<P>>;

pub(crate) fn drop_empty<P: Drop>(slot: Slot<P>)
    requires { slot ≡ Empty }
{
    drop(slot);
}

// The outcome of the next child that the last seat has not taken.
fn take_outcome<P: Forked>(word: &Word<P>, seat: &mut JoinSeat<P>, child: usize) -> Outcome
    requires { IsSeated seat.old.table_id word.now.table_id × (seat.old.me.0.stage ≡ Last) × (seat.old.me.0.taken ≡ child) × (child + 1 < word.now.table_id.slots) }
    ensures seat { (seat.new.table_id ≡ seat.old.table_id) × (seat.new.me.0 ≡ stub seat.old.me.0.parent seat.old.me.0.child seat.old.me.0.many Last seat.old.me.0.put (child + 1)) }
    ensures outcome { P.ends seat.old.me.0.parent child result }
    ensures own { child ≡ seat.old.me.0.child → seat.old.me.0.put ≡ Ended result }
{
    word.load::<TakeOutcome>(seat, 0);
    match word.exchange(seat, child, Slot::Empty) {
        Slot::Ended(outcome) => outcome,
        Slot::Empty | Slot::Parent(_) => unreachable!(),
    }
}

// The outcomes of all children.
fn take_outcomes<P: Forked>(word: &Word<P>, seat: &mut JoinSeat<P>, children: usize) -> Outcomes
    requires { IsSeated seat.old.table_id word.now.table_id × (seat.old.me.0.stage ≡ Last) × (seat.old.me.0.taken ≡ 0) × (children + 1 ≡ word.now.table_id.slots) × (children ≤ most_children) }
    ensures seat { (seat.new.table_id ≡ seat.old.table_id) × (seat.new.me.0 ≡ stub seat.old.me.0.parent seat.old.me.0.child seat.old.me.0.many Last seat.old.me.0.put children) }
    ensures outcomes { (length result ≡ children) × AreOutcomes P.ends seat.old.me.0.parent seat.old.me.0.child seat.old.me.0.put result }
{
    let mut outcomes = Outcomes::none();
    for child in 0..children {
        outcomes.push(take_outcome(word, seat, child));
    }
    outcomes
}

fn take_parent<P: Forked>(word: &Word<P>, seat: &mut JoinSeat<P>, children: usize) -> P
    requires { IsSeated seat.old.table_id word.now.table_id × (seat.old.me.0.stage ≡ Last) × (seat.old.me.0.taken ≡ children) × (children + 1 ≡ word.now.table_id.slots) }
    ensures seat { (seat.new.table_id ≡ seat.old.table_id) × (seat.new.me.0 ≡ stub seat.old.me.0.parent seat.old.me.0.child seat.old.me.0.many Over seat.old.me.0.put children) }
    ensures parent { result ≡ seat.old.me.0.parent }
{
    word.load::<TakeParent>(seat, 0);
    match word.exchange(seat, children, Slot::Empty) {
        Slot::Parent(parent) => parent,
        Slot::Empty | Slot::Ended(_) => unreachable!(),
    }
}

/// Puts the outcome and counts the child. Where no other child was still to come, all outcomes are taken, and the parent.
pub fn done_on<P: Forked + Drop>(
    word: &Word<P>,
    seat: &mut JoinSeat<P>,
    child: usize,
    children: usize,
    outcome: Outcome,
) -> Option<Finished<P>>
    requires seat { IsSeated seat.old.table_id word.now.table_id × IsBegun child seat.old.me }
    requires children { (child < children) × (children + 1 ≡ word.now.table_id.slots) × (children ≤ most_children) }
    requires end { P.ends seat.old.me.0.parent child outcome }
    ensures table { seat.new.table_id ≡ seat.old.table_id }
    ensures done { IsDone P.ends seat.old.me.0.parent child children outcome seat.new.me.0 result }
{
    word.load::<Grab>(seat, 0);
    drop_empty(word.exchange(seat, child, Slot::Ended(outcome)));
    let found = word.fetch_sub::<Count>(seat, 0, 1);
    if found != 1 {
        return None;
    }
    let outcomes = take_outcomes(word, seat, children);
    let parent = take_parent(word, seat, children);
    Some(Finished { outcomes, parent })
}

/// Whatever the steps before: one seat at most is the last; where one is, all seats have counted their children; and
/// where all have, one is the last.
pub fn one_is_last<P: Forked>()
    ensures { (parent : P) (words : List ℕ) (homes : List (Option (Slot P))) (seats : List (Stub P)) → Reached P.ends parent words homes seats → OneIsLast seats }
{}
