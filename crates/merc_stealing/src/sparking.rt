//! How sparks are put and taken.
ghost use Rattle.merc_yard.specs.Yards.{yard_table};
ghost use Rattle.std.specs.Prelude.{◌≡◌, ◌≢◌, ◌<◌, ℕ, Option, Some, None, IfSome, IfNone, length, slice_get};
ghost use Rattle.crossbeam_deque.specs.Handles.{IsPassOf, stealer_deque, view, worker_view};
ghost use Rattle.merc_deque.specs.History.{Emptied, HeldFew};
ghost use Rattle.merc_held_branches.specs.Lying.{LiesIn};
ghost use Rattle.merc_held_branches.specs.Owning.{Runs, IsTaken};
ghost use Rattle.merc_stealing.specs.Seats.{ArePasses};
ghost use Rattle.merc_stealing.specs.Stolen.{StoleNone};

use crate::mooring::{moor_ready, unmoor};
use crate::seat::{Seat, Spark};
use merc_board::Load;
use merc_deque::{Pass, Stolen, Thief};
use merc_held_branches::{Held, Lot, Room};
use std::marker::PhantomData;
use std::sync::Wait;

/// Takes a spark's branch out of its berth, with the next of its chain.
pub(crate) fn take_spark<M: Load, N: Room>(
    lot: &Lot<M>,
    spark: Spark<N>,
) -> (Held<M>, Option<Spark<N>>)
    requires { yard_table lot.now ≡ N.table }
    ensures { IsTaken M.root M.stands M.awaits M.forked M.shows N.table result.0.value }
{
    let Spark { berth, of: _ } = spark;
    let mut branch = unmoor(lot, berth);
    match branch.hold.link.take() {
        Some(berth) => (
            branch,
            Some(Spark {
                berth,
                of: PhantomData,
            }),
        ),
        None => (branch, None),
    }
}

// Puts a spark in front of a chain.
fn link_spark<M: Load, N: Room>(lot: &Lot<M>, spark: Spark<N>, head: Spark<N>) -> Spark<N>
    requires { yard_table lot.now ≡ N.table }
{
    let (mut branch, _) = take_spark(lot, spark);
    let Spark { berth, of: _ } = head;
    branch.hold.link = Some(berth);
    Spark {
        berth: moor_ready(lot, branch),
        of: PhantomData,
    }
}

/// Puts a spark at the back of the worker's list.
pub(crate) fn push_spark<M: Load, N: Room>(lot: &Lot<M>, seat: &mut Seat<N>, spark: Spark<N>)
    requires { yard_table lot.now ≡ N.table }
    ensures { seat.new.passes ≡ seat.old.passes }
{
    match seat.chain.take() {
        Some(head) => seat.chain = Some(link_spark(lot, spark, head)),
        None => {
            if let Err(spark) = seat.sparks.push(spark) {
                seat.chain = Some(spark);
            }
        }
    }
}

/// Takes the spark at the back of the worker's list.
pub(crate) fn pop_spark<M: Load, N: Room>(lot: &Lot<M>, seat: &mut Seat<N>) -> Option<Held<M>>
    requires { yard_table lot.now ≡ N.table }
    ensures same { seat.new.passes ≡ seat.old.passes }
    ensures taken { IfSome result (λ branch. IsTaken M.root M.stands M.awaits M.forked M.shows N.table branch.value) }
    ensures none { IfNone result ((seat.old.chain ≡ None) × Emptied (worker_view seat.old.sparks.worker) × (seat.new.number ≡ seat.old.number)) }
{
    if let Some(spark) = seat.chain.take() {
        let (branch, rest) = take_spark(lot, spark);
        seat.chain = rest;
        return Some(branch);
    }
    match seat.sparks.pop() {
        Some(spark) => Some(take_spark(lot, spark).0),
        None => None,
    }
}

/// Steals at the front of a list, again as long as another was quicker.
pub(crate) fn steal_from<N: Room, R: Wait>(
    rt: &R,
    thief: &Thief<Spark<N>>,
    pass: &mut Pass<Spark<N>>,
) -> Option<Spark<N>>
    requires { IsPassOf (stealer_deque thief.now.stealer) pass.old }
    ensures pass { IsPassOf (stealer_deque thief.now.stealer) pass.new }
    ensures none { IfNone result (HeldFew (view pass.new)) }
{
    for _ in rt.forever() {
        match thief.steal(pass) {
            Stolen::Got(spark) => return Some(spark),
            Stolen::Few => return None,
            Stolen::Again => {}
        }
    }
    unreachable!()
}

/// Steals from the first of the other workers that has a spark to spare.
pub(crate) fn steal_spark<N: Room, R: Wait>(
    rt: &R,
    thieves: &[Thief<Spark<N>>],
    seat: &mut Seat<N>,
) -> Option<Spark<N>>
    requires { ArePasses thieves.now seat.old.passes.items }
    ensures passes { ArePasses thieves.now seat.new.passes.items }
    ensures none { IfNone result ((i : ℕ) (pass : _) → i < length thieves.now → i ≢ seat.old.number → slice_get seat.new.passes.items i ≡ Some pass → HeldFew (view pass)) }
{
    for other in 0..thieves.len() {
        if let Some(spark) = steal_at(rt, thieves, seat, other) {
            return Some(spark);
        }
    }
    None
}

// Steals from another worker.
fn steal_at<N: Room, R: Wait>(
    rt: &R,
    thieves: &[Thief<Spark<N>>],
    seat: &mut Seat<N>,
    other: usize,
) -> Option<Spark<N>>
    requires { ArePasses thieves.now seat.old.passes.items × (other < length thieves.now) }
    ensures passes { ArePasses thieves.now seat.new.passes.items }
    ensures number { seat.new.number ≡ seat.old.number }
    ensures none { IfNone result (StoleNone other seat.old.number seat.old.passes.items seat.new.passes.items) }
{
    if other == seat.number {
        return None;
    }
    steal_from(rt, &thieves[other], &mut seat.passes[other])
}
