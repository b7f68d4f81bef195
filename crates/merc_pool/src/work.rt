//! Workers, each in a thread of its own where one can be made.
ghost use Rattle.std.specs.Prelude.{◌<◌, length};
ghost use Rattle.merc_pool.specs.Hands.{IsAllowed, IsAtWork};
ghost use Rattle.merc_pool.specs.Shares.{AreShares};
ghost use Rattle.merc_pool.specs.Working.{AllAtWork, AllDone, DoneWith, FoundIs, IsDone, WorksWith};

use crate::engine::Engine;
use crate::hand::Hand;
use crate::load::{Asked, Carried};
use crate::shared::{Shared, Slot, Worker};
use crate::turn::{take, turn};
use merc_base::Gate;
use merc_board::Board;
use std::sync::Wait;
use std::thread::Threads;
use std::{mem, thread};

// Makes a worker's turns until it has the root back, or the run is over.
fn work<M: Engine, N: Asked + Send, B: Board<Carried<M, N>>, G: Gate, R: Wait>(
    rt: &R,
    shared: &Shared<B>,
    gate: &G,
    worker: &mut Worker<B::Seat>,
    mut hand: Hand<Carried<M, N>, B::Hold>,
) -> Hand<Carried<M, N>, B::Hold>
    requires sites { AreShares N.sites shared.now.sites.items }
    requires work { IsAtWork M.Engine N.Asked B.Board shared.now.board worker.old hand }
    ensures { IsDone M.Engine N.Asked B.Board shared.now.board worker.new result }
{
    for _ in rt.forever() {
        hand = match hand {
            Hand::Came(branch, stop) => {
                shared.desk.close(rt);
                return Hand::Came(branch, stop);
            }
            Hand::Empty => match find(rt, shared, worker) {
                Some(found) => found,
                None => return Hand::Empty,
            },
            hand => turn(rt, shared, gate, worker, hand),
        };
    }
    unreachable!()
}

// Looks for a branch until there is one, or the run is over. What was counted before the look is remembered, so that no
// branch that comes after it is missed.
fn find<M: Engine, N: Asked + Send, B: Board<Carried<M, N>>, R: Wait>(
    rt: &R,
    shared: &Shared<B>,
    worker: &mut Worker<B::Seat>,
) -> Option<Hand<Carried<M, N>, B::Hold>>
    requires free { B.free shared.now.board worker.old.seat }
    requires allowed { IsAllowed M.Engine N.Asked B.Board worker.old }
    ensures { FoundIs M.Engine N.Asked B.Board shared.now.board worker.new result }
{
    for _ in rt.forever() {
        let Some(seen) = shared.desk.seen(rt) else {
            return None;
        };
        match take::<M, N, B, R>(rt, shared, worker) {
            Hand::Empty => shared.desk.wait_past(rt, seen),
            hand => return Some(hand),
        }
    }
    unreachable!()
}

// The same of a worker with what it has in hand.
fn work_on<M: Engine, N: Asked + Send, B: Board<Carried<M, N>>, G: Gate, R: Wait>(
    rt: &R,
    shared: &Shared<B>,
    gate: &G,
    slot: &mut Slot<Carried<M, N>, B::Hold, B::Seat, (B::WaitRight, B::SignalRight, B::Children)>,
)
    requires sites { AreShares N.sites shared.now.sites.items }
    requires work { WorksWith M.Engine N.Asked B.Board shared.now.board slot.old.worker slot.old.hand }
    ensures { DoneWith M.Engine N.Asked B.Board shared.now.board slot.new.worker slot.new.hand }
{
    let hand = mem::replace(&mut slot.hand, Hand::Empty);
    slot.hand = work(rt, shared, gate, &mut slot.worker, hand);
}

/// Lets workers run side by side, each in a thread of its own where one can be made, until the root is back. The last one
/// runs in this thread, before any other for which none can be made.
pub(crate) fn work_all<
    M: Engine,
    N: Asked + Send,
    B: Board<Carried<M, N>>,
    G: Gate + Sync,
    R: Threads + Wait + Sync,
>(
    rt: &R,
    shared: &Shared<B>,
    gate: &G,
    slots: &mut [Slot<
        Carried<M, N>,
        B::Hold,
        B::Seat,
        (B::WaitRight, B::SignalRight, B::Children),
    >],
)
    requires sites { AreShares N.sites shared.now.sites.items }
    requires work { AllAtWork M.Engine N.Asked B.Board shared.now.board slots.old }
    requires some { 0 < length slots.old }
    ensures { AllDone M.Engine N.Asked B.Board shared.now.board slots.new }
{
    let count = slots.len();
    thread::for_each_mut(
        rt,
        slots,
        count,
        &|_, slot: &mut Slot<
            Carried<M, N>,
            B::Hold,
            B::Seat,
            (B::WaitRight, B::SignalRight, B::Children),
        >|
            requires { AreShares N.sites shared.now.sites.items × WorksWith M.Engine N.Asked B.Board shared.now.board slot.now.worker slot.now.hand }
            ensures { DoneWith M.Engine N.Asked B.Board shared.entry.now.board slot.exit.now.worker slot.exit.now.hand }
        { work_on(rt, shared, gate, slot) },
    );
}
