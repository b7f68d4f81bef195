//! The turns of one worker.
ghost use Rattle.std.specs.Prelude.{◌≡◌, true, false, IfOk, IfErr};
ghost use Rattle.merc_board.specs.Boarding.{MayReport};
ghost use Rattle.merc_script.specs.Places.{Place};
ghost use Rattle.merc_pool.specs.Carrying.{IsCounted, made_by, unreported};
ghost use Rattle.merc_pool.specs.Hands.{CanEnd, HasComeTo, HasPassed, IsAllowed, IsAtWork, IsLive, MayRun};
ghost use Rattle.merc_pool.specs.Shares.{AreShares};

use crate::ending::{end_branch, stopped};
use crate::engine::Engine;
use crate::forking::{at_fork, found};
use crate::hand::Hand;
use crate::load::{Asked, Carried};
use crate::meeting::{at_signal, at_wait, give};
use crate::running::run_load;
use crate::shared::{Shared, Worker};
use merc_base::Gate;
use merc_board::{Board, Branch, Pace};
use merc_machine::Stop;
use merc_script::Outcome;
use std::sync::Wait;

// The most steps that a worker makes of a branch before its board is told.
const SLICE: u32 = 255;

/// Makes the next turn with what a worker has in hand.
pub(crate) fn turn<M: Engine, N: Asked + Send, B: Board<Carried<M, N>>, G: Gate, R: Wait>(
    rt: &R,
    shared: &Shared<B>,
    gate: &G,
    worker: &mut Worker<B::Seat>,
    hand: Hand<Carried<M, N>, B::Hold>,
) -> Hand<Carried<M, N>, B::Hold>
    requires sites { AreShares N.sites shared.now.sites.items }
    requires work { IsAtWork M.Engine N.Asked B.Board shared.now.board worker.old hand }
    ensures { IsAtWork M.Engine N.Asked B.Board shared.now.board worker.new result }
{
    match hand {
        Hand::Runs(branch) => run_branch(rt, shared, gate, worker, branch),
        Hand::Given(branch, value) => give::<M, N, B>(branch, value),
        Hand::Ends(branch, outcome) => end_branch(rt, shared, worker, branch, outcome),
        hand => hand,
    }
}

// Runs a branch for a slice, and makes the call that it then asks for. Where more steps were made than may be, the branch
// lacks memory.
fn run_branch<M: Engine, N: Asked + Send, B: Board<Carried<M, N>>, G: Gate, R: Wait>(
    rt: &R,
    shared: &Shared<B>,
    gate: &G,
    worker: &mut Worker<B::Seat>,
    mut branch: Box<Branch<Carried<M, N>, B::Hold>>,
) -> Hand<Carried<M, N>, B::Hold>
    requires sites { AreShares N.sites shared.now.sites.items }
    requires live { IsLive M.Engine N.Asked B.Board shared.now.board worker.old.seat branch.value }
    requires allowed { IsAllowed M.Engine N.Asked B.Board worker.old }
    ensures { IsAtWork M.Engine N.Asked B.Board shared.now.board worker.new result }
{
    if shared.spent.is_over() {
        return Hand::Ends(branch, Outcome::NoMemory);
    }
    let before = branch.load.progress.reported;
    let come = make_slice(rt, &shared.board, gate, worker, &mut branch);
    shared
        .spent
        .add(branch.load.progress.reported.saturating_sub(before));
    match come {
        Err(outcome) => Hand::Ends(branch, outcome),
        Ok(stop) => at_stop(rt, shared, worker, branch, stop),
    }
}

// Makes the call that a stop asks for.
fn at_stop<M: Engine, N: Asked + Send, B: Board<Carried<M, N>>, R: Wait>(
    rt: &R,
    shared: &Shared<B>,
    worker: &mut Worker<B::Seat>,
    branch: Box<Branch<Carried<M, N>, B::Hold>>,
    stop: Stop,
) -> Hand<Carried<M, N>, B::Hold>
    requires sites { AreShares N.sites shared.now.sites.items }
    requires come { HasComeTo M.Engine N.Asked B.Board shared.now.board worker.old.seat branch.value stop }
    requires allowed { IsAllowed M.Engine N.Asked B.Board worker.old }
    ensures { IsAtWork M.Engine N.Asked B.Board shared.now.board worker.new result }
{
    match stop {
        Stop::SliceOver => Hand::Runs(branch),
        Stop::AtFork(site) => at_fork(rt, shared, worker, branch, site),
        Stop::AtWait(variable) => at_wait(rt, shared, worker, branch, variable),
        Stop::AtSignal(variable) => at_signal(rt, shared, worker, branch, variable),
        stop => stopped::<M, N, B>(branch, stop),
    }
}

// Runs a branch for a slice, and tells its board of it. An error is how the branch ends, which was refused memory or is cut
// short.
fn make_slice<M: Engine, N: Asked + Send, B: Board<Carried<M, N>>, G: Gate, R: Wait>(
    rt: &R,
    board: &B,
    gate: &G,
    worker: &mut Worker<B::Seat>,
    branch: &mut Branch<Carried<M, N>, B::Hold>,
) -> Result<Stop, Outcome>
    requires live { IsLive M.Engine N.Asked B.Board board.now worker.old.seat branch.old }
    requires allowed { IsAllowed M.Engine N.Asked B.Board worker.old }
    ensures ok { IfOk result (λ stop. HasComeTo M.Engine N.Asked B.Board board.now worker.new.seat branch.new stop) }
    ensures err { IfErr result (λ outcome. CanEnd M.Engine N.Asked B.Board board.now worker.new.seat branch.new outcome) }
    ensures allowed { IsAllowed M.Engine N.Asked B.Board worker.new }
{
    let is_root = B::is_root(&branch.hold);
    if !may_go(rt, board, is_root, worker, branch) {
        return Err(Outcome::Starved);
    }
    let stop = run_load(gate, is_root, SLICE, &mut worker.ticks, &mut branch.load);
    if let Stop::NoMemory = stop {
        return Err(Outcome::NoMemory);
    }
    if report(rt, board, worker, branch) {
        Ok(stop)
    } else {
        Err(Outcome::Starved)
    }
}

// Whether the worker may run a slice of a branch. Where it does not know that, it asks the board.
fn may_go<M: Engine, N: Asked + Send, B: Board<Carried<M, N>>, R: Wait>(
    rt: &R,
    board: &B,
    is_root: bool,
    worker: &mut Worker<B::Seat>,
    branch: &mut Branch<Carried<M, N>, B::Hold>,
) -> bool
    requires live { IsLive M.Engine N.Asked B.Board board.now worker.old.seat branch.old }
    requires root { is_root ≡ B.of_root branch.old.hold }
    ensures live { result ≡ true → IsLive M.Engine N.Asked B.Board board.now worker.new.seat branch.new }
    ensures may { result ≡ true → MayRun M.Engine N.Asked B.Board worker.new branch.new }
    ensures cut { result ≡ false → B.starved board.now worker.new.seat branch.new.hold }
    ensures allowed { IsAllowed M.Engine N.Asked B.Board worker.old → IsAllowed M.Engine N.Asked B.Board worker.new }
{
    is_root || worker.may_run || report(rt, board, worker, branch)
}

// Tells the board of the steps of a branch of which it was not told yet. Whether the branch goes on.
pub(crate) fn report<M: Engine, N: Asked + Send, B: Board<Carried<M, N>>, R: Wait>(
    rt: &R,
    board: &B,
    worker: &mut Worker<B::Seat>,
    branch: &mut Branch<Carried<M, N>, B::Hold>,
) -> bool
    requires passed { (at : Place) × HasPassed M.Engine N.Asked B.Board board.now worker.old.seat branch.old at }
    requires counted { IsCounted (M.seen branch.old.load.progress.machine) }
    requires may { MayReport (B.may_run worker.old.seat) (B.of_root branch.old.hold) (unreported (M.seen branch.old.load.progress.machine) branch.old.load.progress.reported) (unreported (M.seen branch.old.load.progress.machine) branch.old.load.progress.reported) }
    ensures on { result ≡ true → (at : Place) → HasPassed M.Engine N.Asked B.Board board.now worker.old.seat branch.old at → B.own board.now worker.new.seat branch.new.hold at }
    ensures cut { result ≡ false → B.starved board.now worker.new.seat branch.new.hold }
    ensures rights { B.rights branch.new.hold ≡ B.rights branch.old.hold }
    ensures progress { branch.new.load.progress ≡ record branch.old.load.progress { reported = made_by (M.seen branch.old.load.progress.machine) } }
    ensures ticks { branch.new.load.ticks ≡ branch.old.load.ticks }
    ensures allowed { IsAllowed M.Engine N.Asked B.Board worker.new }
    ensures may_run { result ≡ true → B.of_root branch.old.hold ≡ false → worker.new.may_run ≡ true }
{
    let is_root = B::is_root(&branch.hold);
    let used = branch.load.progress.machine.used();
    let Ok(ticks) = u32::try_from(used - branch.load.progress.reported) else {
        unreachable!()
    };
    branch.load.progress.reported = used;
    let on = match board.go_on(rt, &mut worker.seat, &mut branch.hold, ticks, ticks) {
        Pace::On => true,
        Pace::Over | Pace::Cancelled => false,
    };
    worker.may_run = on && !is_root;
    on
}

/// Takes a branch, if there is one.
pub(crate) fn take<M: Engine, N: Asked + Send, B: Board<Carried<M, N>>, R: Wait>(
    rt: &R,
    shared: &Shared<B>,
    worker: &mut Worker<B::Seat>,
) -> Hand<Carried<M, N>, B::Hold>
    requires free { B.free shared.now.board worker.old.seat }
    requires allowed { IsAllowed M.Engine N.Asked B.Board worker.old }
    ensures { IsAtWork M.Engine N.Asked B.Board shared.now.board worker.new result }
{
    match shared.board.take(rt, &mut worker.seat) {
        Some(branch) => found::<M, N, B>(branch),
        None => Hand::Empty,
    }
}
