//! How branches end, and how their parents go on.
ghost use Rattle.std.specs.Prelude.{◌≡◌, ◌≢◌};
ghost use Rattle.merc_machine.specs.declared.running.Stop.TheVariants.{NoMemory};
ghost use Rattle.merc_board.specs.Going.{next};
ghost use Rattle.merc_board.specs.Rights.{Rights};
ghost use Rattle.merc_script.specs.Places.{Place};
ghost use Rattle.merc_pool.specs.Carrying.{IsCounted, StandsAt, made_by};
ghost use Rattle.merc_pool.specs.Ending.{IsJoinedFork, IsOutcomeOf};
ghost use Rattle.merc_pool.specs.Hands.{CanEnd, HandIs, HasComeTo, IsAllowed, IsAtWork, IsParent, RootCameTo};
ghost use Rattle.merc_pool.specs.Sessions.{IsCame, IsTalliedAlone};

use crate::engine::Engine;
use crate::hand::Hand;
use crate::load::{Asked, Carried, Progress};
use crate::shared::{Shared, Worker};
use merc_board::{Board, Branch, Resumed};
use merc_machine::Stop;
use merc_script::Outcome;
use std::sync::Wait;

/// A branch whose machine does not go on, or has an answer.
pub(crate) fn stopped<M: Engine, N: Asked + Send, B: Board<Carried<M, N>>>(
    branch: Box<Branch<Carried<M, N>, B::Hold>>,
    stop: Stop,
) -> Hand<Carried<M, N>, B::Hold>
    requires { (board : B) × (seat : B.Seat) × HasComeTo M.Engine N.Asked B.Board board seat branch.value stop }
    ensures { (board : B) (seat : B.Seat) → HasComeTo M.Engine N.Asked B.Board board seat branch.value stop → HandIs M.Engine N.Asked B.Board board seat result }
{
    if B::is_root(&branch.hold) {
        return came::<M, N, B>(branch, stop);
    }
    let outcome = outcome_of(&branch.load.progress.machine, stop);
    Hand::Ends(branch, outcome)
}

/// The root at a stop. An answer is counted.
pub(crate) fn came<M: Engine, N: Asked + Send, B: Board<Carried<M, N>>>(
    mut branch: Box<Branch<Carried<M, N>, B::Hold>>,
    stop: Stop,
) -> Hand<Carried<M, N>, B::Hold>
    requires { (board : B) × (seat : B.Seat) × RootCameTo M.Engine N.Asked B.Board board seat branch.value stop }
    ensures hand { (board : B) (seat : B.Seat) → RootCameTo M.Engine N.Asked B.Board board seat branch.value stop → HandIs M.Engine N.Asked B.Board board seat result }
    ensures came { IsCame result }
    ensures tally { (stop ≢ NoMemory → branch.value.load.ticks ≡ made_by (M.seen branch.value.load.progress.machine)) → IsTalliedAlone M.Engine result }
{
    match stop {
        Stop::Answer => match branch.load.progress.given.checked_add(1) {
            Some(given) => {
                branch.load.progress.given = given;
                Hand::Came(branch, Stop::Answer)
            }
            // no run comes to so many
            None => Hand::Came(branch, Stop::NoMemory),
        },
        stop => Hand::Came(branch, stop),
    }
}

// How a branch ends whose machine has stopped so. Only the root has answers.
fn outcome_of<M: Engine>(machine: &M, stop: Stop) -> Outcome
    requires { IsCounted (M.seen machine.now) }
    ensures { IsOutcomeOf (M.seen machine.now) stop result }
{
    match stop {
        Stop::Ended => Outcome::Ok(machine.used()),
        Stop::Raised(text) => Outcome::Raise(text, machine.used()),
        Stop::LimitPassed => Outcome::Limit,
        _ => Outcome::NoMemory,
    }
}

/// Ends a branch. The last conjunct hands its worker the parent. The root comes back: it lacks memory, or a value that does
/// not come.
pub(crate) fn end_branch<M: Engine, N: Asked + Send, B: Board<Carried<M, N>>, R: Wait>(
    rt: &R,
    shared: &Shared<B>,
    worker: &mut Worker<B::Seat>,
    branch: Box<Branch<Carried<M, N>, B::Hold>>,
    outcome: Outcome,
) -> Hand<Carried<M, N>, B::Hold>
    requires can { CanEnd M.Engine N.Asked B.Board shared.now.board worker.old.seat branch.value outcome }
    requires allowed { IsAllowed M.Engine N.Asked B.Board worker.old }
    ensures { IsAtWork M.Engine N.Asked B.Board shared.now.board worker.new result }
{
    if B::is_root(&branch.hold) {
        return Hand::Came(branch, Stop::NoMemory);
    }
    let ends_well = matches!(outcome, Outcome::Ok(_));
    let parent = shared.board.end(rt, &mut worker.seat, branch, outcome);
    if !ends_well {
        // whoever waited for what the branch owed starves, and can be taken
        shared.desk.tell(rt, usize::MAX);
    }
    match parent {
        Some(parent) => resume(rt, shared, worker, parent),
        None => Hand::Empty,
    }
}

// Goes on with a parent whose conjuncts have ended. Where they did not end well its machine stops at once.
fn resume<M: Engine, N: Asked + Send, B: Board<Carried<M, N>>, R: Wait>(
    rt: &R,
    shared: &Shared<B>,
    worker: &mut Worker<B::Seat>,
    mut parent: Box<Branch<Carried<M, N>, B::Hold>>,
) -> Hand<Carried<M, N>, B::Hold>
    requires parent { IsParent M.Engine N.Asked B.Board shared.now.board worker.old.seat parent.value }
    ensures { IsAtWork M.Engine N.Asked B.Board shared.now.board worker.new result }
{
    worker.may_run = false;
    let outcome = match shared.board.resume(rt, &mut worker.seat, &mut parent.hold) {
        Resumed::Outcome(outcome) => outcome,
        // No board asks for it as long as none cuts branches short.
        Resumed::Restart => return Hand::Ends(parent, Outcome::NoMemory),
    };
    match outcome {
        Outcome::NoMemory => Hand::Ends(parent, Outcome::NoMemory),
        Outcome::Starved => Hand::Ends(parent, Outcome::Starved),
        outcome => {
            rejoin::<M, N>(&mut parent.load.progress, outcome);
            Hand::Runs(parent)
        }
    }
}

// Takes a machine past its fork. Its board knows of the steps that the conjuncts made.
fn rejoin<M: Engine, N: Asked>(progress: &mut Progress<M>, outcome: Outcome)
    requires { (rights : Rights) × (at : Place) × IsJoinedFork M.Engine N.sites N.root N.run progress.old rights at outcome }
    ensures { (rights : Rights) (at : Place) → IsJoinedFork M.Engine N.sites N.root N.run progress.old rights at outcome → StandsAt M.Engine N.sites N.root N.run progress.new rights (next at) }
{
    let Stop::AtFork(site) = progress.stop else {
        unreachable!()
    };
    progress.machine.rejoin(site, outcome);
    progress.reported = progress.machine.used();
}
