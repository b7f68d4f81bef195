//! Waits and signals.
ghost use Rattle.merc_machine.specs.declared.running.Stop.TheVariants.{AtSignal, AtWait};
ghost use Rattle.merc_pool.specs.Hands.{HandIs, HasComeTo, HasValue, IsAllowed, IsAtWork};

use crate::engine::Engine;
use crate::hand::Hand;
use crate::load::{Asked, Carried};
use crate::shared::{Shared, Worker};
use merc_base::NoMemory;
use merc_board::{Board, Branch, Waited};
use merc_goal_tree::Var;
use merc_machine::Stop;
use merc_script::Outcome;
use merc_value::Block;
use std::sync::Wait;

/// Waits for a value.
pub(crate) fn at_wait<M: Engine, N: Asked + Send, B: Board<Carried<M, N>>, R: Wait>(
    rt: &R,
    shared: &Shared<B>,
    worker: &mut Worker<B::Seat>,
    mut branch: Box<Branch<Carried<M, N>, B::Hold>>,
    variable: Var,
) -> Hand<Carried<M, N>, B::Hold>
    requires come { HasComeTo M.Engine N.Asked B.Board shared.now.board worker.old.seat branch.value (AtWait variable) }
    requires allowed { IsAllowed M.Engine N.Asked B.Board worker.old }
    ensures { IsAtWork M.Engine N.Asked B.Board shared.now.board worker.new result }
{
    let Some(right) = B::wait_right(&mut branch.hold, variable) else {
        return Hand::Ends(branch, Outcome::NoMemory);
    };
    match shared.board.wait(rt, &mut worker.seat, right, branch) {
        Waited::Ready(branch, value) => Hand::Given(branch, value),
        Waited::Starved(branch) => Hand::Ends(branch, Outcome::Starved),
        Waited::Parked => Hand::Empty,
    }
}

/// Gives a branch the value for which it waits.
pub(crate) fn give<M: Engine, N: Asked + Send, B: Board<Carried<M, N>>>(
    mut branch: Box<Branch<Carried<M, N>, B::Hold>>,
    value: Block,
) -> Hand<Carried<M, N>, B::Hold>
    requires { (board : B) × (seat : B.Seat) × HasValue M.Engine N.Asked B.Board board seat branch.value value }
    ensures { (board : B) (seat : B.Seat) → HasValue M.Engine N.Asked B.Board board seat branch.value value → HandIs M.Engine N.Asked B.Board board seat result }
{
    let Stop::AtWait(variable) = branch.load.progress.stop else {
        unreachable!()
    };
    match branch.load.progress.machine.give(variable, &value) {
        Ok(()) => Hand::Runs(branch),
        Err(NoMemory) => Hand::Ends(branch, Outcome::NoMemory),
    }
}

/// Hands a value on. The value is taken from the machine before the right is taken out: a right that is dropped leaves
/// its waiter parked for ever.
pub(crate) fn at_signal<M: Engine, N: Asked + Send, B: Board<Carried<M, N>>, R: Wait>(
    rt: &R,
    shared: &Shared<B>,
    worker: &mut Worker<B::Seat>,
    mut branch: Box<Branch<Carried<M, N>, B::Hold>>,
    variable: Var,
) -> Hand<Carried<M, N>, B::Hold>
    requires come { HasComeTo M.Engine N.Asked B.Board shared.now.board worker.old.seat branch.value (AtSignal variable) }
    requires allowed { IsAllowed M.Engine N.Asked B.Board worker.old }
    ensures { IsAtWork M.Engine N.Asked B.Board shared.now.board worker.new result }
{
    let Ok(value) = branch
        .load
        .progress
        .machine
        .value_of(shared.alloc, variable)
    else {
        return Hand::Ends(branch, Outcome::NoMemory);
    };
    let Some(right) = B::signal_right(&mut branch.hold, variable) else {
        return Hand::Ends(branch, Outcome::NoMemory);
    };
    shared.board.signal(rt, &mut worker.seat, right, value);
    shared.desk.tell(rt, 1);
    Hand::Runs(branch)
}
