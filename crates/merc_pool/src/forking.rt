//! Forks, and branches that are found.
ghost use Rattle.std.specs.Prelude.{◌≡◌, IfOk};
ghost use Rattle.merc_code.specs.declared.instruction.Instruction.TheVariants.{Fork};
ghost use Rattle.merc_course.specs.Course.{RunCourse};
ghost use Rattle.merc_machine.specs.Coming.{MeetsAt};
ghost use Rattle.merc_machine.specs.Running.{Means};
ghost use Rattle.merc_machine.specs.declared.running.Stop.TheVariants.{AtFork};
ghost use Rattle.merc_pool.specs.Forking.{AreChildren, IsFoundBranch};
ghost use Rattle.merc_pool.specs.Hands.{HandIs, HasComeTo, IsAllowed, IsAtWork};
ghost use Rattle.merc_pool.specs.Shares.{AreShares};

use crate::engine::Engine;
use crate::hand::Hand;
use crate::load::{Asked, Carried, Progress};
use crate::shared::{Shared, Worker};
use merc_base::NoMemory;
use merc_board::{Board, Branch, Woken};
use merc_graded_tree::Site;
use merc_machine::{Stop, Ticks};
use merc_script::Outcome;
use std::alloc::Global;
use std::marker::PhantomData;
use std::sync::Wait;

/// Starts the conjuncts of a fork, and has the first one in hand.
pub(crate) fn at_fork<M: Engine, N: Asked + Send, B: Board<Carried<M, N>>, R: Wait>(
    rt: &R,
    shared: &Shared<B>,
    worker: &mut Worker<B::Seat>,
    branch: Box<Branch<Carried<M, N>, B::Hold>>,
    site: Site,
) -> Hand<Carried<M, N>, B::Hold>
    requires sites { AreShares N.sites shared.now.sites.items }
    requires come { HasComeTo M.Engine N.Asked B.Board shared.now.board worker.old.seat branch.value (AtFork site) }
    requires allowed { IsAllowed M.Engine N.Asked B.Board worker.old }
    ensures { IsAtWork M.Engine N.Asked B.Board shared.now.board worker.new result }
{
    let Some(share) = shared.sites.get(site.number) else {
        return Hand::Ends(branch, Outcome::NoMemory);
    };
    let limit = branch.load.progress.machine.left();
    let Ok(loads) = start::<M, N>(
        shared.alloc,
        &branch.load.progress.machine,
        site,
        share.children,
    ) else {
        return Hand::Ends(branch, Outcome::NoMemory);
    };
    match shared.board.prepare(
        rt,
        shared.alloc,
        &mut worker.seat,
        loads,
        branch,
        limit,
        &share.shared,
        &share.given,
    ) {
        Ok(children) => {
            let first = shared.board.fork(rt, &mut worker.seat, children);
            shared.desk.tell(rt, share.children.saturating_sub(1));
            found::<M, N, B>(first)
        }
        Err((branch, NoMemory)) => Hand::Ends(branch, Outcome::NoMemory),
    }
}

// What conjuncts carry that are forked.
fn start<M: Engine, N: Asked>(
    alloc: Global,
    machine: &M,
    site: Site,
    children: usize,
) -> Result<Vec<Carried<M, N>>, NoMemory>
    requires at { MeetsAt (M.seen machine.now) (Fork site) }
    requires means { (course : RunCourse) × Means (M.seen machine.now) course }
    ensures { IfOk result (λ loads. AreChildren M.Engine (M.seen machine.now) site children loads.items) }
{
    let mut loads = Vec::new(alloc);
    for number in 0..children {
        // each conjunct of a site is there
        if !machine.has_child(site, number) {
            return Err(NoMemory);
        }
        let child = machine.child(alloc, site, number)?;
        let enters = number_of(number)?;
        loads.push(begun::<M, N>(child, enters))?;
    }
    Ok(loads)
}

/// What a machine carries that has made no step, of a conjunct that enters the gate with this number, or of the root, which enters
/// none with 0.
pub(crate) fn begun<M: Engine, N: Asked>(machine: M, enters: u32) -> Carried<M, N>
    ensures machine { result.progress.machine ≡ machine }
    ensures none { (result.progress.given ≡ 0) × (result.progress.reported ≡ 0) × (result.ticks ≡ 0) }
{
    Carried {
        progress: Progress {
            machine,
            stop: Stop::SliceOver,
            given: 0,
            reported: 0,
        },
        enters,
        ticks: Ticks::new(),
        asked: PhantomData,
    }
}

// The number of a conjunct, counted from 1, of which so many come before.
fn number_of(before: usize) -> Result<u32, NoMemory> {
    match u32::try_from(before) {
        Ok(before) => before.checked_add(1).ok_or(NoMemory),
        Err(_) => Err(NoMemory),
    }
}

/// What a worker has in hand that has found a branch.
pub(crate) fn found<M: Engine, N: Asked + Send, B: Board<Carried<M, N>>>(
    mut branch: Box<Branch<Carried<M, N>, B::Hold>>,
) -> Hand<Carried<M, N>, B::Hold>
    requires { (board : B) × (seat : B.Seat) × IsFoundBranch M.Engine N.Asked B.Board board seat branch.value }
    ensures { (board : B) (seat : B.Seat) → IsFoundBranch M.Engine N.Asked B.Board board seat branch.value → HandIs M.Engine N.Asked B.Board board seat result }
{
    match B::woken(&mut branch.hold) {
        Woken::No => Hand::Runs(branch),
        Woken::Value(value) => Hand::Given(branch, value),
        Woken::Starved => Hand::Ends(branch, Outcome::Starved),
    }
}
