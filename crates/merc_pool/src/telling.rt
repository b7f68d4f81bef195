//! What the stops of the root say to the asker.
ghost use Rattle.std.specs.Prelude.{◌≡◌, ℕ, suc, Some, MatchOption, slice_get};
ghost use Rattle.merc_carried.specs.Runs.{answers_of};
ghost use Rattle.merc_carried.specs.Plain.{IsPlain};
ghost use Rattle.merc_meaning.specs.Trace.{Env};
ghost use Rattle.merc_pool.specs.Hands.{IsAtAnswer};
ghost use Rattle.merc_pool.specs.Sessions.{IsBack, IsTallied, IsToldHome, steps_of};
ghost use Rattle.merc_pool.specs.Telling.{CountsNext, EndSays, NextIs, ShowsAnswer, given_after};

use crate::engine::Engine;
use crate::hand::Hand;
use crate::load::{Asked, Carried};
use crate::next::Next;
use crate::shared::Slot;
use merc_board::{Board, Branch};
use merc_machine::{Stop, Ticks};
use merc_value::Block;
use std::alloc::Global;
use std::mem;

/// What a stop of the root says to the asker, to whom so many answers were given. Behind an answer the worker keeps the root
/// in hand; else the steps of the root are put by.
pub(crate) fn tell<M: Engine, N: Asked + Send, B: Board<Carried<M, N>>>(
    alloc: Global,
    given: &mut u64,
    ticks: &mut Ticks,
    slot: &mut Slot<Carried<M, N>, B::Hold, B::Seat, (B::WaitRight, B::SignalRight, B::Children)>,
) -> Next
    requires { (board : B) × IsBack M.Engine N.Asked B.Board board slot.old }
    ensures next { NextIs N.run given.old result }
    ensures given { given.new ≡ given_after given.old result }
    ensures home { (board : B) → IsBack M.Engine N.Asked B.Board board slot.old → IsToldHome M.Engine N.Asked B.Board board given.old result slot.new }
    ensures tallied { IsPlain N.root → IsTallied M.Engine slot.old.hand → IsTallied M.Engine slot.new.hand }
    ensures counted { IsPlain N.root → IsTallied M.Engine slot.old.hand → CountsNext N.run given.old (steps_of ticks.new slot.new.hand) result }
{
    let Hand::Came(mut branch, stop) = mem::replace(&mut slot.hand, Hand::Empty) else {
        return Next::NoMemory;
    };
    if let Stop::Answer = stop {
        if let Some(block) = told_answer::<M, N, B>(alloc, given, &branch) {
            slot.hand = Hand::Runs(branch);
            return Next::Answer(block);
        }
    }
    *ticks = mem::replace(&mut branch.load.ticks, Ticks::new());
    end_told(*given, branch.load.progress.given, stop)
}

// The answer at which the root stands, if it is the one behind so many, which then are one more.
fn told_answer<M: Engine, N: Asked + Send, B: Board<Carried<M, N>>>(
    alloc: Global,
    given: &mut u64,
    branch: &Branch<Carried<M, N>, B::Hold>,
) -> Option<Block>
    requires { (board : B) × (seat : B.Seat) × IsAtAnswer M.Engine N.Asked B.Board board seat branch.now }
    ensures { MatchOption result (given.new ≡ given.old)
        (λ block. ((values : Env) × (slice_get (answers_of N.run) given.old ≡ Some values) × ShowsAnswer values block) × (given.new ≡ suc given.old) × (branch.now.load.progress.given ≡ given.new)) }
{
    if given.checked_add(1) != Some(branch.load.progress.given) {
        return None;
    }
    let Ok(block) = branch.load.progress.machine.answer(alloc) else {
        return None;
    };
    *given = branch.load.progress.given;
    Some(block)
}

// What the end of the root says, which has given so many answers, where so many were told.
fn end_told(told: u64, given: u64, stop: Stop) -> Next
    ensures next { EndSays told given stop result }
    ensures given { given_after told result ≡ told }
{
    if told != given {
        return Next::NoMemory;
    }
    match stop {
        Stop::Ended => Next::Done,
        Stop::Raised(text) => Next::Raised(text),
        Stop::LimitPassed => Next::LimitPassed,
        _ => Next::NoMemory,
    }
}
