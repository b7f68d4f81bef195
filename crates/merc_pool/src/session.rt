//! A session: the answers of what is asked, one after the other.
ghost use Rattle.std.specs.Prelude.{◌≡◌, ◌<◌, ◌≤◌, true, false, All, IfOk, IfSome, None, Some, vec_capacity, vec_len};
ghost use Rattle.merc_machine.specs.declared.running.Stop.{Stop};
ghost use Rattle.merc_machine.specs.declared.running.Stop.TheVariants.{NoMemory as NoMemoryStop};
ghost use Rattle.merc_carried.specs.Plain.{IsPlain};
ghost use Rattle.merc_meaning.specs.Counting.{counted};
ghost use Rattle.merc_pool.specs.Asking.{Asks};
ghost use Rattle.merc_pool.specs.Hands.{IsAllowed};
ghost use Rattle.merc_pool.specs.Sessions.{AloneHand, IsBack, IsCame, IsHome, IsHomeTallied, IsTallied, IsTalliedAlone, RootHand, steps_of, steps_told};
ghost use Rattle.merc_pool.specs.Shares.{AreShares};
ghost use Rattle.merc_pool.specs.Telling.{CountsNext, IsLast, NextIs, Tells, given_after, last_of};
ghost use Rattle.merc_pool.specs.Working.{AllAtWork, AllDone};

use crate::desk::Desk;
use crate::ending::came;
use crate::engine::Engine;
use crate::forking::begun;
use crate::hand::Hand;
use crate::load::{Asked, Carried};
use crate::next::Next;
use crate::running::run_load;
use crate::shared::{Shared, Slot, Worker};
use crate::shares::shares_of;
use crate::spent::Spent;
use crate::telling::tell;
use crate::turn::report;
use crate::work::work_all;
use merc_base::{Gate, NoMemory};
use merc_board::{Board, Opened};
use merc_machine::{Stop, Ticks};
use merc_plan::Plan;
use std::alloc::Global;
use std::marker::{Model, PhantomData};
use std::mem;
use std::sync::Wait;
use std::thread::Threads;

// The most steps that the root makes at once before its first fork: no board is told of them.
const ALONE: u32 = u32::MAX;

/// A session over a board. It is seen as the number of answers that it has given, the stop that it tells again, and the steps that
/// it has counted of the root.
#[derive(Drop)]
pub struct Session<M: Engine, N: Asked + Send, B: Board<Carried<M, N>>> {
    shared: Shared<B>,
    // workers that have nothing in hand
    others: Vec<Slot<Carried<M, N>, B::Hold, B::Seat, (B::WaitRight, B::SignalRight, B::Children)>>,
    // the worker that has the root
    home: Option<
        Slot<Carried<M, N>, B::Hold, B::Seat, (B::WaitRight, B::SignalRight, B::Children)>,
    >,
    over: Option<Stop>,
    given: u64,
    // the steps of the root, once it has ended
    ticks: Ticks,
}

impl<M: Engine, N: Asked + Send, B: Board<Carried<M, N>>> Model for Session<M, N, B> {
    ghost use Rattle.std.specs.Prelude.{vec_capacity, vec_len};
    ghost use Rattle.merc_pool.specs.Sessions.{IsSession, SessionState, steps_told};

    ghost Value = { SessionState };

    ghost view = { λ s. record { given = s.given; over = s.over; steps = steps_told s.ticks s.home } };

    ghost invariant = { λ s. IsSession M.Engine N.Asked B.Board s.shared s.others.items (vec_len s.others) (vec_capacity s.others) s.home s.over s.given };
}

impl<M: Engine, N: Asked + Send, B: Board<Carried<M, N>>> Session<M, N, B> {
    /// A session before its first answer: the machine of what is asked, the plan with which its code was made, and a board
    /// that was not opened yet. Nothing is run yet.
    ///
    /// # Errors
    ///
    /// `NoMemory` where memory was refused.
    pub fn begin(
        alloc: Global,
        machine: M,
        plan: &Plan,
        board: B,
    ) -> Result<Session<M, N, B>, NoMemory>
        requires closed { B.closed board }
        requires plan { plan.now ≡ N.sites }
        requires asks { Asks (M.seen machine) N.sites N.root N.run }
        ensures { IfOk result (λ session. session ≡ record { given = 0; over = None; steps = 0 }) }
    {
        let mut board = board;
        let spent = Spent::new(machine.left());
        let sites = shares_of(alloc, plan)?;
        let Opened { home, others, root } = board.open(alloc, begun::<M, N>(machine, 0))?;
        let others = idle_slots::<M, N, B>(alloc, others)?;
        Ok(Session {
            shared: Shared {
                board,
                sites,
                desk: Desk::new(),
                spent,
                alloc,
            },
            others,
            home: Some(slot_of::<M, N, B>(home, Hand::Runs(root))),
            over: None,
            given: 0,
            ticks: Ticks::new(),
        })
    }

    /// The next answer, or how the run ends: exactly the next of the run that is asked. Memory may be refused at any place.
    /// Behind its end each further call answers the same.
    pub fn next<G: Gate + Sync, R: Threads + Wait + Sync>(&mut self, rt: &R, gate: &G) -> Next
        ensures next { self.old.over ≡ None → NextIs N.run self.old.given result }
        ensures given { self.old.over ≡ None → self.new.given ≡ given_after self.old.given result }
        ensures over { self.old.over ≡ None → self.new.over ≡ last_of result }
        ensures counted { self.old.over ≡ None → IsPlain N.root → CountsNext N.run self.old.given self.new.steps result }
        ensures again { (stop : Stop) → self.old.over ≡ Some stop → Tells stop result × (self.new ≡ self.old) }
    {
        if let Some(stop) = self.over {
            return told_again(stop);
        }
        let Some(home) = self.home.take() else {
            unreachable!()
        };
        let (next, back) = run_on(
            rt,
            gate,
            &self.shared,
            &mut self.others,
            &mut self.given,
            &mut self.ticks,
            home,
        );
        self.home = back;
        self.over = next.last();
        next
    }

    /// Ends a session, and counts the steps that its workers have made. Takes no memory. From then on it says that memory
    /// was refused.
    pub fn close(&mut self, into: &mut Ticks)
        ensures counted { counted into.old self.old.steps ≤ into.new }
        ensures over { self.new.over ≡ Some NoMemoryStop }
        ensures given { self.new.given ≡ self.old.given }
    {
        self.over = Some(Stop::NoMemory);
        let home = self.home.take();
        let none = Vec::new(self.shared.alloc);
        let others = mem::replace(&mut self.others, none);
        count_home::<M, N, B>(into, &mut self.ticks, home);
        count_all::<M, N, B>(into, others);
    }
}

// Takes over what the root has counted: what was put by, and what the worker has that has it in hand.
fn count_home<M: Engine, N: Asked + Send, B: Board<Carried<M, N>>>(
    into: &mut Ticks,
    put_by: &mut Ticks,
    home: Option<
        Slot<Carried<M, N>, B::Hold, B::Seat, (B::WaitRight, B::SignalRight, B::Children)>,
    >,
)
    ensures { counted into.old (steps_told put_by.old home) ≤ into.new }
{
    into.take_in(put_by);
    if let Some(slot) = home {
        count_slot::<M, N, B>(into, slot);
    }
}

// Takes over what workers have counted.
fn count_all<M: Engine, N: Asked + Send, B: Board<Carried<M, N>>>(
    into: &mut Ticks,
    slots: Vec<Slot<Carried<M, N>, B::Hold, B::Seat, (B::WaitRight, B::SignalRight, B::Children)>>,
)
    ensures { into.old ≤ into.new }
{
    for slot in slots {
        count_slot::<M, N, B>(into, slot);
    }
}

// Takes over what a worker has counted, and what the root has that it has in hand.
fn count_slot<M: Engine, N: Asked + Send, B: Board<Carried<M, N>>>(
    into: &mut Ticks,
    slot: Slot<Carried<M, N>, B::Hold, B::Seat, (B::WaitRight, B::SignalRight, B::Children)>,
)
    ensures { counted into.old (steps_of 0 slot.hand) ≤ into.new }
{
    let Slot {
        mut worker,
        hand,
        ..
    } = slot;
    if let Hand::Runs(mut branch) = hand {
        into.take_in(&mut branch.load.ticks);
    }
    into.take_in(&mut worker.ticks);
}

// A worker that has counted nothing, with what it has in hand.
fn slot_of<M: Engine, N: Asked + Send, B: Board<Carried<M, N>>>(
    seat: B::Seat,
    hand: Hand<Carried<M, N>, B::Hold>,
) -> Slot<Carried<M, N>, B::Hold, B::Seat, (B::WaitRight, B::SignalRight, B::Children)>
    ensures { (result.worker.seat ≡ seat) × (result.worker.may_run ≡ false) × (result.hand ≡ hand) }
{
    Slot {
        worker: Worker {
            seat,
            ticks: Ticks::new(),
            may_run: false,
        },
        hand,
        kinds: PhantomData,
    }
}

// Runs the root up to its next stop. What that says, and the worker that has the root.
fn run_on<
    M: Engine,
    N: Asked + Send,
    B: Board<Carried<M, N>>,
    G: Gate + Sync,
    R: Threads + Wait + Sync,
>(
    rt: &R,
    gate: &G,
    shared: &Shared<B>,
    others: &mut Vec<
        Slot<Carried<M, N>, B::Hold, B::Seat, (B::WaitRight, B::SignalRight, B::Children)>,
    >,
    given: &mut u64,
    ticks: &mut Ticks,
    home: Slot<Carried<M, N>, B::Hold, B::Seat, (B::WaitRight, B::SignalRight, B::Children)>,
) -> (
    Next,
    Option<Slot<Carried<M, N>, B::Hold, B::Seat, (B::WaitRight, B::SignalRight, B::Children)>>,
)
    requires sites { AreShares N.sites shared.now.sites.items }
    requires others { AllAtWork M.Engine N.Asked B.Board shared.now.board others.old.items }
    requires room { vec_len others.old < vec_capacity others.old }
    requires root { RootHand M.Engine N.Asked B.Board shared.now.board home.worker.seat home.hand }
    requires allowed { IsAllowed M.Engine N.Asked B.Board home.worker }
    ensures others { AllAtWork M.Engine N.Asked B.Board shared.now.board others.new.items }
    ensures room { last_of result.0 ≡ None → vec_len others.new < vec_capacity others.new }
    ensures next { NextIs N.run given.old result.0 }
    ensures given { given.new ≡ given_after given.old result.0 }
    ensures home { last_of result.0 ≡ None → IsHome M.Engine N.Asked B.Board shared.now.board given.new result.1 }
    ensures tallied { IsPlain N.root → IsTallied M.Engine home.hand → IsHomeTallied M.Engine result.1 }
    ensures counted { IsPlain N.root → IsTallied M.Engine home.hand → CountsNext N.run given.old (steps_told ticks.new result.1) result.0 }
{
    match run_root(rt, shared, gate, others, home) {
        Some(mut back) => {
            let next = tell::<M, N, B>(shared.alloc, given, ticks, &mut back);
            (next, Some(back))
        }
        None => (Next::NoMemory, None),
    }
}

// What a stop says that is told again.
fn told_again(stop: Stop) -> Next
    requires { IsLast stop }
    ensures { Tells stop result }
{
    match stop {
        Stop::Ended => Next::Done,
        Stop::Raised(text) => Next::Raised(text),
        Stop::LimitPassed => Next::LimitPassed,
        _ => Next::NoMemory,
    }
}

// Runs the root on the calling thread up to its first fork, or its stop.
fn alone<M: Engine, N: Asked + Send, B: Board<Carried<M, N>>, G: Gate, R: Wait>(
    rt: &R,
    gate: &G,
    hand: Hand<Carried<M, N>, B::Hold>,
) -> Hand<Carried<M, N>, B::Hold>
    requires root { (board : B) × (seat : B.Seat) × RootHand M.Engine N.Asked B.Board board seat hand }
    ensures hand { (board : B) (seat : B.Seat) → RootHand M.Engine N.Asked B.Board board seat hand → AloneHand M.Engine N.Asked B.Board board seat result }
    ensures tally { IsPlain N.root → IsTallied M.Engine hand → IsTalliedAlone M.Engine result }
{
    let mut branch = match hand {
        Hand::Runs(branch) => branch,
        hand => return hand,
    };
    // the root counts its steps itself
    let mut none = Ticks::new();
    for _ in rt.forever() {
        match run_load(gate, true, ALONE, &mut none, &mut branch.load) {
            Stop::SliceOver => {}
            Stop::AtFork(_) => return Hand::Runs(branch),
            Stop::AtWait(_) => return Hand::Runs(branch),
            Stop::AtSignal(_) => return Hand::Runs(branch),
            Stop::NoMemory => return Hand::Came(branch, Stop::NoMemory),
            stop => return came::<M, N, B>(branch, stop),
        }
    }
    unreachable!()
}

// Runs the root up to its next stop: on the calling thread, and from its first fork on with all workers. The worker that has it.
fn run_root<
    M: Engine,
    N: Asked + Send,
    B: Board<Carried<M, N>>,
    G: Gate + Sync,
    R: Threads + Wait + Sync,
>(
    rt: &R,
    shared: &Shared<B>,
    gate: &G,
    others: &mut Vec<
        Slot<Carried<M, N>, B::Hold, B::Seat, (B::WaitRight, B::SignalRight, B::Children)>,
    >,
    mut home: Slot<Carried<M, N>, B::Hold, B::Seat, (B::WaitRight, B::SignalRight, B::Children)>,
) -> Option<Slot<Carried<M, N>, B::Hold, B::Seat, (B::WaitRight, B::SignalRight, B::Children)>>
    requires sites { AreShares N.sites shared.now.sites.items }
    requires others { AllAtWork M.Engine N.Asked B.Board shared.now.board others.old.items }
    requires room { vec_len others.old < vec_capacity others.old }
    requires root { RootHand M.Engine N.Asked B.Board shared.now.board home.worker.seat home.hand }
    requires allowed { IsAllowed M.Engine N.Asked B.Board home.worker }
    ensures others { AllAtWork M.Engine N.Asked B.Board shared.now.board others.new.items }
    ensures room { IfSome result (λ _. vec_len others.new < vec_capacity others.new) }
    ensures back { IfSome result (λ slot. IsBack M.Engine N.Asked B.Board shared.now.board slot) }
    ensures tally { IfSome result (λ slot. IsPlain N.root → IsTallied M.Engine home.hand → IsTallied M.Engine slot.hand) }
{
    let hand = mem::replace(&mut home.hand, Hand::Empty);
    match alone::<M, N, B, G, R>(rt, gate, hand) {
        Hand::Came(branch, stop) => {
            home.hand = Hand::Came(branch, stop);
            Some(home)
        }
        Hand::Runs(mut branch) => {
            if !B::is_root(&branch.hold)
                || !report(rt, &shared.board, &mut home.worker, &mut branch)
            {
                home.hand = Hand::Came(branch, Stop::NoMemory);
                return Some(home);
            }
            home.hand = Hand::Runs(branch);
            shared.desk.open(rt);
            others.push_reserved(home);
            work_all(rt, shared, gate, others.as_mut_slice());
            take_back::<M, N, B>(others)
        }
        _ => None,
    }
}

// Takes the worker out that has the root.
fn take_back<M: Engine, N: Asked + Send, B: Board<Carried<M, N>>>(
    slots: &mut Vec<
        Slot<Carried<M, N>, B::Hold, B::Seat, (B::WaitRight, B::SignalRight, B::Children)>,
    >,
) -> Option<Slot<Carried<M, N>, B::Hold, B::Seat, (B::WaitRight, B::SignalRight, B::Children)>>
    requires { (board : B) × AllDone M.Engine N.Asked B.Board board slots.old.items }
    ensures others { (board : B) → AllDone M.Engine N.Asked B.Board board slots.old.items → AllAtWork M.Engine N.Asked B.Board board slots.new.items }
    ensures room { IfSome result (λ _. (vec_len slots.new < vec_len slots.old) × (vec_capacity slots.new ≡ vec_capacity slots.old)) }
    ensures back { IfSome result (λ slot. (board : B) → AllDone M.Engine N.Asked B.Board board slots.old.items → IsBack M.Engine N.Asked B.Board board slot) }
{
    for index in 0..slots.len() {
        if is_back(&slots[index].hand) {
            return Some(slots.remove(index));
        }
    }
    None
}

// Whether this is the root, which has come to a stop.
fn is_back<L: Drop, H: Drop>(hand: &Hand<L, H>) -> bool
    ensures { result ≡ true → IsCame hand.now }
{
    match hand {
        Hand::Came(_, _) => true,
        _ => false,
    }
}

// Slots for workers that have nothing in hand, with room for one more.
fn idle_slots<M: Engine, N: Asked + Send, B: Board<Carried<M, N>>>(
    alloc: Global,
    mut seats: Vec<B::Seat>,
) -> Result<
    Vec<Slot<Carried<M, N>, B::Hold, B::Seat, (B::WaitRight, B::SignalRight, B::Children)>>,
    NoMemory,
>
    requires { (board : B) × All (B.free board) seats.items }
    ensures room { IfOk result (λ slots. vec_len slots < vec_capacity slots) }
    ensures work { IfOk result (λ slots. (board : B) → All (B.free board) seats.items → AllAtWork M.Engine N.Asked B.Board board slots.items) }
{
    let mut slots = Vec::new(alloc);
    while let Some(seat) = seats.pop() {
        slots.push(slot_of::<M, N, B>(seat, Hand::Empty))?;
    }
    slots.reserve(1)?;
    Ok(slots)
}
