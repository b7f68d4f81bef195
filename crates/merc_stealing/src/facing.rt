//! The stealing board as a board.
ghost use Rattle.std.specs.Prelude.{◌≡◌, ◌≤◌, Bool, true, false, Some, None, IfSome, IfNone, IfOk, IfErr, length, []};
ghost use Rattle.merc_script.specs.Script.{Script, WaitThen};
ghost use Rattle.merc_script.specs.Places.{Place, left_of};
ghost use Rattle.merc_cell.specs.Ends.{consumer_name, producer_name};
ghost use Rattle.merc_board.specs.Rights.{wait_for, signal_for};
ghost use Rattle.merc_board.specs.Boarding.{MayEnd as MayEndAs, IsWaited, KeepsCount, Prepares};
ghost use Rattle.merc_held_branches.specs.Beds.{IsNamed, cell_named};
ghost use Rattle.merc_held_branches.specs.Lying.{rights as rights_of};
ghost use Rattle.merc_stealing.specs.Seats.{ArePasses};
ghost use Rattle.merc_stealing.specs.Hands.{OwnOf, RunsOf, HoldsOf, is_root_hold};

use crate::board::StealingBoard;
use crate::children::Children;
use crate::named::{NamedSignal, NamedWait};
use crate::preparing::prepare;
use crate::seat::Seat;
use merc_base::NoMemory;
use merc_board::{Board, Handover, Load, Opened, Pace, Resumed, SharedCell, Waited, Woken};
use merc_goal_tree::Var;
use merc_held_branches::{Held, Hold, Room, take_signal, take_wait};
use merc_script::Outcome;
use merc_value::Block;
use std::alloc::Global;
use std::marker::PhantomData;
use std::mem;
use std::sync::Wait;

impl<M: Load + Send + Sync, N: Room + Send + Sync> Board<M> for StealingBoard<M, N> {
    type Hold = Hold<M>;

    type Seat = Seat<N>;

    type WaitRight = NamedWait<M, N>;

    type SignalRight = NamedSignal<M, N>;

    type Children = Children<N>;

    ghost closed = { λ board. board.thieves.items ≡ [] };

    ghost free = { λ board seat. ArePasses board.thieves.items seat.passes.items };

    ghost own = { λ board seat. OwnOf M.root N.table board.thieves.items seat.passes.items };

    ghost runs = { λ board seat. RunsOf M.root N.table board.thieves.items seat.passes.items };

    ghost starved = { λ board seat. RunsOf M.root N.table board.thieves.items seat.passes.items };

    ghost holds = { λ board seat. HoldsOf M.root N.table board.thieves.items seat.passes.items };

    ghost made_for = { λ board seat _. ArePasses board.thieves.items seat.passes.items };

    ghost rights = { rights_of };

    ghost woke = { λ hold. hold.woken };

    ghost of_root = { is_root_hold };

    ghost wait_cell = { λ right. cell_named (consumer_name right.right.end) };

    ghost signal_cell = { λ right. cell_named (producer_name right.right.end) };

    ghost has_made = { λ _ _. Unit {0} };

    ghost may_run = { λ _. Unit {0} };

    #[tactic(auto, using(crate::proofs::HandLaws::begins_own))]
    fn open(&mut self, alloc: Global, load: M) -> Result<Opened<M, Hold<M>, Seat<N>>, NoMemory> {
        let (mut seats, root) = self.open_all(alloc, load)?;
        match seats.pop() {
            Some(home) => Ok(Opened {
                home,
                others: seats,
                root,
            }),
            None => Err(NoMemory),
        }
    }

    fn is_root(hold: &Hold<M>) -> bool {
        hold.place.is_none()
    }

    fn woken(hold: &mut Hold<M>) -> Woken {
        mem::replace(&mut hold.woken, Woken::No)
    }

    fn wait_right(hold: &mut Hold<M>, variable: Var) -> Option<NamedWait<M, N>> {
        match take_wait(hold, variable) {
            Some(right) => Some(NamedWait {
                right,
                of: PhantomData,
            }),
            None => None,
        }
    }

    fn signal_right(hold: &mut Hold<M>, variable: Var) -> Option<NamedSignal<M, N>> {
        match take_signal(hold, variable) {
            Some(right) => Some(NamedSignal {
                right,
                of: PhantomData,
            }),
            None => None,
        }
    }

    fn go_on<R: Wait>(
        &self,
        _rt: &R,
        _seat: &mut Seat<N>,
        _hold: &mut Hold<M>,
        _ticks: u32,
        _made: u32,
    ) -> Pace {
        Pace::On
    }

    fn take<R: Wait>(&self, rt: &R, seat: &mut Seat<N>) -> Option<Held<M>> {
        StealingBoard::take(self, rt, seat)
    }

    fn prepare<R: Wait>(
        &self,
        _rt: &R,
        alloc: Global,
        seat: &mut Seat<N>,
        loads: Vec<M>,
        parent: Held<M>,
        limit: u64,
        shared: &[SharedCell],
        given: &[Handover],
    ) -> Result<Children<N>, (Held<M>, NoMemory)>
        requires { Prepares (OwnOf M.root N.table self.now.thieves.items seat.old.passes.items parent.value.hold) M.forked M.stands parent.value.load (rights_of parent.value.hold) shared.now given.now limit loads.items }
        ensures ok { IfOk result (λ _. ArePasses self.now.thieves.items seat.new.passes.items) }
        ensures err { IfErr result (λ back. RunsOf M.root N.table self.now.thieves.items seat.new.passes.items back.0.value.hold) }
        ensures count { KeepsCount {S = _} (λ _ _. Unit {0}) (λ _. Unit {0}) seat.old seat.new }
    {
        prepare(alloc, &self.lot, seat, loads, parent, limit, shared, given)
    }

    fn fork<R: Wait>(&self, _rt: &R, seat: &mut Seat<N>, children: Children<N>) -> Held<M> {
        StealingBoard::fork(self, seat, children)
    }

    fn wait<R: Wait>(
        &self,
        _rt: &R,
        _seat: &mut Seat<N>,
        right: NamedWait<M, N>,
        branch: Held<M>,
    ) -> Waited<M, Hold<M>>
        requires { (at : Place) × (rest : Script) × OwnOf M.root N.table self.now.thieves.items _seat.old.passes.items branch.value.hold at × (left_of at ≡ Some (WaitThen (cell_named (consumer_name right.right.end)) rest)) × M.awaits branch.value.load (rights_of branch.value.hold) at }
        ensures waited { IsWaited (ArePasses self.now.thieves.items _seat.new.passes.items) (OwnOf M.root N.table self.now.thieves.items _seat.new.passes.items) M.awaits rights_of M.shows (RunsOf M.root N.table self.now.thieves.items _seat.new.passes.items) result }
        ensures count { KeepsCount {S = _} (λ _ _. Unit {0}) (λ _. Unit {0}) _seat.old _seat.new }
    {
        let NamedWait { right, of: _ } = right;
        StealingBoard::wait(self, right, branch).0
    }

    fn signal<R: Wait>(&self, _rt: &R, seat: &mut Seat<N>, right: NamedSignal<M, N>, value: Block) {
        let NamedSignal { right, of: _ } = right;
        StealingBoard::signal(self, seat, right, value);
    }

    fn end<R: Wait>(
        &self,
        _rt: &R,
        seat: &mut Seat<N>,
        branch: Held<M>,
        outcome: Outcome,
    ) -> Option<Held<M>>
        requires { MayEndAs (OwnOf M.root N.table self.now.thieves.items seat.old.passes.items branch.value.hold) (M.stands branch.value.load (rights_of branch.value.hold)) (RunsOf M.root N.table self.now.thieves.items seat.old.passes.items branch.value.hold) (RunsOf M.root N.table self.now.thieves.items seat.old.passes.items branch.value.hold) outcome }
        ensures none { IfNone result (ArePasses self.now.thieves.items seat.new.passes.items) }
        ensures some { IfSome result (λ p. (at : Place) × HoldsOf M.root N.table self.now.thieves.items seat.new.passes.items p.value.hold at × M.forked p.value.load (rights_of p.value.hold) at) }
        ensures count { KeepsCount {S = _} (λ _ _. Unit {0}) (λ _. Unit {0}) seat.old seat.new }
    {
        StealingBoard::end(self, seat, branch, outcome).0
    }

    fn resume<R: Wait>(&self, _rt: &R, _seat: &mut Seat<N>, hold: &mut Hold<M>) -> Resumed {
        Resumed::Outcome(StealingBoard::resume(self, hold))
    }
}
