//! The calls of a board.
ghost use Rattle.std.specs.Prelude.{◌≡◌, ℕ, ◌+◌, Bool, true, List, [], Option, Some, None, IfSome, IfNone, IfOk, IfErr, MatchOption, All, if◌then◌else◌};
ghost use Rattle.merc_script.specs.declared.cells.Move.{Move};
ghost use Rattle.merc_script.specs.Script.{Script, WaitThen, SignalThen, ForkThen, Children, Cell};
ghost use Rattle.merc_script.specs.Places.{Place, left_of};
ghost use Rattle.merc_board.specs.declared.branch.Woken.{Woken};
ghost use Rattle.merc_board.specs.Rights.{Rights, no_rights, wait_for, signal_for, TookWait, TookSignal};
ghost use Rattle.merc_board.specs.Going.{start, next, Ticked};
ghost use Rattle.merc_board.specs.Boarding.{IsFound, MayEnd, IsResumed, IsWaited, Prepares, MayReport, MayGoOn, IsCut, KeepsCount};

use crate::branch::{Branch, Opened, Pace, Resumed, Waited, Woken};
use crate::fork::{Handover, SharedCell};
use crate::load::Load;
use merc_base::NoMemory;
use merc_goal_tree::Var;
use merc_script::Outcome;
use merc_value::Block;
use std::alloc::Global;
use std::sync::Wait;

/// Where branches lie that no worker runs, where they wait and where they are joined. Each worker has a seat, and gives it
/// to the calls that it makes. Of a branch the board keeps a hold: its rights, its place in a join, and with what it was
/// woken. Only `open` and `prepare` take memory.
pub trait Board<L: Load>: Sync + Drop {
    type Hold: Drop + Send;

    type Seat: Drop + Send;

    type WaitRight: Drop + Send;

    type SignalRight: Drop + Send;

    type Children: Drop + Send;

    // it was not opened yet
    ghost closed: { Self → Type 0 };

    // it is a seat of this board, and its worker has no branch
    ghost free: { Self → Self.Seat → Type 0 };

    // the seat's worker runs the branch of this hold, whose own script is left as at this place
    ghost own: { Self → Self.Seat → Self.Hold → Place → Type 0 };

    // the seat's worker runs the branch of this hold, wherever it stands
    ghost runs: { Self → Self.Seat → Self.Hold → Type 0 };

    // .. and it may end as Starved
    ghost starved: { Self → Self.Seat → Self.Hold → Type 0 };

    // the seat's worker has the parent of this hold, whose children have ended, at the fork at this place
    ghost holds: { Self → Self.Seat → Self.Hold → Place → Type 0 };

    // these are children of the fork at which the branch of the seat's worker stood
    ghost made_for: { Self → Self.Seat → Self.Children → Type 0 };

    // the rights of a branch, what it was woken with, and whether it is the root
    ghost rights: { Self.Hold → Rights };

    ghost woke: { Self.Hold → Woken };

    ghost of_root: { Self.Hold → Bool };

    // the cells of rights that were taken out
    ghost wait_cell: { Self.WaitRight → ℕ };

    ghost signal_cell: { Self.SignalRight → ℕ };

    // the seat has made this number of steps, of branches other than the root; it may run one more slice of such a branch
    ghost has_made: { Self.Seat → ℕ → Type 0 };

    ghost may_run: { Self.Seat → Type 0 };

    /// The seats of the workers, and the root's branch.
    ///
    /// # Errors
    ///
    /// `NoMemory` where memory was refused. The load is dropped.
    fn open(
        &mut self,
        alloc: Global,
        load: L,
    ) -> Result<Opened<L, Self::Hold, Self::Seat>, NoMemory>
        requires closed { closed self.old }
        requires stands { L.stands load no_rights (start L.root) }
        ensures root { IfOk result (λ opened. own self.new opened.home opened.root.value.hold (start L.root)) }
        ensures rights { IfOk result (λ opened. rights opened.root.value.hold ≡ no_rights) }
        ensures load { IfOk result (λ opened. opened.root.value.load ≡ load) }
        ensures others { IfOk result (λ opened. All (free self.new) opened.others.items) }
        ensures made { IfOk result (λ opened. has_made opened.home 0 × All (λ seat. has_made seat 0) opened.others.items) };

    /// Whether this is the root's hold.
    fn is_root(hold: &Self::Hold) -> bool
        ensures root { result ≡ of_root hold.now }
        ensures named { result ≡ true → (board : Self) (seat : Self.Seat) (at : Place) → own board seat hold.now at → at.name ≡ [] };

    /// What the branch was woken with, once.
    fn woken(hold: &mut Self::Hold) -> Woken
        ensures woke { result ≡ woke hold.old }
        ensures rights { rights hold.new ≡ rights hold.old }
        ensures own { (board : Self) (seat : Self.Seat) (at : Place) → own board seat hold.old at → own board seat hold.new at }
        ensures starved { (board : Self) (seat : Self.Seat) → starved board seat hold.old → starved board seat hold.new };

    /// Takes the right to wait for a variable out. Of several the first one is taken.
    fn wait_right(hold: &mut Self::Hold, variable: Var) -> Option<Self::WaitRight>
        requires { (board : Self) × (seat : Self.Seat) × (at : Place) × own board seat hold.old at }
        ensures none { IfNone result (wait_for variable (rights hold.old).waits ≡ None) }
        ensures some { IfSome result (λ right. TookWait variable (rights hold.old) (rights hold.new) (wait_cell right)) }
        ensures own { (board : Self) (seat : Self.Seat) (at : Place) → own board seat hold.old at → own board seat hold.new at };

    /// Takes the right to signal a variable out. Of several the one for the child that comes soonest is taken, the
    /// parent last.
    fn signal_right(hold: &mut Self::Hold, variable: Var) -> Option<Self::SignalRight>
        requires { (board : Self) × (seat : Self.Seat) × (at : Place) × own board seat hold.old at }
        ensures none { IfNone result (signal_for variable (rights hold.old).signals ≡ None) }
        ensures some { IfSome result (λ right. TookSignal variable (rights hold.old) (rights hold.new) (signal_cell right)) }
        ensures own { (board : Self) (seat : Self.Seat) (at : Place) → own board seat hold.old at → own board seat hold.new at };

    /// Reports steps of the branch that the seat's worker runs: it has passed so many Ticks of its script, and `made` of
    /// them were steps of the machine.
    fn go_on<R: Wait>(
        &self,
        rt: &R,
        seat: &mut Self::Seat,
        hold: &mut Self::Hold,
        ticks: u32,
        made: u32,
    ) -> Pace
        requires own { (from : Place) × own self.now seat.old hold.old from }
        requires made { MayReport (may_run seat.old) (of_root hold.old) ticks made }
        ensures own { (from at : Place) → own self.now seat.old hold.old from → Ticked from ticks at → own self.now seat.new hold.new at }
        ensures cut { IsCut (starved self.now seat.new hold.new) result }
        ensures made { (before : ℕ) → has_made seat.old before → has_made seat.new (before + (if of_root hold.old then 0 else made)) }
        ensures may_run { MayGoOn (may_run seat.new) (of_root hold.old) result }
        // so steps can be reported of a branch whose machine found no memory, and of which is not known where it stands
        ensures runs { (from : Place) → own self.now seat.old hold.old from → runs self.now seat.new hold.new }
        ensures rights { rights hold.new ≡ rights hold.old };

    /// A branch that the seat's worker runs from now on, where one is found.
    fn take<R: Wait>(&self, rt: &R, seat: &mut Self::Seat) -> Option<Box<Branch<L, Self::Hold>>>
        requires { free self.now seat.old }
        ensures none { IfNone result (free self.now seat.new) }
        ensures some { IfSome result (λ b. IsFound (own self.now seat.new b.value.hold) (L.stands b.value.load (rights b.value.hold)) (L.awaits b.value.load (rights b.value.hold)) L.shows (starved self.now seat.new b.value.hold) (woke b.value.hold)) }
        ensures count { KeepsCount has_made may_run seat.old seat.new };

    /// Branches for the children of a fork, its cells and its join. `limit` is the fork's, `shared` are its cells, and
    /// `given` are the parent's rights that move into children.
    ///
    /// # Errors
    ///
    /// `NoMemory` where memory was refused. The parent comes back, and the loads are dropped.
    fn prepare<R: Wait>(
        &self,
        rt: &R,
        alloc: Global,
        seat: &mut Self::Seat,
        loads: Vec<L>,
        parent: Box<Branch<L, Self::Hold>>,
        limit: u64,
        shared: &[SharedCell],
        given: &[Handover],
    ) -> Result<Self::Children, (Box<Branch<L, Self::Hold>>, NoMemory)>
        requires { Prepares (own self.now seat.old parent.value.hold) L.forked L.stands parent.value.load (rights parent.value.hold) shared.now given.now limit loads.items }
        ensures ok { IfOk result (λ children. made_for self.now seat.new children) }
        ensures err { IfErr result (λ back. runs self.now seat.new back.0.value.hold) }
        ensures count { KeepsCount has_made may_run seat.old seat.new };

    /// The first child, which the seat's worker runs from now on. The others can be taken.
    fn fork<R: Wait>(
        &self,
        rt: &R,
        seat: &mut Self::Seat,
        children: Self::Children,
    ) -> Box<Branch<L, Self::Hold>>
        requires { made_for self.now seat.old children }
        ensures found { IsFound (own self.now seat.new result.value.hold) (L.stands result.value.load (rights result.value.hold)) (L.awaits result.value.load (rights result.value.hold)) L.shows (starved self.now seat.new result.value.hold) (woke result.value.hold) }
        ensures count { KeepsCount has_made may_run seat.old seat.new };

    /// Waits for the value of a cell. The load stands at the wait.
    fn wait<R: Wait>(
        &self,
        rt: &R,
        seat: &mut Self::Seat,
        right: Self::WaitRight,
        branch: Box<Branch<L, Self::Hold>>,
    ) -> Waited<L, Self::Hold>
        requires { (at : Place) × (rest : Script) × own self.now seat.old branch.value.hold at × (left_of at ≡ Some (WaitThen (wait_cell right) rest)) × L.awaits branch.value.load (rights branch.value.hold) at }
        ensures waited { IsWaited (free self.now seat.new) (own self.now seat.new) L.awaits rights L.shows (starved self.now seat.new) result }
        ensures count { KeepsCount has_made may_run seat.old seat.new };

    /// Puts the value of a cell. The branch that the seat's worker runs, whichever it is, goes past the signal.
    fn signal<R: Wait>(&self, rt: &R, seat: &mut Self::Seat, right: Self::SignalRight, value: Block)
        requires { (hold : Self.Hold) × (at : Place) × (rest : Script) × own self.now seat.old hold at × (left_of at ≡ Some (SignalThen (signal_cell right) rest)) × L.shows (signal_cell right) value }
        ensures own { (hold : Self.Hold) (at : Place) (rest : Script) → own self.now seat.old hold at → left_of at ≡ Some (SignalThen (signal_cell right) rest) → own self.now seat.new hold (next at) }
        ensures count { KeepsCount has_made may_run seat.old seat.new };

    /// The branch ends with this outcome, and whoever waits for what it has not signalled starves. The parent, exactly
    /// where the branch is the last child of its join.
    fn end<R: Wait>(
        &self,
        rt: &R,
        seat: &mut Self::Seat,
        branch: Box<Branch<L, Self::Hold>>,
        outcome: Outcome,
    ) -> Option<Box<Branch<L, Self::Hold>>>
        requires { MayEnd (own self.now seat.old branch.value.hold) (L.stands branch.value.load (rights branch.value.hold)) (runs self.now seat.old branch.value.hold) (starved self.now seat.old branch.value.hold) outcome }
        ensures none { IfNone result (free self.now seat.new) }
        ensures some { IfSome result (λ p. (at : Place) × holds self.now seat.new p.value.hold at × L.forked p.value.load (rights p.value.hold) at) }
        ensures count { KeepsCount has_made may_run seat.old seat.new };

    /// What the children of a parent come to, once. The parent goes on behind its fork.
    fn resume<R: Wait>(&self, rt: &R, seat: &mut Self::Seat, hold: &mut Self::Hold) -> Resumed
        requires { (at : Place) × holds self.now seat.old hold.old at }
        ensures rights { rights hold.new ≡ rights hold.old }
        ensures resumed { (at : Place) (limit : ℕ) (cells : List Cell) (moves : List Move) (children : Children) (rest : Script) → holds self.now seat.old hold.old at → left_of at ≡ Some (ForkThen limit cells moves children rest) → IsResumed (own self.now seat.new hold.new) (runs self.now seat.new hold.new) (starved self.now seat.new hold.new) at limit children result }
        ensures made { (made : ℕ) → has_made seat.old made → has_made seat.new made };
}
