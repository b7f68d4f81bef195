//! What the calls of a board do.
ghost use Rattle.std.specs.Prelude.{◌≡◌, IfSome, IfNone, []};
ghost use Rattle.merc_script.specs.Script.{Script, WaitThen};
ghost use Rattle.merc_script.specs.Places.{Place, left_of};
ghost use Rattle.merc_script.specs.Joining.{joined_behind};
ghost use Rattle.merc_script.specs.declared.outcome.Outcome.TheVariants.{Ok as Fine};
ghost use Rattle.merc_yard.specs.declared.spot.Spot.{Spot};
ghost use Rattle.merc_yard.specs.declared.spot.Fill.TheVariants.{Filled};
ghost use Rattle.merc_yard.specs.declared.spot.Purpose.TheVariants.{Waits};
ghost use Rattle.merc_yard.specs.Berths.{spot_of};
ghost use Rattle.merc_yard.specs.Yards.{yard_table};
ghost use Rattle.merc_cell.specs.Ends.{consumer_name, consumer_table, producer_name, spent_table, spent_view};
ghost use Rattle.merc_board.specs.Going.{next};
ghost use Rattle.merc_held_branches.specs.Spots.{place};
ghost use Rattle.merc_held_branches.specs.Beds.{IsMoored, IsNamed, cell_named};
ghost use Rattle.merc_held_branches.specs.Lying.{MayWake, rights};
ghost use Rattle.merc_held_branches.specs.Owning.{Runs, Own, IsTaken, MayEnd};
ghost use Rattle.merc_stealing.specs.Seats.{ArePasses};
ghost use Rattle.merc_stealing.specs.Taking.{TookNone};
ghost use Rattle.merc_stealing.specs.Waiting.{IsWaitedAs, HasCause};
ghost use Rattle.merc_stealing.specs.Parents.{IsParent, HoldsAt, IsJoin, AreEnds, OthersAreToCome, AllHaveCome};

use crate::board::StealingBoard;
use crate::children::Children;
use crate::freeing::keep_berth;
use crate::mooring::{moor_ready, moor_waiting, unmoor};
use crate::seat::{Seat, Spark};
use crate::sparking::{pop_spark, push_spark, steal_spark, take_spark};
use merc_board::{Load, Waited, Woken};
use merc_cell::{CellWait, Spent};
use merc_held_branches::{Bed, Given, Held, HeldSignal, HeldWait, Hold, Lot, Room};
use merc_join::{Finished, SpentTicket};
use merc_script::{Outcome, join_next};
use merc_value::Block;
use std::marker::PhantomData;
use std::sync::Wait;

// What outcomes make together.
fn join_all(limit: u64, outcomes: &[Outcome]) -> Outcome
    ensures { result ≡ joined_behind limit (Fine 0) outcomes.now }
{
    let mut before = Outcome::Ok(0);
    for outcome in outcomes {
        before = join_next(limit, before, *outcome);
    }
    before
}

// A branch that waited can be taken, with what it was woken with.
fn wake<M: Load, N: Room>(lot: &Lot<M>, seat: &mut Seat<N>, bed: Bed<M>, woken: Woken)
    requires tied { yard_table lot.now ≡ N.table }
    requires moored { IsMoored N.table Filled Waits bed.berth }
    requires woken { MayWake M.root M.shows (spot_of bed.berth) woken }
    ensures { seat.new.passes ≡ seat.old.passes }
{
    let Bed { berth, of: _ } = bed;
    let mut branch = unmoor(lot, berth);
    branch.hold.woken = woken;
    let berth = moor_ready(lot, branch);
    push_spark(
        lot,
        seat,
        Spark {
            berth,
            of: PhantomData,
        },
    );
}

// A branch is dropped that has no right to signal left.
fn let_go<M: Load>(branch: Held<M>)
    requires { branch.value.hold.signals.items ≡ [] }
{
    drop(branch);
}

impl<M: Load, N: Room> StealingBoard<M, N> {
    pub(crate) fn take<R: Wait>(&self, rt: &R, seat: &mut Seat<N>) -> Option<Held<M>>
        requires { ArePasses self.now.thieves.items seat.old.passes.items }
        ensures seat { ArePasses self.now.thieves.items seat.new.passes.items }
        ensures taken { IfSome result (λ branch. IsTaken M.root M.stands M.awaits M.forked M.shows N.table branch.value) }
        ensures none { IfNone result (TookNone self.now.thieves.items seat.old seat.new) }
    {
        if let Some(branch) = pop_spark(&self.lot, seat) {
            return Some(branch);
        }
        match steal_spark(rt, &self.thieves, seat) {
            Some(spark) => Some(take_spark(&self.lot, spark).0),
            None => None,
        }
    }

    pub(crate) fn fork(&self, seat: &mut Seat<N>, children: Children<N>) -> Held<M>
        ensures seat { seat.new.passes ≡ seat.old.passes }
        ensures taken { IsTaken M.root M.stands M.awaits M.forked M.shows N.table result.value }
    {
        let Children { mut sparks } = children;
        match sparks.pop() {
            Some(first) => {
                for spark in sparks {
                    push_spark(&self.lot, seat, spark);
                }
                take_spark(&self.lot, first).0
            }
            None => unreachable!(),
        }
    }

    // The seat that waited comes back, which knows why this is the answer.
    pub(crate) fn wait(
        &self,
        right: HeldWait<M>,
        branch: Held<M>,
    ) -> (Waited<M, Hold<M>>, Spent<Given<M>, Bed<M>>)
        requires named { IsNamed N.table (consumer_name right.end) }
        requires waits { (at : Place) × (rest : Script) × Own M.root N.table branch.value.hold at × (left_of at ≡ Some (WaitThen (cell_named (consumer_name right.end)) rest)) × M.awaits branch.value.load (rights branch.value.hold) at }
        ensures waited { IsWaitedAs M.root M.stands M.awaits M.forked M.shows N.table result.0 }
        ensures cause { (spent_table result.1 ≡ consumer_table right.end) × HasCause (spent_view result.1) result.0 }
    {
        let HeldWait { variable: _, end } = right;
        let berth = moor_waiting(&self.lot, branch);
        let (answer, spent) = end.wait(Bed {
            berth,
            of: PhantomData,
        });
        let waited = match answer {
            CellWait::Ready(bed, given) => Waited::Ready(unmoor(&self.lot, bed.berth), given.value),
            CellWait::Starved(bed) => Waited::Starved(unmoor(&self.lot, bed.berth)),
            CellWait::Parked => Waited::Parked,
        };
        (waited, spent)
    }

    pub(crate) fn signal(&self, seat: &mut Seat<N>, right: HeldSignal<M>, value: Block)
        requires named { IsNamed N.table (producer_name right.end) }
        requires shows { M.shows (cell_named (producer_name right.end)) value }
        ensures { seat.new.passes ≡ seat.old.passes }
    {
        let HeldSignal {
            variable: _,
            consumer: _,
            end,
        } = right;
        let (woken, _) = end.signal(Given {
            value,
            of: PhantomData,
        });
        if let Some((bed, given)) = woken {
            wake(&self.lot, seat, bed, Woken::Value(given.value));
        }
    }

    // Those that wait for what the branch has not signalled are woken without it.
    fn poison(&self, seat: &mut Seat<N>, hold: &mut Hold<M>)
        requires { Runs M.root N.table hold.old }
        ensures seat { seat.new.passes ≡ seat.old.passes }
        ensures hold { (hold.new.berth ≡ hold.old.berth) × (hold.new.place ≡ hold.old.place) }
        ensures none { hold.new.signals.items ≡ [] }
    {
        while let Some(right) = hold.signals.pop() {
            let HeldSignal {
                variable: _,
                consumer: _,
                end,
            } = right;
            let (woken, _) = end.poison();
            if let Some(bed) = woken {
                wake(&self.lot, seat, bed, Woken::Starved);
            }
        }
    }

    // The seat of the branch's ticket comes back, which knows whether others are to come.
    pub(crate) fn end(
        &self,
        seat: &mut Seat<N>,
        mut branch: Held<M>,
        outcome: Outcome,
    ) -> (Option<Held<M>>, Option<SpentTicket<Bed<M>>>)
        requires { MayEnd (Own M.root N.table branch.value.hold) (Runs M.root N.table branch.value.hold) outcome }
        ensures seat { seat.new.passes ≡ seat.old.passes }
        ensures some { IfSome result.0 (λ parent. IsParent M.root M.stands M.awaits M.forked M.shows N.table parent.value) }
        ensures last { IfSome result.0 (λ _. AllHaveCome branch.value.hold.place result.1) }
        ensures none { IfNone result.0 (OthersAreToCome branch.value.hold.place result.1) }
    {
        self.poison(seat, &mut branch.hold);
        if let Some(berth) = branch.hold.berth.take() {
            keep_berth(&self.lot, seat, berth);
        }
        match branch.hold.place.take() {
            Some(ticket) => {
                let_go(branch);
                let (given, spent) = ticket.done(outcome);
                match given {
                    Some(finished) => (Some(self.come_back(finished)), Some(spent)),
                    None => (None, Some(spent)),
                }
            }
            None => {
                let_go(branch);
                (None, None)
            }
        }
    }

    // The parent comes out of its berth, with what its children make together.
    fn come_back(&self, finished: Finished<Bed<M>>) -> Held<M>
        requires { AreEnds M.root N.table finished.parent.berth finished.outcomes }
        ensures { IsParent M.root M.stands M.awaits M.forked M.shows N.table result.value }
    {
        let Finished { outcomes, parent } = finished;
        let mut branch = unmoor(&self.lot, parent.berth);
        branch.hold.held = Some(join_all(branch.hold.limit, outcomes.as_slice()));
        branch
    }

    pub(crate) fn resume(&self, hold: &mut Hold<M>) -> Outcome
        requires { (o : Spot) × HoldsAt M.root N.table o hold.old }
        ensures runs { Runs M.root N.table hold.new }
        ensures rights { rights hold.new ≡ rights hold.old }
        ensures behind { (o : Spot) → HoldsAt M.root N.table o hold.old → Own M.root N.table hold.new (next (place M.root o)) × IsJoin M.root o result }
    {
        match hold.held.take() {
            Some(outcome) => outcome,
            None => Outcome::NoMemory,
        }
    }
}
