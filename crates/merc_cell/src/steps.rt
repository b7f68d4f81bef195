//! The steps of each call, on a seat that is lent, so that a clause can say what the seat knows afterwards. And the
//! law that one side is handed the waiter.
ghost use Rattle.std.specs.Prelude.{◌≡◌, ℕ, true, false, List, [], ◌∷◌};
ghost use mathlib.Core.Option.{Option};
ghost use Rattle.merc_cell.specs.declared.glance.Slot.{Slot};
ghost use Rattle.merc_cell.specs.declared.glance.Slot.TheVariants.{Empty, Waiter, Value};
ghost use Rattle.merc_cell.specs.declared.glance.Stage.TheVariants.{Met, TookWaiter, TookBoth};
ghost use Rattle.merc_cell.specs.declared.glance.End.TheVariants.{Full};
ghost use Rattle.merc_cell.specs.declared.glance.Glance.{Glance};
ghost use Rattle.merc_cell.specs.Cell.{glance, Cases, IsBegun, IsAt, IsSeated, OneIsHanded};
ghost use Rattle.merc_cell.specs.Answers.{IsWaited, IsSignalled, IsPoisoned};

use crate::answer::CellWait;
use crate::glance::{Glance, Slot};
use crate::rule::{Fits, Grab, Signals, Spoils, TakeValue, TakeWaiter, Waits, Word};
use atomic_table::Seat;

/// The bit that the consumer sets.
pub const WAIT: u64 = 1;

/// The bit of a cell with a value.
pub const FULL: u64 = 2;

/// The bit of a cell that will get no value.
pub const POISON: u64 = 4;

const WAITER: usize = 0;

const VALUE: usize = 1;

/// A seat of a cell.
pub type CellSeat<V, W> = Seat<Slot<V, W>, Glance<V, W>>;

fn drop_empty<V: Drop, W: Drop>(slot: Slot<V, W>)
    requires { slot ≡ Empty }
{
    drop(slot);
}

fn take_waiter<V: Fits, W: Fits>(word: &Word<V, W>, seat: &mut CellSeat<V, W>) -> W
    requires { IsSeated seat.old.table_id word.now.table_id × IsAt Met seat.old.me.0 }
    ensures seat { (seat.new.table_id ≡ seat.old.table_id) × (seat.new.me.0 ≡ glance seat.old.me.0.name seat.old.me.0.consumer TookWaiter seat.old.me.0.end seat.old.me.0.put) }
    ensures waiter { W.fits seat.old.me.0.name result }
    ensures own { seat.old.me.0.consumer ≡ true → seat.old.me.0.put ≡ Waiter result }
{
    word.load::<TakeWaiter>(seat, 0);
    match word.exchange(seat, WAITER, Slot::Empty) {
        Slot::Waiter(waiter) => waiter,
        Slot::Value(_) | Slot::Empty => unreachable!(),
    }
}

fn take_value<V: Fits, W: Fits>(word: &Word<V, W>, seat: &mut CellSeat<V, W>) -> V
    requires { IsSeated seat.old.table_id word.now.table_id × IsAt TookWaiter seat.old.me.0 × (seat.old.me.0.end ≡ Full) }
    ensures seat { (seat.new.table_id ≡ seat.old.table_id) × (seat.new.me.0 ≡ glance seat.old.me.0.name seat.old.me.0.consumer TookBoth seat.old.me.0.end seat.old.me.0.put) }
    ensures value { V.fits seat.old.me.0.name result }
    ensures own { seat.old.me.0.consumer ≡ false → seat.old.me.0.put ≡ Value result }
{
    word.load::<TakeValue>(seat, 0);
    match word.exchange(seat, VALUE, Slot::Empty) {
        Slot::Value(value) => value,
        Slot::Waiter(_) | Slot::Empty => unreachable!(),
    }
}

/// Puts the waiter and sets the consumer's bit. Where the producer had come the waiter is taken back, with the value
/// where there is one.
pub fn wait_on<V: Fits + Drop, W: Fits + Drop>(
    word: &Word<V, W>,
    seat: &mut CellSeat<V, W>,
    waiter: W,
) -> CellWait<V, W>
    requires seat { IsSeated seat.old.table_id word.now.table_id × IsBegun true seat.old.me }
    requires fits { W.fits seat.old.me.0.name waiter }
    ensures table { seat.new.table_id ≡ seat.old.table_id }
    ensures waited { IsWaited V.fits seat.old.me.0.name waiter seat.new.me.0 result }
{
    word.load::<Grab>(seat, 0);
    drop_empty(word.exchange(seat, WAITER, Slot::Waiter(waiter)));
    let found = word.fetch_or::<Waits>(seat, 0, WAIT);
    if found == 0 {
        return CellWait::Parked;
    }
    let waiter = take_waiter(word, seat);
    if found == FULL {
        CellWait::Ready(waiter, take_value(word, seat))
    } else {
        CellWait::Starved(waiter)
    }
}

/// Puts the value and sets the bit of a full cell. Where the consumer had come its waiter is taken, and the value
/// back.
pub fn signal_on<V: Fits + Drop, W: Fits + Drop>(
    word: &Word<V, W>,
    seat: &mut CellSeat<V, W>,
    value: V,
) -> Option<(W, V)>
    requires seat { IsSeated seat.old.table_id word.now.table_id × IsBegun false seat.old.me }
    requires fits { V.fits seat.old.me.0.name value }
    ensures table { seat.new.table_id ≡ seat.old.table_id }
    ensures signalled { IsSignalled W.fits seat.old.me.0.name value seat.new.me.0 result }
{
    word.load::<Grab>(seat, 0);
    drop_empty(word.exchange(seat, VALUE, Slot::Value(value)));
    let found = word.fetch_or::<Signals>(seat, 0, FULL);
    if found != WAIT {
        return None;
    }
    let waiter = take_waiter(word, seat);
    Some((waiter, take_value(word, seat)))
}

/// Sets the bit of a poisoned cell. Where the consumer had come its waiter is taken.
pub fn poison_on<V: Fits, W: Fits>(word: &Word<V, W>, seat: &mut CellSeat<V, W>) -> Option<W>
    requires { IsSeated seat.old.table_id word.now.table_id × IsBegun false seat.old.me }
    ensures table { seat.new.table_id ≡ seat.old.table_id }
    ensures poisoned { IsPoisoned W.fits seat.old.me.0.name seat.new.me.0 result }
{
    let found = word.fetch_or::<Spoils>(seat, 0, POISON);
    if found != WAIT {
        return None;
    }
    Some(take_waiter(word, seat))
}

/// Whatever the steps before, with two seats: the waiter is handed to one of the sides where both have made their step
/// on the word, and to neither before that; and the end that the consumer found is how the producer ended.
pub fn one_is_handed<V: Fits, W: Fits>()
    ensures { (words : List ℕ) (homes : List (Option (Slot V W))) (c p : Glance V W) → Cases V.fits W.fits words homes (c ∷ p ∷ []) → OneIsHanded c p }
{}
