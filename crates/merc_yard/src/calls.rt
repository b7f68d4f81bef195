//! How a yard is made, and its calls.
ghost use Rattle.std.specs.Prelude.{◌≡◌, ◌≤◌, None, length, IfOk, All, []};
ghost use Rattle.std.specs.Vec.{vec_capacity};
ghost use Rattle.merc_yard.specs.declared.spot.Spot.{Spot};
ghost use Rattle.merc_yard.specs.declared.spot.Fill.TheVariants.{Dealer};
ghost use Rattle.merc_yard.specs.Slots.{label, nowhere};
ghost use Rattle.merc_yard.specs.Berths.{IsVacant, IsFilled};
ghost use Rattle.merc_yard.specs.Yards.{yard_table};

use crate::berth::Berth;
use crate::rule::{Empties, Fills, Lies, Moves, NextBerth, NextSpot, Opens, Word};
use crate::spot::Label;
use crate::yard::Yard;
use atomic_table::{Seat, Table};
use merc_base::NoMemory;
use std::alloc::Global;

/// A yard with this number of slots, in which nothing lies, and a berth for each slot.
///
/// # Errors
///
/// `NoMemory` where memory was refused.
pub fn open_yard<T: Drop, L: Lies<T>>(
    alloc: Global,
    count: usize,
) -> Result<(Yard<T, L>, Vec<Berth>), NoMemory>
    ensures { IfOk result (λ made. (length made.1.items ≡ count) × All (IsVacant (yard_table made.0) nowhere) made.1.items) }
{
    let mut berths = Vec::with_capacity(alloc, count)?;
    let Ok((table, mut dealer)) = Table::vacant(alloc, &[0], count, &()) else {
        return Err(NoMemory);
    };
    deal(&table.shared, &mut dealer, count, &mut berths);
    Ok((Yard { table }, berths))
}

// A berth for each slot.
fn deal<T, L: Lies<T>>(
    word: &Word<T, L>,
    dealer: &mut Seat<Option<T>, Label>,
    count: usize,
    berths: &mut Vec<Berth>,
)
    requires table { (word.now.table_id.words ≡ 1) × (word.now.table_id.slots ≡ count) × (dealer.old.table_id ≡ word.now.table_id) }
    requires view { dealer.old.me ≡ (label 0 Dealer nowhere, []) }
    requires room { (berths.old.items ≡ []) × (count ≤ vec_capacity berths.old) }
    ensures { (length berths.new.items ≡ count) × All (IsVacant word.now.table_id nowhere) berths.new.items }
{
    for slot in 0..count {
        let seat = word.split_seat::<NextBerth>(dealer);
        berths.push_reserved(Berth {
            slot,
            badge: seat.into_badge(),
        });
    }
}

fn drop_none<T: Drop>(slot: Option<T>)
    requires { slot ≡ None }
{
    drop(slot);
}

impl<T: Drop, L: Lies<T>> Yard<T, L> {
    /// Puts a value into a vacant berth, which is then for the spot that the call picks.
    pub fn put<C: NextSpot>(&self, berth: Berth, value: T) -> Berth
        requires berth { (old : Spot) × IsVacant (yard_table self.now) old berth }
        requires lies { L.lies C.spot value }
        ensures { IsFilled (yard_table self.now) C.spot result }
    {
        let Berth { slot, badge } = berth;
        let word = &self.table.shared;
        let mut seat = badge.into_seat();
        word.load::<Opens<L, C>>(&mut seat, 0);
        drop_none(word.exchange(&mut seat, slot, Some(value)));
        word.load::<Fills>(&mut seat, 0);
        Berth {
            slot,
            badge: seat.into_badge(),
        }
    }

    /// Takes the value out of a berth. The berth is then for the spot that the call picks.
    pub fn take<C: NextSpot>(&self, berth: Berth) -> (Berth, T)
        requires { (old : Spot) × IsFilled (yard_table self.now) old berth }
        ensures vacant { IsVacant (yard_table self.now) C.spot result.0 }
        ensures lies { (old : Spot) → IsFilled (yard_table self.now) old berth → L.lies old result.1 }
    {
        let Berth { slot, badge } = berth;
        let word = &self.table.shared;
        let mut seat = badge.into_seat();
        word.load::<Opens<L, C>>(&mut seat, 0);
        match word.exchange(&mut seat, slot, None) {
            Some(value) => {
                word.load::<Empties>(&mut seat, 0);
                (
                    Berth {
                        slot,
                        badge: seat.into_badge(),
                    },
                    value,
                )
            }
            None => unreachable!(),
        }
    }

    /// Nothing is put or taken: a vacant berth is from now on for the spot that the call picks.
    pub fn move_to<C: NextSpot>(&self, berth: Berth) -> Berth
        requires { (old : Spot) × IsVacant (yard_table self.now) old berth }
        ensures { IsVacant (yard_table self.now) C.spot result }
    {
        let Berth { slot, badge } = berth;
        let mut seat = badge.into_seat();
        self.table.shared.load::<Moves<C>>(&mut seat, 0);
        Berth {
            slot,
            badge: seat.into_badge(),
        }
    }
}
