//! How a cell is made, and the calls of its two ends.
ghost use Rattle.std.specs.Prelude.{◌≡◌, [], ◌∷◌, IfOk};
ghost use Rattle.merc_cell.specs.declared.glance.Slot.TheVariants.{Empty};
ghost use Rattle.merc_cell.specs.Answers.{IsWaited, IsSignalled, IsPoisoned};
ghost use Rattle.merc_cell.specs.Ends.{producer_name, consumer_name, producer_table, consumer_table, spent_table, spent_view};

use crate::answer::CellWait;
use crate::ends::{Consumer, Producer, Spent};
use crate::glance::Slot;
use crate::rule::{CellName, Fits, Sides};
use crate::steps::{poison_on, signal_on, wait_on};
use atomic_table::Table;
use merc_base::NoMemory;
use std::alloc::Global;
use std::sync::Arc;

fn two_slots<V: Drop, W: Drop>(alloc: Global) -> Result<Vec<Slot<V, W>>, NoMemory>
    ensures { IfOk result (λ slots. slots.items ≡ Empty ∷ Empty ∷ []) }
{
    let mut slots = Vec::new(alloc);
    slots.push(Slot::Empty)?;
    slots.push(Slot::Empty)?;
    Ok(slots)
}

/// The two ends of a new cell with the name that the call picks.
///
/// # Errors
///
/// `NoMemory` where memory was refused.
pub fn new_cell<V: Fits + Drop, W: Fits + Drop, N: CellName>(
    alloc: Global,
) -> Result<(Producer<V, W>, Consumer<V, W>), NoMemory>
    ensures names { IfOk result (λ ends. (producer_name ends.0 ≡ N.name) × (consumer_name ends.1 ≡ N.name)) }
    ensures one_cell { IfOk result (λ ends. producer_table ends.0 ≡ consumer_table ends.1) }
{
    let Ok((table, mut consumer)) = Table::new(alloc, &[0], two_slots(alloc)?, &()) else {
        return Err(NoMemory);
    };
    let table = Arc::new(alloc, table)?;
    let same = Arc::try_clone(&table)?;
    let producer = table.shared.split_seat::<Sides<N>>(&mut consumer);
    Ok((
        Producer {
            table: same,
            seat: producer,
        },
        Consumer {
            table,
            seat: consumer,
        },
    ))
}

impl<V: Fits + Drop, W: Fits + Drop> Consumer<V, W> {
    /// Waits for the value. Whoever comes second is handed the waiter, so it comes back here unless the answer is
    /// `Parked`. The seat that waited comes back: its one step found the cell full at `Ready`, poisoned at `Starved`,
    /// and neither at `Parked`.
    pub fn wait(self, waiter: W) -> (CellWait<V, W>, Spent<V, W>)
        requires { W.fits (consumer_name self) waiter }
        ensures table { spent_table result.1 ≡ consumer_table self }
        ensures waited { IsWaited V.fits (consumer_name self) waiter (spent_view result.1) result.0 }
    {
        let Consumer { table, mut seat } = self;
        let answer = wait_on(&table.shared, &mut seat, waiter);
        (answer, Spent { seat })
    }
}

impl<V: Fits + Drop, W: Fits + Drop> Producer<V, W> {
    /// Puts the value. Where the consumer had come its waiter is given, with the value. The seat that signalled comes
    /// back: nothing is given only where its one step found that the consumer had not come.
    pub fn signal(self, value: V) -> (Option<(W, V)>, Spent<V, W>)
        requires { V.fits (producer_name self) value }
        ensures table { spent_table result.1 ≡ producer_table self }
        ensures signalled { IsSignalled W.fits (producer_name self) value (spent_view result.1) result.0 }
    {
        let Producer { table, mut seat } = self;
        let given = signal_on(&table.shared, &mut seat, value);
        (given, Spent { seat })
    }

    /// Ends without a value. Where the consumer had come its waiter is given. The seat comes back: nothing is given only
    /// where its one step found that the consumer had not come.
    pub fn poison(self) -> (Option<W>, Spent<V, W>)
        ensures table { spent_table result.1 ≡ producer_table self }
        ensures poisoned { IsPoisoned W.fits (producer_name self) (spent_view result.1) result.0 }
    {
        let Producer { table, mut seat } = self;
        let given = poison_on(&table.shared, &mut seat);
        (given, Spent { seat })
    }
}
