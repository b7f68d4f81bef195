//! How a board is made, named and opened.
ghost use Rattle.std.specs.Prelude.{◌≡◌, ◌≤◌, ◌+◌, ◌*◌, [], length, IfOk, All, true};
ghost use Rattle.atomic_table.specs.Seated.{TableId};
ghost use Rattle.merc_yard.specs.declared.spot.Spot.{Spot};
ghost use Rattle.merc_yard.specs.declared.spot.Purpose.TheVariants.{Ready};
ghost use Rattle.merc_yard.specs.Slots.{nowhere, spot};
ghost use Rattle.merc_yard.specs.Yards.{yard_table};
ghost use Rattle.merc_yard.specs.Berths.{IsVacant};
ghost use Rattle.merc_board.specs.Rights.{no_rights};
ghost use Rattle.merc_board.specs.Going.{start};
ghost use Rattle.merc_stealing.specs.Memory.{has_memory};
ghost use Rattle.merc_held_branches.specs.Owning.{IsTaken, spot_held};
ghost use Rattle.merc_stealing.specs.Seats.{ArePasses};

use crate::board::StealingBoard;
use crate::formed::well_formed;
use crate::freeing::keep_berth;
use crate::seat::{Seat, Spark};
use crate::unnamed::Unnamed;
use merc_base::NoMemory;
use merc_board::{Branch, Load, Woken};
use merc_deque::{Pass, Sparks, Thief, new_sparks};
use merc_held_branches::{Held, Hold, Lot, Room};
use merc_yard::{Berth, NextSpot, open_yard};
use std::alloc::Global;
use std::marker::Brand;

/// The most berths that a worker's seat can be given.
pub const MOST_BERTHS: usize = 1048576;

/// What is made of a board before its yard has a name: for so many workers, each of which is given so many berths.
///
/// # Errors
///
/// `NoMemory` where memory was refused.
pub fn new_board<M: Load>(
    alloc: Global,
    workers: usize,
    share: usize,
) -> Result<Unnamed<M>, NoMemory>
    requires workers { (1 ≤ workers) × (workers ≤ 64) }
    requires share { share ≤ 1048576 }
    ensures workers { IfOk result (λ made. made.workers ≡ workers) }
    ensures share { IfOk result (λ made. made.share ≡ share) }
    ensures berths { IfOk result (λ made. length made.berths.items ≡ workers * share + 1) }
{
    let (lot, berths) = open_yard(alloc, workers * share + 1)?;
    Ok(Unnamed {
        lot,
        workers,
        share,
        berths,
    })
}

/// The board, which names its yard. No script of the loads' root may end for want of memory.
pub fn named<M: Load, N: Room>(alloc: Global, made: Unnamed<M>) -> StealingBoard<M, N>
    requires table { yard_table made.lot ≡ N.table }
    requires formed { has_memory M.root ≡ true }
    ensures { result.thieves.items ≡ [] }
{
    let Unnamed {
        lot,
        workers,
        share,
        berths,
    } = made;
    StealingBoard {
        lot,
        workers,
        share,
        berths,
        thieves: Vec::new(alloc),
        formed: well_formed(),
    }
}

fn passes_of<N: Room>(
    alloc: Global,
    thieves: &[Thief<Spark<N>>],
) -> Result<Vec<Pass<Spark<N>>>, NoMemory>
    ensures { IfOk result (λ passes. ArePasses thieves.now passes.items) }
{
    let mut passes = Vec::new(alloc);
    for thief in thieves {
        passes.push(thief.pass())?;
    }
    Ok(passes)
}

// A deque for each worker: their ends, and the thieves'.
fn deques<N: Room>(
    alloc: Global,
    workers: usize,
) -> Result<(Vec<Sparks<Spark<N>>>, Vec<Thief<Spark<N>>>), NoMemory> {
    let mut lists = Vec::new(alloc);
    let mut thieves = Vec::new(alloc);
    for i in 0..workers {
        let (sparks, thief, _) = new_sparks(alloc, 0)?;
        lists.push(sparks)?;
        thieves.push(thief)?;
    }
    Ok((lists, thieves))
}

fn move_to_root<M: Load, C: NextSpot>(lot: &Lot<M>, berth: Berth) -> Berth
    requires { (old : Spot) × IsVacant (yard_table lot.now) old berth }
    ensures { IsVacant (yard_table lot.now) C.spot result }
{
    lot.move_to::<C>(berth)
}

// The berth of the root.
fn root_berth<M: Load>(lot: &Lot<M>, berth: Berth) -> Berth
    requires { (old : Spot) × IsVacant (yard_table lot.now) old berth }
    ensures { IsVacant (yard_table lot.now) (spot (yard_table lot.now) [] 0 Ready) result }
{
    move_to_root::<M, Brand>(lot, berth)
}

pub(crate) fn make_root<M: Load>(
    alloc: Global,
    lot: &Lot<M>,
    berth: Berth,
    load: M,
) -> Result<Held<M>, NoMemory>
    requires berth { (old : Spot) × IsVacant (yard_table lot.now) old berth }
    requires stands { M.stands load no_rights (start M.root) }
    ensures taken { IfOk result (λ root. IsTaken M.root M.stands M.awaits M.forked M.shows (yard_table lot.now) root.value) }
    ensures spot { IfOk result (λ root. spot_held root.value.hold.berth ≡ spot (yard_table lot.now) [] 0 Ready) }
    ensures load { IfOk result (λ root. (root.value.load ≡ load) × (root.value.hold.waits.items ≡ []) × (root.value.hold.signals.items ≡ [])) }
{
    let hold = Hold {
        waits: Vec::new(alloc),
        signals: Vec::new(alloc),
        place: None,
        berth: Some(root_berth(lot, berth)),
        link: None,
        woken: Woken::No,
        limit: 0,
        held: None,
    };
    match Box::new(alloc, Branch { load, hold }) {
        Ok(root) => Ok(root),
        Err(_) => Err(NoMemory),
    }
}

fn give_berths<M: Load, N: Room>(
    lot: &Lot<M>,
    seat: &mut Seat<N>,
    berths: &mut Vec<Berth>,
    count: usize,
)
    requires tied { yard_table lot.now ≡ N.table }
    requires vacant { All (IsVacant (yard_table lot.now) nowhere) berths.old.items }
    ensures seat { seat.new.passes ≡ seat.old.passes }
    ensures vacant { All (IsVacant (yard_table lot.now) nowhere) berths.new.items }
{
    for i in 0..count {
        if let Some(berth) = berths.pop() {
            keep_berth(lot, seat, berth);
        }
    }
}

fn seats_of<M: Load, N: Room>(
    alloc: Global,
    lot: &Lot<M>,
    mut lists: Vec<Sparks<Spark<N>>>,
    thieves: &[Thief<Spark<N>>],
    berths: &mut Vec<Berth>,
    share: usize,
) -> Result<Vec<Seat<N>>, NoMemory>
    requires tied { yard_table lot.now ≡ N.table }
    requires vacant { All (IsVacant (yard_table lot.now) nowhere) berths.old.items }
    ensures seats { IfOk result (λ seats. All (λ seat. ArePasses thieves.now seat.passes.items) seats.items) }
    ensures vacant { All (IsVacant (yard_table lot.now) nowhere) berths.new.items }
{
    let mut seats = Vec::new(alloc);
    while let Some(sparks) = lists.pop() {
        let mut seat = Seat {
            number: lists.len(),
            sparks,
            passes: passes_of(alloc, thieves)?,
            chain: None,
            free: None,
        };
        give_berths(lot, &mut seat, berths, share);
        seats.push(seat)?;
    }
    Ok(seats)
}

impl<M: Load, N: Room> StealingBoard<M, N> {
    // The seats, the last worker's first, and the root.
    pub(crate) fn open_all(
        &mut self,
        alloc: Global,
        load: M,
    ) -> Result<(Vec<Seat<N>>, Held<M>), NoMemory>
        requires { M.stands load no_rights (start M.root) }
        ensures seats { IfOk result (λ opened. All (λ seat. ArePasses self.new.thieves.items seat.passes.items) opened.0.items) }
        ensures taken { IfOk result (λ opened. IsTaken M.root M.stands M.awaits M.forked M.shows N.table opened.1.value) }
        ensures spot { IfOk result (λ opened. spot_held opened.1.value.hold.berth ≡ spot N.table [] 0 Ready) }
        ensures load { IfOk result (λ opened. (opened.1.value.load ≡ load) × (opened.1.value.hold.waits.items ≡ []) × (opened.1.value.hold.signals.items ≡ [])) }
    {
        let Some(berth) = self.berths.pop() else {
            return Err(NoMemory);
        };
        let root = make_root(alloc, &self.lot, berth, load)?;
        let (lists, thieves) = deques(alloc, self.workers)?;
        let seats = seats_of(
            alloc,
            &self.lot,
            lists,
            &thieves,
            &mut self.berths,
            self.share,
        )?;
        self.thieves = thieves;
        Ok((seats, root))
    }
}
