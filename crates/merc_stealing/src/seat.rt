//! The seats of workers, and the sparks in them.
ghost use Rattle.merc_yard.specs.declared.spot.Fill.TheVariants.{Filled};
ghost use Rattle.merc_yard.specs.declared.spot.Purpose.TheVariants.{Ready, Free};
ghost use Rattle.merc_held_branches.specs.Beds.{IsMoored};

use merc_deque::{Pass, Sparks};
use merc_held_branches::Room;
use merc_yard::Berth;
use std::marker::PhantomData;

/// A berth of a board's yard in which a branch lies that can be run.
#[derive(Drop)]
pub struct Spark<N: Room> {
    pub(crate) berth: Berth,
    pub(crate) of: PhantomData<N>,
    ghost moored: { IsMoored N.table Filled Ready berth },
}

/// The first of a chain of free berths.
#[derive(Drop)]
pub struct Chain<N: Room> {
    pub(crate) berth: Berth,
    pub(crate) of: PhantomData<N>,
    ghost moored: { IsMoored N.table Filled Free berth },
}

/// What a worker has of a board.
#[derive(Drop)]
pub struct Seat<N: Room> {
    /// The number of its worker, from 0.
    pub(crate) number: usize,
    pub(crate) sparks: Sparks<Spark<N>>,
    /// A pass for each worker's deque, in order.
    pub(crate) passes: Vec<Pass<Spark<N>>>,
    /// The sparks that the deque refused, each linked to the next.
    pub(crate) chain: Option<Spark<N>>,
    /// The berths that the worker can use, each linked to the next.
    pub(crate) free: Option<Chain<N>>,
}
