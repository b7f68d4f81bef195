//! What the workers of a session share, and what each has of its own.

use crate::desk::Desk;
use crate::hand::Hand;
use crate::shares::Share;
use crate::spent::Spent;
use merc_machine::Ticks;
use std::alloc::Global;
use std::marker::PhantomData;

/// What the workers share.
#[derive(Drop)]
pub struct Shared<B: Drop> {
    pub board: B,
    pub sites: Vec<Share>,
    pub desk: Desk,
    pub spent: Spent,
    pub alloc: Global,
}

/// A worker: its seat, the counter of the steps that it makes of branches other than the root, and whether its board let it
/// run one more slice of such a branch.
#[derive(Drop)]
pub struct Worker<S: Drop> {
    pub seat: S,
    pub ticks: Ticks,
    pub may_run: bool,
}

/// A worker with what it has in hand. `P` names the further types of its board: a closure that runs over slots in threads gets
/// its proof only where its own types name all of these.
#[derive(Drop)]
pub struct Slot<L: Drop, H: Drop, S: Drop, P: Drop> {
    pub worker: Worker<S>,
    pub hand: Hand<L, H>,
    pub kinds: PhantomData<P>,
}
