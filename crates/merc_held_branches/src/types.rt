//! What goes through cells and joins.
ghost use Rattle.merc_held_branches.specs.Beds.{FitsCell, WaitsFor, EndsChild};

use merc_board::Load;
use merc_cell::Fits;
use merc_join::Forked;
use merc_value::Block;
use merc_yard::Berth;
use std::marker::PhantomData;

/// A value for a cell.
#[derive(Drop)]
pub struct Given<M: Load> {
    pub value: Block,
    pub of: PhantomData<M>,
}

impl<M: Load> Fits for Given<M> {
    ghost fits = { λ name given. FitsCell M.shows name given.value };
}

/// A berth in which a branch lies that waits for a value or for its children.
#[derive(Drop)]
pub struct Bed<M: Load> {
    pub berth: Berth,
    pub of: PhantomData<M>,
}

impl<M: Load> Fits for Bed<M> {
    ghost fits = { λ name bed. WaitsFor M.root name bed.berth };
}

impl<M: Load> Forked for Bed<M> {
    ghost ends = { λ bed child outcome. EndsChild M.root bed.berth child outcome };
}
