//! The children of a fork that were made.
ghost use Rattle.std.specs.Prelude.{◌<◌, length};

use crate::seat::Spark;
use merc_held_branches::Room;

/// The children of a fork, which can be started, the first one last.
#[derive(Drop)]
pub struct Children<N: Room> {
    pub(crate) sparks: Vec<Spark<N>>,
    ghost some: { 0 < length sparks.items },
}
