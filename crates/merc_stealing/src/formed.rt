//! Root scripts without want of memory.
ghost use Rattle.std.specs.Prelude.{◌≡◌, true};
ghost use Rattle.merc_stealing.specs.Memory.{has_memory};

use merc_board::Load;
use std::marker::PhantomData;

/// No script of the loads' root ends for want of memory.
#[derive(Drop)]
pub struct WellFormed<M: Load> {
    of: PhantomData<M>,
    ghost formed: { has_memory M.root ≡ true },
}

/// Where the root is so.
pub(crate) fn well_formed<M: Load>() -> WellFormed<M>
    requires { has_memory M.root ≡ true }
{
    WellFormed { of: PhantomData }
}
