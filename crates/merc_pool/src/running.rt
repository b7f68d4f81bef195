//! Slices of a branch.
ghost use Rattle.std.specs.Prelude.{◌≡◌, ◌≤◌, true};
ghost use Rattle.merc_board.specs.Rights.{Rights};
ghost use Rattle.merc_script.specs.Places.{Place};
ghost use Rattle.merc_pool.specs.Carrying.{Stands};
ghost use Rattle.merc_pool.specs.Running.{CountsSlice, RunsTo};

use crate::engine::Engine;
use crate::load::{Asked, Carried, Progress};
use merc_base::Gate;
use merc_machine::{Stop, Ticks};

/// Runs the machine of a branch up to its next stop, or so many steps, which are counted. Before its first step a conjunct
/// enters the gate.
pub(crate) fn run_slice<M: Engine, N: Asked, G: Gate>(
    gate: &G,
    slice: u32,
    enters: &mut u32,
    ticks: &mut Ticks,
    progress: &mut Progress<M>,
) -> Stop
    requires slice { 1 ≤ slice }
    requires stands { (rights : Rights) × (from : Place) × Stands M.Engine N.sites N.root N.run progress.old rights from }
    ensures runs { (rights : Rights) (from : Place) → Stands M.Engine N.sites N.root N.run progress.old rights from → RunsTo M.Engine N.sites N.root N.run slice progress.old progress.new rights from result }
    ensures counts { CountsSlice (M.seen progress.old.machine) (M.seen progress.new.machine) ticks.old ticks.new result }
{
    pass_gate(gate, enters);
    progress.stop = progress.machine.run(slice, ticks);
    progress.stop
}

/// The same of what a branch carries. The steps of the root are counted there, those of others by the worker.
pub(crate) fn run_load<M: Engine, N: Asked, G: Gate>(
    gate: &G,
    is_root: bool,
    slice: u32,
    ticks: &mut Ticks,
    load: &mut Carried<M, N>,
) -> Stop
    requires slice { 1 ≤ slice }
    requires stands { (rights : Rights) × (from : Place) × Stands M.Engine N.sites N.root N.run load.old.progress rights from }
    ensures runs { (rights : Rights) (from : Place) → Stands M.Engine N.sites N.root N.run load.old.progress rights from → RunsTo M.Engine N.sites N.root N.run slice load.old.progress load.new.progress rights from result }
    ensures counts { is_root ≡ true → CountsSlice (M.seen load.old.progress.machine) (M.seen load.new.progress.machine) load.old.ticks load.new.ticks result }
{
    if is_root {
        return run_slice::<M, N, G>(
            gate,
            slice,
            &mut load.enters,
            &mut load.ticks,
            &mut load.progress,
        );
    }
    run_slice::<M, N, G>(gate, slice, &mut load.enters, ticks, &mut load.progress)
}

// Enters the gate for a conjunct that has not begun, which then has.
fn pass_gate<G: Gate>(gate: &G, enters: &mut u32) {
    if *enters != 0 {
        gate.enter(*enters);
        *enters = 0;
    }
}
