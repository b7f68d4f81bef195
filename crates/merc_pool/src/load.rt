//! What a branch carries: a machine.

use crate::engine::Engine;
use merc_board::Load;
use merc_machine::{Stop, Ticks};
use std::marker::{Brand, PhantomData};

/// What is asked: the script of the goal, what stands at the sites of the program, and the run that is told.
pub trait Asked {
    ghost use Rattle.std.specs.Prelude.{List};
    ghost use Rattle.merc_meaning.specs.Trace.{Run};
    ghost use Rattle.merc_rights.specs.declared.sites.SiteInfo.{SiteInfo};
    ghost use Rattle.merc_script.specs.Script.{Script};

    ghost root: { Script };

    ghost sites: { List SiteInfo };

    ghost run: { Run };
}

// A call that picks what is asked passes this; these members hold where none is picked.
impl Asked for Brand {
    ghost use Rattle.std.specs.Prelude.{[]};
    ghost use Rattle.merc_meaning.specs.Trace.{Ends, RunDone};
    ghost use Rattle.merc_script.specs.Script.{Ends as ScriptEnds};
    ghost use Rattle.merc_script.specs.declared.outcome.Outcome.TheVariants.{Limit};

    ghost root = { ScriptEnds Limit };

    ghost sites = { [] };

    ghost run = { Ends RunDone };
}

/// How far a machine has come.
#[derive(Drop)]
pub struct Progress<M: Engine> {
    pub machine: M,
    /// The stop to which the machine came last; at a wait and at a fork it says which.
    pub stop: Stop,
    /// How many answers it has given. Only the root has answers.
    pub given: u64,
    /// How many of the steps that it has made its board was told.
    pub reported: u64,
}

/// A machine on its way through what is asked.
#[derive(Drop)]
pub struct Carried<M: Engine, N: Asked> {
    pub progress: Progress<M>,
    /// The number of the conjunct that it is until it has entered the gate, then 0.
    pub enters: u32,
    /// The steps that the root's machine has made. Those of others are counted by the workers that make them.
    pub ticks: Ticks,
    pub asked: PhantomData<N>,
}

impl<M: Engine, N: Asked> Load for Carried<M, N> {
    ghost use Rattle.merc_pool.specs.Carrying.{StandsAt, AwaitsAt, ForkedAt, IsShown};

    ghost root = { N.root };

    ghost stands = { λ load. StandsAt M.Engine N.sites N.root N.run load.progress };

    ghost awaits = { λ load. AwaitsAt M.Engine N.sites N.root N.run load.progress };

    ghost forked = { λ load. ForkedAt M.Engine N.sites N.root N.run load.progress };

    ghost shows = { IsShown N.root };
}
