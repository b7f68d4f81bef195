//! Laws of machines and scripts.
ghost use Rattle.merc_machine_laws.specs.AtScripts.{ConjunctsAreThere, ConjunctsStartAtScripts, ForksEndScripts, ForksGoOnAtScripts, GoalsStartAtScripts, MeetingsAreItems, SignalsGoOnAtScripts, WaitsEndScripts, WaitsGoOnAtScripts};
ghost use Rattle.merc_machine_laws.specs.RunsAtScripts.{RunsPassTicks};

/// A machine that is started for an accepted goal stands at the goal's script; the machines of conjuncts stand at the beginnings of
/// their scripts; and behind a fork, a wait and a signal a machine stands at what is left there of its script.
pub fn machines_stand_at_scripts()
    ensures goals { GoalsStartAtScripts }
    ensures items { MeetingsAreItems }
    ensures there { ConjunctsAreThere }
    ensures conjuncts { ConjunctsStartAtScripts }
    ensures behind_forks { ForksGoOnAtScripts }
    ensures fork_ends { ForksEndScripts }
    ensures behind_waits { WaitsGoOnAtScripts }
    ensures wait_ends { WaitsEndScripts }
    ensures behind_signals { SignalsGoOnAtScripts }
{}

/// A run of a machine that stands at a script passes as many of its Ticks as the machine makes steps. It comes to what is left of
/// the script behind them, or ends as the script does.
pub fn runs_pass_ticks()
    ensures { RunsPassTicks }
{}
