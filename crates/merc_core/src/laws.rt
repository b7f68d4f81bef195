//! What holds of the core after every list of events that it accepts.
ghost use Rattle.merc_core.specs.History.{HistoriesAreRuns};
ghost use Rattle.merc_core.specs.Laws.{AlwaysEnds, EachCarries, EachSingle, EachStands, EachWaiter, EveryInterleaving, EveryLoss, NeverStuck, OwnEventsAlone};

/// Each outcome that is stored is the end of that child's script, each full cell is one that has a value in the root's
/// script, and the outcome of the whole is the end of the root's script: for every well-formed script, every number of
/// workers and however their events fall.
pub fn every_interleaving()
    ensures { EveryInterleaving }
{}

/// The same where branches may end for want of memory: an outcome may then be `NoMemory` or `Starved` instead.
pub fn every_loss()
    ensures { EveryLoss }
{}

/// No list of accepted events is as long as twice the script's size.
pub fn always_ends()
    ensures { AlwaysEnds }
{}

/// As long as the outermost join is not done there is an event that is accepted, for every well-formed script and one
/// worker or more.
pub fn never_stuck()
    ensures { NeverStuck }
{}

/// What is left of the script at a branch's name, without the items that it has passed, is what it carries, or it
/// carries an end that it was given early. And each join has the limit and the children of the Fork at its parent's
/// place. This holds of every script.
pub fn each_stands()
    ensures { EachStands }
{}

/// An event of another worker changes nothing of what a worker runs or holds.
pub fn own_events_alone()
    ensures { OwnEventsAlone }
{}

/// A history has no Ticks: those of a branch stand directly before its next other step. Where it leads, a list of
/// events leads that is the same but for its Ticks.
pub fn histories_are_runs()
    ensures { HistoriesAreRuns }
{}

/// In a well-formed script a branch carries what is left at its name, but for an end that it was given early, and this
/// is `Starved` or `NoMemory`.
pub fn each_carries()
    ensures { EachCarries }
{}

/// A worker runs or holds one branch at most, and a join has one parent at most.
pub fn each_single()
    ensures { EachSingle }
{}

/// In a well-formed script one branch at most is parked at a cell.
pub fn each_waiter()
    ensures { EachWaiter }
{}
