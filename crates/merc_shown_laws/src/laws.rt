//! Laws of the runs that roots show.
ghost use Rattle.merc_shown_laws.specs.ShownLaws.{RootsShowRuns};
ghost use Rattle.merc_shown_laws.specs.PlainLaws.{GoalsWithoutForksArePlain};

/// What an accepted goal does beside others, by what it is told, shows along its script the goal's strict sequential run:
/// the same steps, the same end, and at each answer the same values of the goal's answer variables.
pub fn roots_show_runs()
    ensures { RootsShowRuns }
{}

/// Where neither an accepted goal nor a procedure that it can reach by calls has an `&`, the goal's script is plain: it has
/// Ticks and an end alone.
pub fn goals_without_forks_are_plain()
    ensures { GoalsWithoutForksArePlain }
{}
