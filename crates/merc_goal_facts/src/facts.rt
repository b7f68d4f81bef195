//! What is known of the parts of a body before any of them is ordered.
ghost use Rattle.std.specs.Prelude.{◌≡◌, ◌++◌, ◌∷◌, [], OnOk};

use merc_base::NoMemory;
use merc_goal_tree::Vars;

/// What is known of one part of a body.
#[derive(Drop)]
pub struct Facts {
    /// Whether its end can be reached.
    pub reached: bool,
    /// The variables that it binds, each once.
    pub binds: Vars,
    /// The variables that have to be bound before it, since it may not bind them: those that a negated goal binds and that
    /// occur outside, or that only some of the arms bind.
    pub owed: Vars,
    /// Of an if-then-else, the variables that have to be bound before it, since its condition may not bind them: those that
    /// the condition binds and that occur outside of it and of the then part. Of other parts, none.
    pub owed_by_condition: Vars,
    /// Variables without which it is not ready: those that it reads and that no goal in it binds. Those that the goal that
    /// joins it needs too are told there alone, for that is looked at first.
    pub needs: Vars,
    /// How often variables occur in it.
    pub occurrences: usize,
}

/// Puts the facts of a part behind the others.
///
/// # Errors
///
/// `NoMemory` where memory was refused.
pub(crate) fn push_facts(facts: &mut Vec<Facts>, found: Facts) -> Result<(), NoMemory>
    ensures { OnOk result (facts.new.items ≡ facts.old.items ++ found ∷ []) }
{
    facts.push(found)?;
    Ok(())
}
