//! What is known of goals in sequence or side by side.
ghost use Rattle.std.specs.Prelude.{◌≡◌, ℕ, List, [], ◌∷◌, ◌&&◌, IfOk, OnOk, length, slice_get};
ghost use Rattle.std.specs.Option.{option_map};
ghost use Rattle.merc_base.specs.declared.place.Span.{Span};
ghost use Rattle.merc_tree.specs.declared.declarations.ModeDecl.{ModeDecl};
ghost use Rattle.merc_goal_tree.specs.Nodes.{Nodes, Conjunction, Parallel};
ghost use Rattle.merc_goal_tree.specs.Variables.{all_variables};
ghost use Rattle.merc_goal_facts.specs.Complete.{AreKnown};
ghost use Rattle.merc_goal_facts.specs.Facts.{AreFactsOf};

use crate::bound::BoundSet;
use crate::complete::Complete;
use crate::facts::Facts;
use crate::finding::put_all;
use crate::needing::needed_together;
use merc_base::NoMemory;
use merc_goal_tree::Vars;
use std::alloc::Global;

/// The facts of a conjunction, be it in sequence or side by side, by those of the goals that it joins, in which variables
/// occur so often. The set has no variables, before and after.
///
/// # Errors
///
/// `NoMemory` where memory was refused.
pub(crate) fn conjunction_facts(
    alloc: Global,
    set: &mut BoundSet,
    facts: &[Facts],
    joined: &[Complete],
    occurrences: usize,
) -> Result<Facts, NoMemory>
    requires { set.old ≡ [] }
    ensures sequence { IfOk result (λ found. (total : ℕ → ℕ) (modes : ℕ → List ModeDecl) (goals : Nodes) (span : Span) → AreKnown total modes facts.now joined.now goals → occurrences ≡ length (all_variables goals) → AreFactsOf total modes (Conjunction goals span) found) }
    ensures parallel { IfOk result (λ found. (total : ℕ → ℕ) (modes : ℕ → List ModeDecl) (goals : Nodes) (span : Span) → AreKnown total modes facts.now joined.now goals → occurrences ≡ length (all_variables goals) → AreFactsOf total modes (Parallel goals span) found) }
    ensures cleared { OnOk result (set.new ≡ []) }
{
    let mut reached = true;
    let mut binds = Vars::new(alloc);
    let mut rest = joined;
    while let [complete, others @ ..] = rest {
        if let Some(found) = facts_at(facts, *complete) {
            reached &= found.reached;
            put_all(set, &mut binds, found.binds.as_slice())?;
        }
        rest = others;
    }
    set.undo(0);
    let needs = needed_together(alloc, set, facts, joined)?;
    Ok(Facts {
        reached,
        binds,
        owed: Vars::new(alloc),
        owed_by_condition: Vars::new(alloc),
        needs,
        occurrences,
    })
}

/// The facts of a goal that is complete.
pub(crate) fn facts_at(facts: &[Facts], complete: Complete) -> Option<&Facts>
    ensures { option_map (λ found. found.now) result ≡ slice_get facts.now complete.part }
{
    facts.get(complete.part)
}
