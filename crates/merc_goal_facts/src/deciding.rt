//! What is known of goals with arms, by what their arms bind.
ghost use Rattle.std.specs.Prelude.{◌≡◌, ◌-◌, ◌++◌, ◌∷◌, ℕ, List, Some, [], IfOk, OnOk, slice_get};
ghost use Rattle.std.specs.List.{filter};
ghost use Rattle.merc_base.specs.declared.place.Span.{Span};
ghost use Rattle.merc_tree.specs.declared.declarations.ModeDecl.{ModeDecl};
ghost use Rattle.merc_goal_tree.specs.Nodes.{Node, Nodes, Disjunction, Conditional, no_nodes, more_nodes};
ghost use Rattle.merc_goal_tree.specs.Variables.{variables, all_variables};
ghost use Rattle.merc_order.specs.Bound.{among};
ghost use Rattle.merc_goal_facts.specs.Arms.{all_of, those_bound, those_owed};
ghost use Rattle.merc_goal_facts.specs.Bounds.{all_behind};
ghost use Rattle.merc_goal_facts.specs.Complete.{AreKnown};
ghost use Rattle.merc_goal_facts.specs.Facts.{AreFactsOf};
ghost use Rattle.merc_goal_facts.specs.Needs.{found_in, is_needed};
ghost use Rattle.merc_goal_facts.specs.Outside.{occurs_outside, IsStretch};
ghost use Rattle.merc_goal_facts.specs.declared.facts.Facts.{Facts as FactsValue};

use crate::bound::BoundSet;
use crate::choosing::{bound_by_all, bound_by_some, is_any_reached, those_in};
use crate::complete::Complete;
use crate::facts::{Facts, push_facts};
use crate::finding::{those_not_in, those_outside};
use crate::joining::{conjunction_facts, facts_at};
use crate::needing::needed_by_some;
use crate::stretch::Stretch;
use merc_base::NoMemory;
use merc_goal_tree::{Var, Vars};
use std::alloc::Global;

// What is bound by the arms that count.
#[derive(Clone, Copy)]
struct Bindings<'a> {
    // whether the end of some arm can be reached
    reached: bool,
    // the variables that some of them bind
    some: &'a [Var],
    // the variables that all of them bind
    every: &'a [Var],
}

/// The goals of an if-then-else.
#[derive(Clone, Copy)]
pub(crate) struct Decision {
    pub(crate) condition: Complete,
    pub(crate) then_part: Complete,
    pub(crate) else_part: Complete,
}

/// The facts of a disjunction, by those of its arms; it occurs in this stretch. The set has no variables, before and after.
///
/// # Errors
///
/// `NoMemory` where memory was refused.
pub(crate) fn disjunction_facts(
    alloc: Global,
    set: &mut BoundSet,
    stretch: Stretch<'_>,
    facts: &[Facts],
    joined: &[Complete],
) -> Result<Facts, NoMemory>
    requires { set.old ≡ [] }
    ensures facts { IfOk result (λ found. (total : ℕ → ℕ) (modes : ℕ → List ModeDecl) (goals : Nodes) (span : Span) → AreKnown total modes facts.now joined.now goals → IsStretch total stretch.entry.all.now stretch.entry.start stretch.entry.end (all_variables goals) → AreFactsOf total modes (Disjunction goals span) found) }
    ensures cleared { OnOk result (set.new ≡ []) }
{
    let reached = is_any_reached(facts, joined);
    let some = bound_by_some(alloc, set, facts, joined, reached)?;
    let every = bound_by_all(alloc, set, facts, joined, reached)?;
    let bindings = Bindings {
        reached,
        some: some.as_slice(),
        every: those_of_all(some.as_slice(), &every),
    };
    arms_facts(alloc, set, stretch, facts, joined, bindings)
}

/// The facts of an if-then-else, by those of its condition, its then part and its else part; it occurs in this stretch. The
/// set has no variables and the list has the same facts, before and after.
///
/// # Errors
///
/// `NoMemory` where memory was refused.
pub(crate) fn conditional_facts(
    alloc: Global,
    set: &mut BoundSet,
    stretch: Stretch<'_>,
    facts: &mut Vec<Facts>,
    decision: Decision,
) -> Result<Facts, NoMemory>
    requires { set.old ≡ [] }
    ensures facts { IfOk result (λ found. (total : ℕ → ℕ) (modes : ℕ → List ModeDecl) (first second third : Node) (span : Span) → AreKnown total modes facts.old.items (decision.condition ∷ decision.then_part ∷ decision.else_part ∷ []) (more_nodes first (more_nodes second (more_nodes third no_nodes))) → IsStretch total stretch.entry.all.now stretch.entry.start stretch.entry.end (variables (Conditional first second third span)) → AreFactsOf total modes (Conditional first second third span) found) }
    ensures same { OnOk result (facts.new.items ≡ facts.old.items) }
    ensures cleared { OnOk result (set.new ≡ []) }
{
    let start = stretch.start;
    let else_count = occurrences_at(facts, decision.else_part);
    let then_end = stretch.end.saturating_sub(else_count);
    let goes = [decision.condition, decision.then_part];
    let occurrences = then_end.saturating_sub(start);
    let first_arm = conjunction_facts(alloc, set, facts, &goes, occurrences)?;
    let part = facts.len();
    push_facts(facts, first_arm)?;
    let arms = [Complete { part, start }, decision.else_part];
    let decided = disjunction_facts(alloc, set, stretch, facts, &arms)?;
    // The needs of the else part are not added: in a long chain each list would be longer than the one before.
    let needs = take_needs(alloc, facts);
    let condition_binds = binds_at(facts, decision.condition);
    let first = Stretch {
        end: then_end,
        ..stretch
    };
    owing(alloc, first, condition_binds, needs, decided)
}

// Takes the last facts away, and gives what they tell that is needed.
fn take_needs(alloc: Global, facts: &mut Vec<Facts>) -> Vars
    ensures { (others : List FactsValue) (last : FactsValue) → facts.old.items ≡ others ++ last ∷ [] → (facts.new.items ≡ others) × (result ≡ last.needs) }
{
    match facts.pop() {
        Some(last) => last.needs,
        None => Vars::new(alloc),
    }
}

// The facts of a disjunction, with these needs, and with what is owed by a condition that binds these variables. The
// stretch is that of the condition and the then part.
fn owing(
    alloc: Global,
    stretch: Stretch<'_>,
    condition_binds: &[Var],
    needs: Vars,
    decided: Facts,
) -> Result<Facts, NoMemory>
    ensures { IfOk result (λ found. found ≡ record { reached = decided.reached; binds = decided.binds; owed = decided.owed; owed_by_condition = filter (λ variable. occurs_outside stretch.entry.all.now stretch.entry.start stretch.entry.end variable) condition_binds.now; needs = needs; occurrences = decided.occurrences }) }
{
    let owed_by_condition = those_outside(alloc, stretch, condition_binds)?;
    Ok(Facts {
        reached: decided.reached,
        binds: decided.binds,
        owed: decided.owed,
        owed_by_condition,
        needs,
        occurrences: decided.occurrences,
    })
}

// What a goal that is complete binds.
fn binds_at(facts: &[Facts], complete: Complete) -> &[Var]
    ensures { (found : FactsValue) → slice_get facts.now complete.part ≡ Some found → result.now ≡ found.binds }
{
    match facts_at(facts, complete) {
        Some(found) => found.binds.as_slice(),
        None => &[],
    }
}

// How often variables occur in a goal that is complete.
fn occurrences_at(facts: &[Facts], complete: Complete) -> usize
    ensures { (found : FactsValue) → slice_get facts.now complete.part ≡ Some found → result ≡ found.occurrences }
{
    match facts_at(facts, complete) {
        Some(found) => found.occurrences,
        None => 0,
    }
}

// The variables that all arms bind; where there are no arms, those that some arm binds.
fn those_of_all<'a>(some: &'a [Var], every: &'a Option<Vars>) -> &'a [Var]
    ensures { result.now ≡ all_of some.now every.now }
{
    match every {
        Some(every) => every.as_slice(),
        None => some,
    }
}

// The facts of a goal by its arms and what they bind. The set has no variables, before and after.
fn arms_facts(
    alloc: Global,
    set: &mut BoundSet,
    stretch: Stretch<'_>,
    facts: &[Facts],
    joined: &[Complete],
    bindings: Bindings<'_>,
) -> Result<Facts, NoMemory>
    requires { set.old ≡ [] }
    ensures reached { IfOk result (λ found. found.reached ≡ bindings.entry.reached) }
    ensures binds { IfOk result (λ found. found.binds ≡ filter (λ variable. occurs_outside stretch.entry.all.now stretch.entry.start stretch.entry.end variable) (those_bound bindings.entry.reached bindings.entry.some.now (all_behind [] bindings.entry.every.now))) }
    ensures owed { IfOk result (λ found. found.owed ≡ filter (λ variable. occurs_outside stretch.entry.all.now stretch.entry.start stretch.entry.end variable) (those_owed bindings.entry.reached bindings.entry.some.now (all_behind [] bindings.entry.every.now))) }
    ensures occurrences { IfOk result (λ found. found.occurrences ≡ stretch.entry.end - stretch.entry.start) }
    ensures condition { IfOk result (λ found. found.owed_by_condition ≡ []) }
    ensures needs { IfOk result (λ found. (variable : ℕ) → among found.needs variable ≡ is_needed (found_in facts.now joined.now) variable) }
    ensures cleared { OnOk result (set.new ≡ []) }
{
    set.bind_all(bindings.every)?;
    let binds = bound_outside(alloc, set, stretch, bindings.reached, bindings.some)?;
    let owed = owed_outside(alloc, set, stretch, bindings.reached, bindings.some)?;
    set.undo(0);
    let needs = needed_by_some(alloc, set, facts, joined)?;
    Ok(Facts {
        reached: bindings.reached,
        binds,
        owed,
        owed_by_condition: Vars::new(alloc),
        needs,
        occurrences: stretch.end.saturating_sub(stretch.start),
    })
}

// Of the variables that some arm binds, those that are bound behind the arms and occur outside. The set has those that all
// arms bind.
fn bound_outside(
    alloc: Global,
    set: &BoundSet,
    stretch: Stretch<'_>,
    reached: bool,
    some: &[Var],
) -> Result<Vars, NoMemory>
    ensures { IfOk result (λ bound. bound ≡ filter (λ variable. occurs_outside stretch.entry.all.now stretch.entry.start stretch.entry.end variable) (those_bound reached some.now set.now)) }
{
    if reached {
        return those_outside(alloc, stretch, some);
    }
    let shared = those_in(alloc, set, some)?;
    those_outside(alloc, stretch, shared.as_slice())
}

// Of the variables that some arm binds, those that have to be bound before the arms and occur outside. The set has those that
// all arms bind.
fn owed_outside(
    alloc: Global,
    set: &BoundSet,
    stretch: Stretch<'_>,
    reached: bool,
    some: &[Var],
) -> Result<Vars, NoMemory>
    ensures { IfOk result (λ owed. owed ≡ filter (λ variable. occurs_outside stretch.entry.all.now stretch.entry.start stretch.entry.end variable) (those_owed reached some.now set.now)) }
{
    if !reached {
        return Ok(Vars::new(alloc));
    }
    let differing = those_not_in(alloc, set, some)?;
    those_outside(alloc, stretch, differing.as_slice())
}
