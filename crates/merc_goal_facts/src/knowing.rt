//! What is known of all parts of a body.
ghost use Rattle.std.specs.Prelude.{◌≡◌, ◌≤◌, ◌+◌, ◌-◌, ◌++◌, [], ℕ, List, length, map, IfOk, OnOk};
ghost use Rattle.std.specs.List.{slice_index_or};
ghost use Rattle.merc_base.specs.declared.place.Span.{Span};
ghost use Rattle.merc_goal_tree.specs.Nodes.{Node, nodes_of};
ghost use Rattle.merc_goal_tree.specs.Roots.{arity_of, joining};
ghost use Rattle.merc_goal_tree.specs.Variables.{variables};
ghost use Rattle.merc_order.specs.Procedures.{modes_of, total_of};
ghost use Rattle.merc_goal_facts.specs.Facts.{AreKnown, subgoals, AreFactsOf};
ghost use Rattle.merc_goal_facts.specs.Complete.{AreKnown as JoinedAreKnown};
ghost use Rattle.merc_goal_facts.specs.Knowing.{variables_of_all, AreThere, Completes};
ghost use Rattle.merc_goal_facts.specs.Outside.{IsStretch};

use crate::bound::BoundSet;
use crate::complete::Complete;
use crate::deciding::{Decision, conditional_facts, disjunction_facts};
use crate::facts::{Facts, push_facts};
use crate::finding::{negation_facts, quantified_facts, simple_facts};
use crate::joining::conjunction_facts;
use crate::needing::leave_out;
use crate::occurrences::Occurrences;
use crate::stretch::Stretch;
use merc_base::NoMemory;
use merc_goal_tree::{NodeRef, Root};
use merc_tree::PredDecl;
use std::alloc::Global;

/// What is known of the parts of a body so far.
#[derive(Drop)]
struct Known {
    facts: Vec<Facts>,
    // the last of them are joined first
    complete: Vec<Complete>,
    // the place behind the variables of the parts so far
    end: usize,
}

// A part, the goals that it joins, and the stretch of their variables.
#[derive(Clone, Copy)]
struct Part<'a> {
    root: &'a Root,
    joined: &'a [Complete],
    stretch: Stretch<'a>,
}

/// The facts of all parts of a body, in their order. `all` are the head variables, so many, and behind them the variables
/// of the body as they occur in it.
///
/// # Errors
///
/// `NoMemory` where memory was refused.
pub fn facts_of(
    alloc: Global,
    predicates: &[PredDecl],
    all: &Occurrences,
    head_count: usize,
    goal: &NodeRef<'_>,
) -> Result<Vec<Facts>, NoMemory>
    ensures { IfOk result (λ facts. (heads : List ℕ) → length heads ≡ head_count → all.now ≡ heads ++ variables goal.now → AreKnown (total_of heads goal.now) (modes_of predicates.now) (subgoals goal.now) facts.items) }
{
    let mut set = BoundSet::new(alloc);
    let mut known = Known {
        facts: Vec::new(alloc),
        complete: Vec::new(alloc),
        end: head_count,
    };
    for index in 0..goal.part_count() {
        match goal.part(index) {
            Some((root, _)) => complete_part(alloc, &mut set, predicates, all, root, &mut known)?,
            None => unreachable!(),
        }
    }
    Ok(known.facts)
}

// Finds the facts of the next part. It joins the last of the goals that are complete, and is complete then.
fn complete_part(
    alloc: Global,
    set: &mut BoundSet,
    predicates: &[PredDecl],
    all: &Occurrences,
    root: &Root,
    known: &mut Known,
) -> Result<(), NoMemory>
    requires cleared { set.old ≡ [] }
    requires many { arity_of root.now ≤ length known.old.complete.items }
    requires there { AreThere (length known.old.facts.items) known.old.complete.items }
    ensures cleared { OnOk result (set.new ≡ []) }
    ensures many { OnOk result (length known.new.complete.items ≡ length known.old.complete.items - arity_of root.now + 1) }
    ensures there { OnOk result (AreThere (length known.new.facts.items) known.new.complete.items) }
    ensures completes { OnOk result (Completes (modes_of predicates.now) all.now root.now known.old known.new) }
{
    let kept = known.complete.len() - arity(root);
    let start = start_at(&known.complete, kept, known.end);
    let joined = &known.complete[kept..];
    let end = known.end;
    let next = Part {
        root,
        joined,
        stretch: Stretch { all, start, end },
    };
    let found = part_facts(alloc, set, predicates, &mut known.facts, next)?;
    known.end = place_behind(all, start, found.occurrences);
    let part = known.facts.len();
    push_facts(&mut known.facts, found)?;
    // What it needs is looked at before its goals are asked: they need not tell it again.
    leave_out(alloc, set, &mut known.facts, part, joined)?;
    known.complete.truncate(kept);
    known.complete.push(Complete { part, start })?;
    Ok(())
}

// The facts of a part by those of the goals that it joins. The list has the same facts and the set no variables, before and
// after.
fn part_facts(
    alloc: Global,
    set: &mut BoundSet,
    predicates: &[PredDecl],
    facts: &mut Vec<Facts>,
    part: Part<'_>,
) -> Result<Facts, NoMemory>
    requires cleared { set.old ≡ [] }
    requires many { length part.joined.now ≡ arity_of part.root.now }
    requires there { AreThere (length facts.old.items) part.joined.now }
    ensures facts { IfOk result (λ found. (total : ℕ → ℕ) (goals : List Node) (span : Span) → JoinedAreKnown total (modes_of predicates.now) facts.old.items part.entry.joined.now (nodes_of goals) → IsStretch total part.entry.stretch.all.now part.entry.stretch.start part.entry.stretch.end (variables_of_all goals) → AreFactsOf total (modes_of predicates.now) (joining part.entry.root.now span goals) found) }
    ensures same { OnOk result (facts.new.items ≡ facts.old.items) }
    ensures cleared { OnOk result (set.new ≡ []) }
{
    let joined = part.joined;
    let stretch = part.stretch;
    match part.root {
        Root::Simple(goal) => simple_facts(alloc, set, predicates, goal),
        Root::Conjunction(_) | Root::Parallel(_) => {
            let occurrences = stretch.end.saturating_sub(stretch.start);
            conjunction_facts(alloc, set, facts, joined, occurrences)
        }
        Root::Disjunction(_) => disjunction_facts(alloc, set, stretch, facts, joined),
        Root::Conditional => {
            let decision = Decision {
                condition: joined[0],
                then_part: joined[1],
                else_part: joined[2],
            };
            conditional_facts(alloc, set, stretch, facts, decision)
        }
        Root::Negation => negation_facts(alloc, stretch, &facts[joined[0].part]),
        Root::Quantified(_) => quantified_facts(alloc, stretch, &facts[joined[0].part]),
    }
}

// The place from which on the goal at an index occurs, or the end where there is none.
fn start_at(complete: &[Complete], index: usize, end: usize) -> usize
    ensures { result ≡ slice_index_or (map (λ goal. goal.start) complete.now) index end }
{
    match complete.get(index) {
        Some(goal) => goal.start,
        None => end,
    }
}

// The place behind so many occurrences from another place on.
fn place_behind(all: &Occurrences, start: usize, count: usize) -> usize
    ensures { start + count ≤ length all.now → result ≡ start + count }
{
    if count <= all.len().saturating_sub(start) {
        start + count
    } else {
        all.len()
    }
}

// How many goals a part joins.
fn arity(root: &Root) -> usize
    ensures { result ≡ arity_of root.now }
{
    match root {
        Root::Simple(_) => 0,
        Root::Conjunction(count) | Root::Parallel(count) | Root::Disjunction(count) => *count,
        Root::Conditional => 3,
        Root::Negation | Root::Quantified(_) => 1,
    }
}
