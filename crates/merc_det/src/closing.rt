//! Goals that become one, with its category.
ghost use Rattle.std.specs.Prelude.{◌≡◌, ◌≤◌, ◌-◌, ℕ, suc, drop, length, IfOk, OnOk};
ghost use Rattle.merc_tree.specs.Types.{TypeExpr};
ghost use Rattle.merc_order.specs.Procedures.{modes_of};
ghost use Rattle.merc_graded_tree.specs.Nodes.{goal_of};
ghost use Rattle.merc_graded_tree.specs.Roots.{arity_of, joining, label_of, root_of};
ghost use Rattle.merc_grading.specs.Fitting.{Fits};
ghost use Rattle.merc_grading.specs.Grading.{capped, rule};
ghost use Rattle.merc_det.specs.Closing.{closed, known_behind_root, with_category, FitsRoot};

use crate::basics::{basic_category, learn_from};
use crate::folding::{Joint, category_at, joined_category};
use crate::seen::SeenSymbols;
use crate::symbols::is_complete;
use merc_base::{Category, NoMemory};
use merc_goal_tree::Vars;
use merc_graded_tree::{Label, NodeRef, Nodes, Root};
use merc_grading::categories::{conditional_category, negation_category, once, switch_category};
use merc_name_resolution::Known;
use std::alloc::Global;

/// Makes the last goals, as many as a goal joins, that goal, with its category. What it tells of its variables, if it
/// joins none, is known from now on.
///
/// # Errors
///
/// `NoMemory` where memory was refused.
pub(crate) fn close(
    alloc: Global,
    known: &Known<'_>,
    goal: &NodeRef<'_>,
    seen: &mut SeenSymbols,
    graded: &mut Nodes,
) -> Result<(), NoMemory>
    requires { arity_of (root_of (goal_of goal.now)) ≤ length graded.old }
    ensures goals { OnOk result ((types : ℕ → TypeExpr) → Fits known.now.types types goal.now → graded.new ≡ closed known.now.types (modes_of known.now.preds) types seen.old goal.now graded.old) }
    ensures count { OnOk result (suc (length graded.old - arity_of (root_of (goal_of goal.now))) ≡ length graded.new) }
    ensures known { OnOk result (seen.new ≡ known_behind_root (root_of (goal_of goal.now)) seen.old) }
{
    let label = label_of(goal);
    let inner = category_of(alloc, known, seen, &label.root, graded)?;
    let category = capped(&label.outputs, inner);
    graded.put(with_category(alloc, label, category)?)?;
    learn_behind(&label.root, seen)
}

// What a goal with this root tells of its variables, if it joins none, is known from now on.
fn learn_behind(root: &Root, seen: &mut SeenSymbols) -> Result<(), NoMemory>
    ensures { OnOk result (seen.new ≡ known_behind_root root.now seen.old) }
{
    match root {
        Root::Basic(basic) => learn_from(basic, seen),
        Root::Conjunction(_, _)
        | Root::Disjunction(_)
        | Root::Switch(_, _)
        | Root::Conditional
        | Root::Negation
        | Root::Quantified(_) => Ok(()),
    }
}

// The category of a goal with this root, from what is known before it and the categories of the goals that it joins,
// which are the last ones.
fn category_of(
    alloc: Global,
    known: &Known<'_>,
    seen: &SeenSymbols,
    root: &Root,
    graded: &Nodes,
) -> Result<Category, NoMemory>
    requires { arity_of root.now ≤ length graded.now }
    ensures { IfOk result (λ category. (types : ℕ → TypeExpr) → FitsRoot known.now.types types root.now → category ≡ rule known.now.types (modes_of known.now.preds) types seen.now (joining root.now (drop (length graded.now - arity_of root.now) graded.now))) }
{
    let count = graded.len();
    Ok(match root {
        Root::Basic(basic) => basic_category(known, seen, basic),
        Root::Conjunction(_, joined) => joined_category(Joint::InTurn, graded, count - joined),
        Root::Disjunction(joined) => joined_category(Joint::Choice, graded, count - joined),
        Root::Switch(_, symbols) => {
            let symbols = symbols.as_slice();
            let is_complete = is_complete(alloc, known, symbols)?;
            let arms = joined_category(Joint::Arms, graded, count - symbols.len());
            switch_category(is_complete, arms)
        }
        Root::Conditional => {
            let condition = category_at(graded, count - 3);
            let then_part = category_at(graded, count - 2);
            let else_part = category_at(graded, count - 1);
            conditional_category(condition, then_part, else_part)
        }
        Root::Negation => negation_category(category_at(graded, count - 1)),
        Root::Quantified(_) => category_at(graded, count - 1),
    })
}

// A goal with these outputs: one without any has at most one solution.
fn capped(outputs: &Vars, inner: Category) -> Category
    ensures { result ≡ capped outputs.now inner }
{
    if outputs.as_slice().is_empty() {
        once(inner)
    } else {
        inner
    }
}

// What a goal has besides the goals that it joins.
fn label_of<'a>(goal: &NodeRef<'a>) -> &'a Label
    ensures { result.now ≡ label_of goal.now }
{
    match goal.part(goal.part_count() - 1) {
        Some(label) => label,
        None => unreachable!(),
    }
}

// A copy of the label, with this category.
fn with_category(alloc: Global, label: &Label, category: Category) -> Result<Label, NoMemory>
    ensures { IfOk result (λ copy. copy ≡ with_category label.now category) }
{
    Ok(Label {
        root: label.root.try_clone(alloc)?,
        outputs: label.outputs.try_clone(alloc)?,
        category: Some(category),
        span: label.span,
    })
}
