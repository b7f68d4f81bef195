//! What is wrong with the categories of a goal that has them.
ghost use Rattle.std.specs.Prelude.{◌≡◌, List, [], ◌∷◌, ◌++◌, reverse, IfOk, OnOk, if◌then◌else◌};
ghost use Rattle.merc_base.specs.FirstFault.{first_of_faults};
ghost use Rattle.merc_base.specs.declared.refusal.Refusal.{Refusal};
ghost use Rattle.merc_graded_tree.specs.Nodes.{goal_of, nodes_of};
ghost use Rattle.merc_graded_tree.specs.Roots.{arms_of, bodies_of, goals_in};
ghost use Rattle.merc_graded_tree.specs.Views.{viewed};
ghost use Rattle.merc_grading.specs.Faults.{allows, at_most, beside_faults, conjunct_faults, mode_faults, own_faults, parallel_faults, runs_beside};
ghost use Rattle.merc_det.specs.Looking.{own_goal_faults};

use crate::folding::given;
use merc_base::{Category, Detail, Most, Name, NoMemory, Refusal, Rule};
use merc_goal_tree::Symbol;
use merc_graded_tree::{NodeRef, NodeView, Parts, Running, push_all};
use merc_grading::categories::{is_many, is_zero};
use merc_tree::ModeDecl;
use std::alloc::Global;

/// The first fault of a procedure's categories by its place, then its rule. The procedure is a mode of a predicate of
/// this unit, none for the file's own, and the tree its body with all categories. Rule 13: the declaration does not allow
/// the category of the body, at the declaration that has the mode; what a unit of the library declares is taken as it
/// is. Rule 14: a parallel conjunct is neither `det` nor `erroneous`, at the conjunct.
///
/// # Errors
///
/// `NoMemory` where memory was refused.
pub fn procedure_fault(
    alloc: Global,
    unit: &Option<Name>,
    mode: &ModeDecl,
    tree: &NodeRef<'_>,
) -> Result<Option<Refusal>, NoMemory>
    ensures { IfOk result (λ found. found ≡ first_of_faults (mode_faults unit.now mode.now tree.now)) }
{
    let inner = query_fault(alloc, tree)?;
    Ok(first_of(declaration_fault(unit, mode, tree), inner))
}

/// The first fault of the categories of a goal that is asked, whose tree has all categories: rule 14, as for
/// `procedure_fault`.
///
/// # Errors
///
/// `NoMemory` where memory was refused.
pub fn query_fault(alloc: Global, tree: &NodeRef<'_>) -> Result<Option<Refusal>, NoMemory>
    ensures { IfOk result (λ found. found ≡ first_of_faults (parallel_faults tree.now)) }
{
    let mut found = None;
    let mut left = Vec::new(alloc);
    left.push(tree.copy())?;
    while let Some(goal) = left.pop() {
        found = first_of(found, own_fault(&goal)?);
        push_joined(goal.view(), &mut left)?;
    }
    Ok(found)
}

// The fault of a procedure's declaration.
fn declaration_fault(unit: &Option<Name>, mode: &ModeDecl, tree: &NodeRef<'_>) -> Option<Refusal>
    ensures { result ≡ first_of_faults (own_faults unit.now mode.now tree.now) }
{
    let inferred = given(tree.category());
    if unit.is_some() || allows(mode.category, inferred) {
        return None;
    }
    Some(Refusal {
        rule: Rule::WrongCategory,
        place: mode.span.start(),
        detail: Detail::Categories(mode.category, inferred),
    })
}

// Whether a declaration allows a category.
fn allows(declared: Category, inferred: Category) -> bool
    ensures { result ≡ allows declared inferred }
{
    (!inferred.can_fail() || declared.can_fail()) && at_most(inferred.most(), declared.most())
}

fn at_most(inferred: Most, declared: Most) -> bool
    ensures { result ≡ at_most inferred declared }
{
    is_zero(inferred) || is_many(declared) || (!is_many(inferred) && !is_zero(declared))
}

// The first fault of the conjuncts of a goal, if it is a parallel conjunction.
fn own_fault(goal: &NodeRef<'_>) -> Result<Option<Refusal>, NoMemory>
    ensures { IfOk result (λ found. found ≡ first_of_faults (own_goal_faults (goal_of goal.now))) }
{
    match goal.view() {
        NodeView::Conjunction(Running::Parallel(_), conjuncts) => beside_fault(conjuncts),
        _ => Ok(None),
    }
}

// The first fault of parallel conjuncts.
fn beside_fault(conjuncts: Parts<'_>) -> Result<Option<Refusal>, NoMemory>
    ensures { IfOk result (λ found. found ≡ first_of_faults (beside_faults 1 (nodes_of conjuncts.entry))) }
{
    let mut left = conjuncts;
    let mut number = left.len();
    let mut found = None;
    while let Some(conjunct) = left.take_last() {
        found = first_of(conjunct_fault(number, &conjunct)?, found);
        number -= 1;
    }
    Ok(found)
}

// The fault of the parallel conjunct of this number.
fn conjunct_fault(number: usize, conjunct: &NodeRef<'_>) -> Result<Option<Refusal>, NoMemory>
    ensures { IfOk result (λ found. found ≡ first_of_faults (conjunct_faults number conjunct.now)) }
{
    let category = given(conjunct.category());
    if runs_beside(category) {
        return Ok(None);
    }
    Ok(Some(Refusal {
        rule: Rule::ParallelCategory,
        place: conjunct.span().start(),
        detail: Detail::Conjunct(Detail::conjunct_number(number)?, category),
    }))
}

// Whether a parallel conjunct may be of this category.
fn runs_beside(category: Category) -> bool
    ensures { result ≡ runs_beside category }
{
    match category {
        Category::Det | Category::Erroneous => true,
        Category::Semidet | Category::Multi | Category::Nondet | Category::Failure => false,
    }
}

// Puts the goals that a goal joins behind the others, from the last to the first.
fn push_joined<'a>(view: NodeView<'a>, left: &mut Vec<NodeRef<'a>>) -> Result<(), NoMemory>
    ensures { OnOk result (left.new.items ≡ left.old.items ++ reverse (goals_in (viewed view.entry))) }
{
    match view {
        NodeView::Basic(_) => {}
        NodeView::Conjunction(_, goals) | NodeView::Disjunction(goals) => push_all(goals, left)?,
        NodeView::Switch(_, symbols, arms) => push_arms(symbols.as_slice(), arms, left)?,
        NodeView::Conditional(condition, then_part, else_part) => {
            left.push(else_part)?;
            left.push(then_part)?;
            left.push(condition)?;
        }
        NodeView::Negation(inner) | NodeView::Quantified(_, inner) => left.push(inner)?,
    }
    Ok(())
}

// Puts the arms of a switch behind the others, each that has a symbol, from the last to the first.
fn push_arms<'a>(
    symbols: &[Symbol],
    arms: Parts<'a>,
    left: &mut Vec<NodeRef<'a>>,
) -> Result<(), NoMemory>
    ensures { OnOk result (left.new.items ≡ left.old.items ++ reverse (bodies_of (arms_of symbols.now arms.entry))) }
{
    let mut arms = arms;
    while let Some(last) = arms.take_last() {
        push_if(arms.len() < symbols.len(), last, left)?;
    }
    Ok(())
}

fn push_if<'a>(
    has_symbol: bool,
    goal: NodeRef<'a>,
    left: &mut Vec<NodeRef<'a>>,
) -> Result<(), NoMemory>
    ensures { OnOk result (left.new.items ≡ (if has_symbol then left.old.items ++ goal.entry ∷ [] else left.old.items)) }
{
    if has_symbol {
        left.push(goal)?;
    }
    Ok(())
}

/// The first of two faults by its place, then its rule; the one where they agree in both. There may be none of either.
pub fn first_of(one: Option<Refusal>, other: Option<Refusal>) -> Option<Refusal>
    ensures { (faults others : List Refusal) → one ≡ first_of_faults faults → other ≡ first_of_faults others → result ≡ first_of_faults (faults ++ others) }
{
    match (one, other) {
        (Some(one), Some(other)) => {
            if one.comes_first(&other) {
                Some(one)
            } else {
                Some(other)
            }
        }
        (Some(one), None) => Some(one),
        (None, other) => other,
    }
}
