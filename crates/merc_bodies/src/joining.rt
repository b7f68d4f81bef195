//! How the clauses of a predicate become one goal.
ghost use Rattle.std.specs.Prelude.{◌≡◌, [], ◌∷◌, ◌++◌, length, map, IfOk, OnOk};
ghost use Rattle.merc_base.specs.Groups.{kept};
ghost use Rattle.merc_tree.specs.declared.declarations.Clause.{Clause};
ghost use Rattle.merc_goal_tree.specs.Nodes.{Node};
ghost use Rattle.merc_bodies.specs.Bodies.{body_of, joined_forms};
ghost use Rattle.merc_bodies.specs.Grouping.{body_of_pairs, formed_seen, form_in};

use crate::grouping::{Formed, grouped};
use crate::numbering::Numbering;
use crate::renaming::push_renamed;
use merc_base::{Groups, Key, NoMemory, Span};
use merc_goal_tree::{Nodes, SimpleGoal};
use merc_tree::{Clause, PredDecl};
use std::alloc::Global;

// Where a predicate without clauses stands: nowhere.
const NO_SPAN: Span = Span {
    first: 0,
    past: 0,
    line: 0,
};

/// The bodies of predicates, in their order: of each the disjunction of its clauses' flat forms, or its only clause's, or
/// `fail` where it has none. `forms` holds the form of each clause, in their order, in which the arguments of its
/// predicate have the numbers from 0.
///
/// In a body the arguments keep their numbers, and the other variables of each clause have those behind the ones of the
/// clauses before it, without gaps and in the order that they had.
///
/// With n occurrences of variables, clauses and predicates this takes time of the order of n log n.
///
/// # Errors
///
/// `NoMemory` where memory was refused.
pub fn bodies(
    alloc: Global,
    preds: &[PredDecl],
    clauses: &[Clause],
    forms: &Nodes,
) -> Result<Nodes, NoMemory>
    ensures { IfOk result (λ bodies. (form : Clause → Node) → forms.now ≡ map form clauses.now → bodies ≡ map (body_of form clauses.now) preds.now) }
{
    let groups = grouped(alloc, clauses, forms)?;
    let mut bodies = Nodes::new(alloc);
    let put = put_bodies(alloc, preds, &groups, &mut bodies);
    // (a call, here and below, since it costs much to prove what is dropped)
    drop(groups);
    match put {
        Ok(()) => Ok(bodies),
        Err(refused) => {
            drop(bodies);
            Err(refused)
        }
    }
}

// Puts the bodies of predicates behind other goals, each of the clauses in its group.
fn put_bodies(
    alloc: Global,
    preds: &[PredDecl],
    groups: &Groups<Formed<'_>>,
    nodes: &mut Nodes,
) -> Result<(), NoMemory>
    ensures { OnOk result (nodes.new ≡ nodes.old ++ map (λ declared. body_of_pairs (length declared.args) (map formed_seen (kept groups.now declared.name (length declared.args)))) preds.now) }
{
    for declared in preds {
        let arity = declared.args.len();
        let found = groups.at(Key {
            name: declared.name,
            arity,
        });
        put_body(alloc, arity, found, nodes)?;
    }
    Ok(())
}

// Puts the body of a predicate of so many arguments with these clauses behind other goals.
fn put_body(
    alloc: Global,
    arity: usize,
    clauses: &[Formed<'_>],
    nodes: &mut Nodes,
) -> Result<(), NoMemory>
    ensures { OnOk result (nodes.new ≡ nodes.old ++ body_of_pairs arity (map formed_seen clauses.now) ∷ []) }
{
    put_forms(alloc, arity, clauses, nodes)?;
    match clauses {
        [] => nodes.push(SimpleGoal::Fail, NO_SPAN),
        [_] => Ok(()),
        [first, ..] => nodes.disjoin(clauses.len(), first.clause.span),
    }
}

// Puts the forms of its clauses, with their new variables, behind other goals.
fn put_forms(
    alloc: Global,
    arity: usize,
    clauses: &[Formed<'_>],
    nodes: &mut Nodes,
) -> Result<(), NoMemory>
    ensures { OnOk result (nodes.new ≡ nodes.old ++ joined_forms arity arity (map form_in clauses.now)) }
{
    let mut numbering = Numbering::new(alloc, arity)?;
    let put = put_numbered(alloc, clauses, &mut numbering, nodes);
    drop(numbering);
    put
}

// Puts the forms of further clauses behind other goals, whose new variables have the next numbers.
fn put_numbered(
    alloc: Global,
    clauses: &[Formed<'_>],
    numbering: &mut Numbering,
    nodes: &mut Nodes,
) -> Result<(), NoMemory>
    ensures { OnOk result (nodes.new ≡ nodes.old ++ joined_forms numbering.old.arity (length numbering.old.variables.items) (map form_in clauses.now)) }
{
    for clause in clauses {
        numbering.take(alloc, &clause.form)?;
        push_renamed(alloc, numbering, &clause.form, nodes)?;
    }
    Ok(())
}
