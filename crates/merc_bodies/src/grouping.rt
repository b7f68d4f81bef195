//! Clauses with their flat forms in groups, by the names of their heads with numbers of arguments.
ghost use Rattle.std.specs.Prelude.{◌≡◌, [], ◌∷◌, ◌++◌, length, map, IfOk, OnOk};
ghost use Rattle.merc_tree.specs.declared.declarations.PredDecl.{PredDecl};
ghost use Rattle.merc_base.specs.Groups.{kept};
ghost use Rattle.merc_bodies.specs.Grouping.{formed_seen, headed, paired, paired_with};

use merc_base::{Groups, Key, NoMemory};
use merc_goal_tree::{NodeRef, Nodes};
use merc_tree::{Clause, Shape};
use std::alloc::Global;

/// A clause with its flat form.
#[derive(Drop)]
pub(crate) struct Formed<'a> {
    pub(crate) clause: &'a Clause,
    pub(crate) form: NodeRef<'a>,
}

/// Clauses with their forms, which stand in the same order, by their heads. A clause whose head is no name with arguments
/// is in no group.
///
/// # Errors
///
/// `NoMemory` where memory was refused; here and in the calls below.
pub(crate) fn grouped<'a>(
    alloc: Global,
    clauses: &'a [Clause],
    forms: &'a Nodes,
) -> Result<Groups<Formed<'a>>, NoMemory>
    ensures { IfOk result (λ groups. (declared : PredDecl) → map formed_seen (kept groups declared.name (length declared.args)) ≡ headed declared (paired clauses.now forms.now)) }
{
    let mut groups = Groups::new(alloc);
    for (index, clause) in clauses.iter().enumerate() {
        add_clause(alloc, clause, forms.get(index), &mut groups)?;
    }
    Ok(groups)
}

// Adds a clause to the group of its head, where it has a form.
fn add_clause<'a>(
    alloc: Global,
    clause: &'a Clause,
    form: Option<NodeRef<'a>>,
    groups: &mut Groups<Formed<'a>>,
) -> Result<(), NoMemory>
    ensures { OnOk result ((declared : PredDecl) → map formed_seen (kept groups.new declared.name (length declared.args)) ≡ map formed_seen (kept groups.old declared.name (length declared.args)) ++ headed declared (paired_with clause.now form.entry)) }
{
    let Some(form) = form else {
        return Ok(());
    };
    match clause.head.as_ref().shape() {
        Shape::Application { name, arity, .. } => {
            groups.add(alloc, Key { name, arity }, Formed { clause, form })
        }
        _ => Ok(()),
    }
}
