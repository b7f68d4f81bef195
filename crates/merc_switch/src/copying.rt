//! Copies of what goals have besides the goals that they join.
ghost use Rattle.std.specs.Prelude.{◌≡◌, [], ◌∷◌, ◌++◌, IfOk, OnOk};
ghost use Rattle.merc_graded_tree.specs.Nodes.{outputs_of, category_of, span_of};

use merc_base::NoMemory;
use merc_graded_tree::{Label, NodeRef, Nodes, Root};
use std::alloc::Global;

/// Puts a goal behind the others as it is.
///
/// # Errors
///
/// `NoMemory` where memory was refused, here and in the calls below.
pub(crate) fn put_copy(alloc: Global, goal: &NodeRef<'_>, found: &mut Nodes) -> Result<(), NoMemory>
    ensures { OnOk result (found.new ≡ found.old ++ goal.now ∷ []) }
{
    for index in 0..goal.part_count() {
        match goal.part(index) {
            Some(label) => found.put(label.try_clone(alloc)?)?,
            None => unreachable!(),
        }
    }
    Ok(())
}

/// What a goal has besides the goals that it joins, with this root.
pub(crate) fn label_with(alloc: Global, goal: &NodeRef<'_>, root: Root) -> Result<Label, NoMemory>
    ensures { IfOk result (λ label. label ≡ record { root = root; outputs = outputs_of goal.now; category = category_of goal.now; span = span_of goal.now }) }
{
    match goal.outputs().try_clone(alloc) {
        Ok(outputs) => Ok(Label {
            root,
            outputs,
            category: goal.category(),
            span: goal.span(),
        }),
        Err(refused) => {
            // (a call, since it costs much to prove what is dropped here)
            drop(root);
            Err(refused)
        }
    }
}
