//! The check of the categories of procedures and of goals that are asked.
ghost use Rattle.std.specs.Prelude.{◌≡◌, ◌<◌, ◌≤◌, ◌+◌, ℕ, List, [], ◌∷◌, ◌++◌, Some, length, slice_get, IfErr, IfOk, OnOk};
ghost use Rattle.merc_base.specs.FirstFault.{first_of_faults};
ghost use Rattle.merc_base.specs.declared.refusal.Fault.TheVariants.{Refused};
ghost use Rattle.merc_base.specs.declared.refusal.Refusal.{Refusal};
ghost use Rattle.merc_tree.specs.Types.{TypeExpr};
ghost use Rattle.merc_tree.specs.declared.declarations.Module.{Module};
ghost use Rattle.merc_graded_tree.specs.Nodes.{Node};
ghost use Rattle.merc_order.specs.Bound.{nothing};
ghost use Rattle.merc_order.specs.Procedures.{bound_at};
ghost use Rattle.merc_modes.specs.Told.{IsTold};
ghost use Rattle.merc_grading.specs.Faults.{Body, Procedure, all_finished, category_fault, finished, mode_faults, parallel_faults, procedures_of, query_category_fault, with_modes};
ghost use Rattle.merc_grading.specs.Fitting.{Fits};
ghost use Rattle.merc_categories.specs.Fitted.{AreFitted, typed_as};
ghost use Rattle.merc_categories.specs.Progress.{IsDone};

use merc_base::{Fault, NoMemory, Refusal};
use merc_det::{first_of, grade, procedure_fault, query_fault};
use merc_graded_tree::{NodeRef, Nodes};
use merc_name_resolution::Known;
use merc_switch::find_switches;
use merc_tree::{Arg, ModeDecl, PredDecl};
use std::alloc::Global;

/// What is done of procedures.
#[derive(Drop)]
struct Progress {
    // how many are left
    left: usize,
    // their trees, with switches and categories
    graded: Nodes,
    // the first of their faults
    fault: Option<Refusal>,
}

/// The trees of the procedures of a module, with their switches and the category of each part. The procedures are the
/// predicates in each of their modes, in order, and `trees` are their goals in the order in which they run. That their
/// symbols fit the types of their variables follows from the check of types. Switches and categories are those of
/// docs/LANGUAGE.md, “Determinism categories”.
///
/// # Errors
///
/// The first fault of the procedures by its place, then its rule, then the order of its predicate and mode: rule 13 for
/// a declaration of the file that does not allow the category of its body, rule 14 for a parallel conjunct that is
/// neither `det` nor `erroneous`. `NoMemory` where memory was refused.
pub fn check_categories(alloc: Global, known: &Known<'_>, trees: &Nodes) -> Result<Nodes, Fault>
    requires { length trees.now ≡ length (procedures_of known.now.preds) }
    ensures told { (bodies : List Body) → AreFitted known.now.types bodies trees.now → IsTold (category_fault known.now.types known.now.preds bodies) result }
    ensures graded { IfOk result (λ graded. (bodies : List Body) → AreFitted known.now.types bodies trees.now → graded ≡ all_finished known.now.types known.now.preds (procedures_of known.now.preds) bodies) }
{
    let mut progress = nothing_done(alloc, trees.len());
    for declared in known.module().preds.as_slice() {
        check_modes(alloc, known, declared, trees, &mut progress)?;
    }
    let Progress { graded, fault, .. } = progress;
    told(graded, fault)
}

/// The tree of a goal that is asked, with its switches and the category of each part, as `check_categories` has them.
///
/// # Errors
///
/// The first fault of its parallel conjuncts by its place, rule 14. `NoMemory` where memory was refused.
pub fn check_query_categories(
    alloc: Global,
    known: &Known<'_>,
    tree: &NodeRef<'_>,
) -> Result<Nodes, Fault>
    ensures told { (types : ℕ → TypeExpr) → Fits known.now.types types tree.now → IsTold (query_category_fault known.now.types known.now.preds (typed_as types tree.now)) result }
    ensures graded { IfOk result (λ graded. (types : ℕ → TypeExpr) → Fits known.now.types types tree.now → graded ≡ finished known.now.types known.now.preds nothing (typed_as types tree.now) ∷ []) }
{
    let mut graded = Nodes::new(alloc);
    finish(alloc, known, &[], tree, &mut graded)?;
    let fault = first_fault(alloc, &graded)?;
    told(graded, fault)
}

// The trees, or the fault where there is one.
fn told(trees: Nodes, fault: Option<Refusal>) -> Result<Nodes, Fault>
    ensures told { IsTold fault result }
    ensures trees { IfOk result (λ same. same ≡ trees) }
    ensures refused { IfErr result (λ reason. (refusal : Refusal) × (reason ≡ Refused refusal)) }
{
    match fault {
        Some(refusal) => Err(Fault::Refused(refusal)),
        None => Ok(trees),
    }
}

// The progress before the first of so many procedures.
fn nothing_done(alloc: Global, count: usize) -> Progress
    ensures { (known : Module) (trees : List Node) → length trees ≡ count → IsDone known trees [] result }
{
    Progress {
        left: count,
        graded: Nodes::new(alloc),
        fault: None,
    }
}

// Goes on with the modes of a predicate.
fn check_modes(
    alloc: Global,
    known: &Known<'_>,
    declared: &PredDecl,
    trees: &Nodes,
    progress: &mut Progress,
) -> Result<(), NoMemory>
    requires enough { length declared.now.modes ≤ progress.old.left }
    requires within { progress.old.left ≤ length trees.now }
    ensures done { OnOk result ((procedures : List Procedure) → IsDone known.now trees.now procedures progress.old → IsDone known.now trees.now (procedures ++ with_modes declared.now declared.now.modes) progress.new) }
{
    for mode in declared.modes.as_slice() {
        check_mode(alloc, known, declared, mode, trees, progress)?;
    }
    Ok(())
}

// Goes on with one mode of a predicate.
fn check_mode(
    alloc: Global,
    known: &Known<'_>,
    declared: &PredDecl,
    mode: &ModeDecl,
    trees: &Nodes,
    progress: &mut Progress,
) -> Result<(), NoMemory>
    requires enough { 0 < progress.old.left }
    requires within { progress.old.left ≤ length trees.now }
    ensures done { OnOk result ((procedures : List Procedure) → IsDone known.now trees.now procedures progress.old → IsDone known.now trees.now (procedures ++ with_modes declared.now (mode.now ∷ [])) progress.new) }
    ensures left { OnOk result (progress.new.left + 1 ≡ progress.old.left) }
{
    let index = trees.len() - progress.left;
    let tree = match trees.get(index) {
        Some(tree) => tree,
        None => unreachable!(),
    };
    finish(
        alloc,
        known,
        mode.args.as_slice(),
        &tree,
        &mut progress.graded,
    )?;
    let fault = fault_at(alloc, declared, mode, &progress.graded, index)?;
    progress.fault = first_of(progress.fault, fault);
    progress.left -= 1;
    Ok(())
}

// The fault of a mode of a predicate, whose tree with its categories stands at an index.
fn fault_at(
    alloc: Global,
    declared: &PredDecl,
    mode: &ModeDecl,
    graded: &Nodes,
    index: usize,
) -> Result<Option<Refusal>, NoMemory>
    ensures { IfOk result (λ found. (tree : Node) → slice_get graded.now index ≡ Some tree → found ≡ first_of_faults (mode_faults declared.now.unit mode.now tree)) }
{
    match graded.get(index) {
        Some(tree) => procedure_fault(alloc, &declared.unit, mode, &tree),
        None => Ok(None),
    }
}

// The fault of a goal that is asked, whose tree with its categories stands first.
fn first_fault(alloc: Global, graded: &Nodes) -> Result<Option<Refusal>, NoMemory>
    ensures { IfOk result (λ found. (tree : Node) → slice_get graded.now 0 ≡ Some tree → found ≡ first_of_faults (parallel_faults tree)) }
{
    match graded.get(0) {
        Some(tree) => query_fault(alloc, &tree),
        None => Ok(None),
    }
}

// Puts a tree with its switches and categories behind others. Bound before it are the arguments with these inputs.
fn finish(
    alloc: Global,
    known: &Known<'_>,
    inputs: &[Arg],
    tree: &NodeRef<'_>,
    graded: &mut Nodes,
) -> Result<(), NoMemory>
    ensures { OnOk result ((types : ℕ → TypeExpr) → Fits known.now.types types tree.now → graded.new ≡ graded.old ++ finished known.now.types known.now.preds (bound_at inputs.now) (typed_as types tree.now) ∷ []) }
{
    let mut switched = Nodes::new(alloc);
    find_switches(alloc, known, inputs, tree, &mut switched)?;
    match switched.get(0) {
        Some(whole) => grade(alloc, known, &whole, graded),
        // There is one where the symbols fit.
        None => Ok(()),
    }
}
