//! The code of whole programs.
ghost use Rattle.std.specs.Prelude.{◌≡◌, ℕ, [], length, drop, map, IfOk, OnOk};
ghost use Rattle.merc_graded_tree.specs.declared.basic.Procedure.{Procedure};
ghost use Rattle.merc_meaning.specs.Programs.{program_with};
ghost use Rattle.merc_code.specs.Steps.{Codes};
ghost use Rattle.merc_code.specs.ProgramCode.{codes_in};
ghost use Rattle.merc_gen.specs.Generated.{codes_of, procedure_code, query_code};
ghost use Rattle.merc_gen.specs.Procedures.{mode_bodies, program_bodies, answer_once};
ghost use Rattle.merc_gen.specs.Singles.{contained};
ghost use Rattle.merc_gen.specs.Sites.{conjuncts_at, forked_with};

use crate::Singles;
use crate::forked::generate_conjuncts;
use crate::generating::generate_goal;
use crate::quiet::is_once;
use crate::trees::TreesLeft;
use merc_base::{NoMemory, Sequence};
use merc_code::{Code, CompiledProcedure, Instruction};
use merc_goal_tree::Vars;
use merc_graded_tree::{NodeRef, Nodes};
use merc_tree::{Args, ModeDecl, PredDecl};
use std::alloc::Global;

/// The code of all procedures of a module, of a goal that answers with the values of these variables, and of the conjuncts
/// that are forked at their sites. The trees are those of each predicate in each of its modes, both in order; a mode past
/// the last tree has no code. Sites are numbered in the order of the trees and of the goal behind them. It takes time and
/// memory of the order of the trees and the goal.
///
/// # Errors
///
/// `NoMemory` where memory was refused.
pub fn generate(
    alloc: Global,
    predicates: &[PredDecl],
    trees: &Nodes,
    goal: &NodeRef<'_>,
    answers: Vars,
) -> Result<Code, NoMemory>
    ensures procedures { IfOk result (λ code. (procedure : Procedure) → Codes.procedures (codes_in code) procedure ≡ Codes.procedures (codes_of (program_with predicates.now trees.now) (conjuncts_at (forked_with trees.now goal.now))) procedure) }
    ensures conjuncts { IfOk result (λ code. (site : ℕ) → Codes.conjuncts (codes_in code) site ≡ Codes.conjuncts (codes_of (program_with predicates.now trees.now) (conjuncts_at (forked_with trees.now goal.now))) site) }
    ensures query { IfOk result (λ code. code.query ≡ query_code (program_with predicates.now trees.now) goal.now answers) }
{
    let singles = find_singles(alloc, predicates, trees)?;
    let procedures = generate_procedures(alloc, &singles, predicates, trees)?;
    let conjuncts = generate_conjuncts(alloc, &singles, trees, goal)?;
    let query = generate_goal(alloc, &singles, goal, Instruction::Answer(answers))?;
    Ok(Code::new(procedures, conjuncts, Sequence::from_vec(query)))
}

// The procedures whose trees answer once.
fn find_singles(alloc: Global, predicates: &[PredDecl], trees: &Nodes) -> Result<Singles, NoMemory>
    ensures { IfOk result (λ singles. singles ≡ map answer_once (program_bodies predicates.now trees.now)) }
{
    let mut singles = Singles::new(alloc);
    push_singles(alloc, predicates, trees, &mut singles).and(Ok(singles))
}

// Tells of all predicates where nothing is told yet.
fn push_singles(
    alloc: Global,
    predicates: &[PredDecl],
    trees: &Nodes,
    singles: &mut Singles,
) -> Result<(), NoMemory>
    requires { singles.old ≡ [] }
    ensures { OnOk result (singles.new ≡ map answer_once (program_bodies predicates.now trees.now)) }
{
    let mut left = TreesLeft::new(trees);
    for declared in predicates {
        let modes = single_modes(alloc, declared.modes.as_slice(), &mut left)?;
        singles.push(modes)?;
    }
    Ok(())
}

// Whether the tree of each mode of a predicate answers once. Its trees are taken.
fn single_modes(
    alloc: Global,
    modes: &[ModeDecl],
    left: &mut TreesLeft<'_>,
) -> Result<Sequence<bool>, NoMemory>
    ensures flags { IfOk result (λ flags. flags ≡ answer_once (mode_bodies modes.now left.old)) }
    ensures left { IfOk result (λ flags. left.new ≡ drop (length modes.now) left.old) }
{
    let mut flags = Sequence::new(alloc);
    push_flags(modes, left, &mut flags).and(Ok(flags))
}

// Puts into an empty list whether the tree of each mode answers once. The trees are taken.
fn push_flags(
    modes: &[ModeDecl],
    left: &mut TreesLeft<'_>,
    flags: &mut Sequence<bool>,
) -> Result<(), NoMemory>
    requires { flags.old ≡ [] }
    ensures flags { OnOk result (flags.new ≡ answer_once (mode_bodies modes.now left.old)) }
    ensures left { OnOk result (left.new ≡ drop (length modes.now) left.old) }
{
    for _mode in modes {
        match left.take_first() {
            Some(tree) => flags.push(is_once(&tree))?,
            None => return Ok(()),
        }
    }
    Ok(())
}

// The code of all procedures.
fn generate_procedures(
    alloc: Global,
    singles: &Singles,
    predicates: &[PredDecl],
    trees: &Nodes,
) -> Result<Sequence<Sequence<CompiledProcedure>>, NoMemory>
    ensures { IfOk result (λ procedures. procedures ≡ map (map (procedure_code (contained singles.now))) (program_bodies predicates.now trees.now)) }
{
    let mut procedures = Sequence::new(alloc);
    push_procedures(alloc, singles, predicates, trees, &mut procedures).and(Ok(procedures))
}

// Puts the code of all procedures into an empty list.
fn push_procedures(
    alloc: Global,
    singles: &Singles,
    predicates: &[PredDecl],
    trees: &Nodes,
    procedures: &mut Sequence<Sequence<CompiledProcedure>>,
) -> Result<(), NoMemory>
    requires { procedures.old ≡ [] }
    ensures { OnOk result (procedures.new ≡ map (map (procedure_code (contained singles.now))) (program_bodies predicates.now trees.now)) }
{
    let mut left = TreesLeft::new(trees);
    for declared in predicates {
        let modes = generate_modes(alloc, singles, declared.modes.as_slice(), &mut left)?;
        procedures.push(modes)?;
    }
    Ok(())
}

// The code of a predicate in each of its modes. Its trees are taken.
fn generate_modes(
    alloc: Global,
    singles: &Singles,
    modes: &[ModeDecl],
    left: &mut TreesLeft<'_>,
) -> Result<Sequence<CompiledProcedure>, NoMemory>
    ensures procedures { IfOk result (λ procedures. procedures ≡ map (procedure_code (contained singles.now)) (mode_bodies modes.now left.old)) }
    ensures left { IfOk result (λ procedures. left.new ≡ drop (length modes.now) left.old) }
{
    let mut procedures = Sequence::new(alloc);
    push_modes(alloc, singles, modes, left, &mut procedures).and(Ok(procedures))
}

// Puts the code of a predicate in each of its modes into an empty list. Its trees are taken.
fn push_modes(
    alloc: Global,
    singles: &Singles,
    modes: &[ModeDecl],
    left: &mut TreesLeft<'_>,
    procedures: &mut Sequence<CompiledProcedure>,
) -> Result<(), NoMemory>
    requires { procedures.old ≡ [] }
    ensures procedures { OnOk result (procedures.new ≡ map (procedure_code (contained singles.now)) (mode_bodies modes.now left.old)) }
    ensures left { OnOk result (left.new ≡ drop (length modes.now) left.old) }
{
    for mode in modes {
        match left.take_first() {
            Some(tree) => {
                procedures.push(generate_procedure(alloc, singles, &mode.args, &tree)?)?
            }
            None => return Ok(()),
        }
    }
    Ok(())
}

// The code of one procedure.
fn generate_procedure(
    alloc: Global,
    singles: &Singles,
    places: &Args,
    tree: &NodeRef<'_>,
) -> Result<CompiledProcedure, NoMemory>
    ensures { IfOk result (λ procedure. procedure ≡ procedure_code (contained singles.now) (record { places = places.now; body = tree.now })) }
{
    let places = Vec::from_slice(alloc, places.as_slice())?;
    let code = generate_goal(alloc, singles, tree, Instruction::Return)?;
    Ok(CompiledProcedure {
        places: Sequence::from_vec(places),
        code: Sequence::from_vec(code),
    })
}
