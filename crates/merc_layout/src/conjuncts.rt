//! The conjuncts of a program, each with its entry.
ghost use Rattle.std.specs.Prelude.{◌≡◌, ℕ, List, [], ◌∷◌, ◌++◌, IfOk, OnOk};
ghost use Rattle.merc_code.specs.Steps.{Codes, ConjunctCode};
ghost use Rattle.merc_layout.specs.Entries.{AreAdded, Each};
ghost use Rattle.merc_layout.specs.KnownConjuncts.{AreKnownConjuncts, IsConjunctPiece, IsKnownConjunct};
ghost use Rattle.merc_layout.specs.Sizes.{TellsLent};
ghost use Rattle.merc_layout.specs.declared.conjuncts.KnownConjunct.{KnownConjunct};

use crate::entries::{Entry, Piece, Pieces, piece_over};
use crate::sizes::above_all;
use merc_base::{NoMemory, Sequence};
use merc_code::{CompiledConjunct, Instruction};
use merc_goal_tree::Vars;
use std::alloc::Global;

/// A conjunct that can be forked: its entry, and the variables with whose values it begins.
#[derive(Drop)]
pub struct KnownConjunct {
    pub entry: Entry,
    pub used: Vars,
}

/// What is known of the conjuncts of each site, by its number.
pub type Conjuncts = Sequence<Sequence<KnownConjunct>>;

/// Puts the code of the conjuncts of each site behind the other pieces, and gives what is known of them. It is told of each site
/// what number the variables are below that its conjuncts use.
///
/// # Errors
///
/// `NoMemory` where memory was refused, or a frame has more slots, or all pieces more instructions, than memory can have.
pub fn place_conjuncts(
    alloc: Global,
    conjuncts: Sequence<Sequence<CompiledConjunct>>,
    lent: &[usize],
    pieces: &mut Pieces,
) -> Result<Conjuncts, NoMemory>
    ensures added { IfOk result (λ _. AreAdded pieces.old pieces.new) }
    ensures known { IfOk result (λ table. (codes : Codes) → TellsLent lent.now codes.conjuncts → AreKnownConjuncts codes pieces.new table conjuncts) }
{
    let mut table = Conjuncts::new(alloc);
    for those in conjuncts.into_vec() {
        place_those(alloc, those, lent, pieces, &mut table)?;
    }
    Ok(table)
}

// Puts the code of the conjuncts of one site behind the other pieces, and what is known of them behind that of the sites before.
fn place_those(
    alloc: Global,
    those: Sequence<CompiledConjunct>,
    lent: &[usize],
    pieces: &mut Pieces,
    table: &mut Conjuncts,
) -> Result<(), NoMemory>
    ensures added { OnOk result (AreAdded pieces.old pieces.new) }
    ensures known { OnOk result ((known : List KnownConjunct) × (table.new ≡ table.old ++ known ∷ []) × ((codes : Codes) → TellsLent lent.now codes.conjuncts → Each (IsKnownConjunct codes pieces.new) known those)) }
{
    let mut known = Sequence::new(alloc);
    for conjunct in those.into_vec() {
        add_conjunct(conjunct, lent, pieces, &mut known)?;
    }
    table.push(known)
}

// Puts the code of one conjunct behind the other pieces, and what is known of it behind that of the conjuncts before.
fn add_conjunct(
    conjunct: CompiledConjunct,
    lent: &[usize],
    pieces: &mut Pieces,
    known: &mut Sequence<KnownConjunct>,
) -> Result<(), NoMemory>
    ensures added { OnOk result (AreAdded pieces.old pieces.new) }
    ensures known { OnOk result ((one : KnownConjunct) × (known.new ≡ known.old ++ one ∷ []) × ((codes : Codes) → TellsLent lent.now codes.conjuncts → IsKnownConjunct codes pieces.new one conjunct)) }
{
    let CompiledConjunct { used, code } = conjunct;
    let entry = pieces.push(conjunct_piece(&used, code, lent)?)?;
    known.push(KnownConjunct { entry, used })
}

// The code of a conjunct that uses these variables.
fn conjunct_piece(
    used: &Vars,
    code: Sequence<Instruction>,
    lent: &[usize],
) -> Result<Piece, NoMemory>
    ensures { IfOk result (λ piece. (conjuncts : ℕ → List ConjunctCode) → TellsLent lent.now conjuncts → IsConjunctPiece conjuncts (record { used = used.now; code = code }) piece) }
{
    let arity = above_all(used.as_slice())?;
    piece_over(arity, code, lent)
}
