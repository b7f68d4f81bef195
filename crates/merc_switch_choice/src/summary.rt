//! What is known of several disjuncts together.
ghost use Rattle.std.specs.Prelude.{◌≡◌, ℕ, IfOk, OnOk};
ghost use Rattle.merc_switch_choice.specs.Counting.{Counts, count_of};
ghost use Rattle.merc_switch_choice.specs.Summaries.{Describes};

use crate::counts::VarCounts;
use crate::disjuncts::Disjunct;
use crate::gaps::Gaps;
use merc_base::NoMemory;
use std::alloc::Global;

/// What is known of several disjuncts together.
#[derive(Drop)]
pub(crate) struct Summary {
    /// How many of them split each variable.
    pub(crate) counts: VarCounts,
    /// Constructors by which none of them splits a variable.
    pub(crate) gaps: Gaps,
}

impl Summary {
    /// That of these disjuncts, of which no gaps are known.
    ///
    /// # Errors
    ///
    /// `NoMemory` where memory was refused.
    pub(crate) fn of(alloc: Global, disjuncts: &[Disjunct<'_>]) -> Result<Summary, NoMemory>
        ensures { IfOk result (λ summary. Describes summary disjuncts.now) }
    {
        Ok(Summary {
            counts: counts_of(alloc, disjuncts)?,
            gaps: Gaps::new(alloc),
        })
    }
}

fn counts_of(alloc: Global, disjuncts: &[Disjunct<'_>]) -> Result<VarCounts, NoMemory>
    ensures { IfOk result (λ counts. Counts counts disjuncts.now) }
{
    let mut counts = VarCounts::new(alloc);
    add_splits(disjuncts, &mut counts).and(Ok(counts))
}

// Counts the splits of disjuncts where nothing is counted yet.
fn add_splits(disjuncts: &[Disjunct<'_>], counts: &mut VarCounts) -> Result<(), NoMemory>
    requires { (variable : ℕ) → count_of counts.old variable ≡ 0 }
    ensures { OnOk result (Counts counts.new disjuncts.now) }
{
    for disjunct in disjuncts {
        counts.add_each(disjunct.variables())?;
    }
    Ok(())
}
