//! Some disjuncts of a disjunction.
ghost use Rattle.std.specs.Prelude.{◌≡◌, true, List, filter, IfOk};
ghost use Rattle.std.specs.List.{list_all};
ghost use Rattle.merc_graded_tree.specs.Nodes.{nodes_of, outputs_of, span_of};
ghost use Rattle.merc_graded_tree.specs.Variables.{in_nodes};
ghost use Rattle.merc_grading.specs.Switches.{Group, symbol_at, is_there, grouped};
ghost use Rattle.merc_switch_choice.specs.Arms.{AreArms};
ghost use Rattle.merc_switch_choice.specs.Choosing.{Takes};
ghost use Rattle.merc_switch.specs.Selections.{MayCount, MayCountAll};
ghost use Rattle.merc_switch.specs.Handing.{IsHanded};

use crate::handing::{Handed, hand_on};
use crate::occurring::outputs_in;
use crate::whole::Whole;
use merc_base::{NoMemory, Span};
use merc_goal_tree::{Symbol, Var, Vars};
use merc_name_resolution::Known;
use merc_switch_choice::{Candidates, Disjunct, Disjuncts, VarCounts, arms_of};
use std::alloc::Global;
use std::marker::Model;

/// Some disjuncts of a disjunction. Contracts see them and the disjunction.
#[derive(Drop)]
pub(crate) struct Selection<'a> {
    whole: Whole<'a>,
    disjuncts: Disjuncts<'a>,
    // in how many of the disjuncts each output of the whole occurs, once that had to be counted
    counts: Option<VarCounts>,
}

impl<'a> Model for Selection<'a> {
    ghost use Rattle.merc_switch.specs.Selections.{Selection, MayCount, selection_code};

    ghost Value = { Selection };

    ghost coded = { selection_code };

    ghost view = { λ s. record { whole = s.whole; disjuncts = s.disjuncts } };

    ghost invariant = { λ s. MayCount s.whole s.counts s.disjuncts };
}

/// The arms of a switch: the symbols, and the disjuncts of each.
#[derive(Drop)]
pub(crate) struct Arms<'a> {
    pub(crate) whole: Whole<'a>,
    pub(crate) symbols: Vec<Symbol>,
    pub(crate) groups: Vec<Disjuncts<'a>>,
    /// the counts of one of the groups
    pub(crate) handed: Option<Handed>,
}

impl<'a> Selection<'a> {
    /// These disjuncts of the whole, with their counts if there are any.
    pub(crate) fn of(
        whole: Whole<'a>,
        disjuncts: Disjuncts<'a>,
        counts: Option<VarCounts>,
    ) -> Selection<'a>
        requires { MayCount whole counts disjuncts }
        ensures { result ≡ record { whole = whole.entry; disjuncts = disjuncts.entry } }
    {
        Selection {
            whole,
            disjuncts,
            counts,
        }
    }

    /// Where the disjunction stands.
    pub(crate) fn span(&self) -> Span
        ensures { result ≡ span_of self.now.whole }
    {
        self.whole.span()
    }

    /// The disjuncts.
    pub(crate) fn disjuncts(&self) -> &Disjuncts<'a>
        ensures { result.now ≡ self.now.disjuncts }
    {
        &self.disjuncts
    }

    /// Gives the disjuncts. It takes no memory.
    pub(crate) fn into_vec(self) -> Vec<Disjunct<'a>>
        ensures { result.items ≡ self.entry.disjuncts }
    {
        // (a call, since it costs much to prove what is dropped here)
        drop(self.counts);
        self.disjuncts.into_vec()
    }

    /// Takes the variable on which the disjuncts are a switch out of the candidates, none where they are none.
    ///
    /// # Errors
    ///
    /// `NoMemory` where memory was refused, here and in the calls below.
    pub(crate) fn choose(
        &mut self,
        alloc: Global,
        known: &Known<'_>,
        candidates: &mut Candidates,
    ) -> Result<Option<Var>, NoMemory>
        ensures choice { IfOk result (λ choice. Takes known.now.types self.old.disjuncts candidates.old candidates.new choice) }
        ensures selection { self.new ≡ self.old }
    {
        candidates.next(alloc, known, &mut self.disjuncts)
    }

    /// The outputs of the whole that occur in the disjuncts.
    pub(crate) fn outputs(&mut self, alloc: Global) -> Result<Vars, NoMemory>
        ensures outputs { IfOk result (λ kept. kept ≡ filter (λ output. in_nodes (nodes_of self.old.disjuncts) output) (outputs_of self.old.whole)) }
        ensures selection { self.new ≡ self.old }
    {
        outputs_in(
            alloc,
            &self.whole,
            self.disjuncts.as_slice(),
            &mut self.counts,
        )
    }

    /// The disjuncts by the symbols by which they all split a variable at their beginnings. The symbols stand in the order
    /// in which they come first.
    pub(crate) fn into_arms(self, alloc: Global, variable: Var) -> Result<Arms<'a>, NoMemory>
        requires { list_all (λ disjunct. is_there (symbol_at variable disjunct)) self.disjuncts ≡ true }
        ensures whole { IfOk result (λ arms. arms.whole ≡ self.entry.whole) }
        ensures arms { IfOk result (λ arms. AreArms arms.symbols.items arms.groups.items (grouped variable self.entry.disjuncts)) }
        ensures handed { IfOk result (λ arms. IsHanded arms.whole arms.handed arms.groups.items) }
    {
        match arms_of(alloc, variable, self.disjuncts) {
            Ok(arms) => with_counts(alloc, self.whole, arms.symbols, arms.groups, self.counts),
            Err(refused) => {
                // (calls, here and below, since it costs much to prove what is dropped)
                drop(self.whole);
                drop(self.counts);
                Err(refused)
            }
        }
    }
}

// The arms of these symbols and disjuncts, with the counts of one of them if there are counts of all together.
fn with_counts<'a>(
    alloc: Global,
    whole: Whole<'a>,
    symbols: Vec<Symbol>,
    groups: Vec<Disjuncts<'a>>,
    counts: Option<VarCounts>,
) -> Result<Arms<'a>, NoMemory>
    requires { MayCountAll whole counts groups.items }
    ensures whole { IfOk result (λ arms. arms.whole ≡ whole.entry) }
    ensures arms { IfOk result (λ arms. (those : List Group) → AreArms symbols.items groups.entry.items those → AreArms arms.symbols.items arms.groups.items those) }
    ensures handed { IfOk result (λ arms. IsHanded arms.whole arms.handed arms.groups.items) }
{
    match hand_on(alloc, &whole, &groups, counts) {
        Ok(handed) => Ok(Arms {
            whole,
            symbols,
            groups,
            handed,
        }),
        Err(refused) => {
            drop(whole);
            drop(symbols);
            drop(groups);
            Err(refused)
        }
    }
}
