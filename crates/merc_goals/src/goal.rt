//! A goal as it is written, in one list of entries.
ghost use Rattle.std.specs.Prelude.{◌≡◌};
ghost use Rattle.merc_goals.specs.Entries.{entries_of};
ghost use Rattle.merc_goals.specs.Written.{written_span};
ghost use Rattle.merc_goals.specs.Faults.{first_fault, widest_parallel};

use crate::faults;
use merc_base::{Name, Refusal, Span};
use merc_tree::{NameList, TermRef};
use std::marker::Model;

/// What a goal is at its root.
#[derive(Drop)]
pub enum Form<'a> {
    /// `true`
    Truth,
    /// `fail` and `false`
    Failure,
    /// `X = Y`
    Equal(TermRef<'a>, TermRef<'a>),
    /// A comparison by this name, such as `X < Y`.
    Compared(Name, TermRef<'a>, TermRef<'a>),
    /// A call: the whole term.
    Called(TermRef<'a>),
    /// `A, B`: so many conjuncts.
    Conjunction(usize),
    /// `A & B`: so many conjuncts.
    Parallel(usize),
    /// `A ; B`: so many disjuncts.
    Disjunction(usize),
    /// `if C then T else E`: a condition, a then part and an else part.
    Conditional,
    /// `not G`: one sub-goal.
    Negated,
    /// `some [X, ..] G`: its variables, and one sub-goal.
    Quantified(NameList),
    /// No goal of a known form.
    WrongForm,
    /// A goal outside the supported part of the language.
    OutsideProfile,
}

/// A goal at its root, which stands before its sub-goals. The numbers of its terms and their parts are at most 2^62.
#[derive(Drop)]
pub struct Entry<'a> {
    pub form: Form<'a>,
    /// The number of the goal's term among the parts of its text, where the goal is an equation, a comparison or a
    /// call, and 0 for any other.
    pub at: usize,
    /// Where the goal stands in its text.
    pub span: Span,
    /// How many entries the whole goal has, this one and those of all its sub-goals. So many further on in the list
    /// stands what follows the goal.
    pub size: usize,
}

impl<'a> Model for Entry<'a> {
    ghost use Rattle.merc_goals.specs.Entries.{FormFits, GoalEntry};

    ghost Value = { GoalEntry };

    ghost use Rattle.merc_goals.specs.EntryCode.{entry_code};

    ghost coded = { entry_code };

    ghost view = { λ e. record { form = e.form; at = e.at; span = e.span; size = e.size } };

    ghost invariant = { λ e. FormFits e.at e.form };
}

/// A goal as it is written. It lies in one list of entries, a goal before its sub-goals and these from the left, so
/// that it is walked and dropped without recursion.
#[derive(Drop)]
pub struct WrittenGoal<'a> {
    pub(crate) entries: Vec<Entry<'a>>,
}

impl<'a> Model for WrittenGoal<'a> {
    ghost use Rattle.std.specs.Prelude.{◌≡◌};
    ghost use Rattle.merc_goals.specs.Written.{Written};

    ghost Value = { Written };

    ghost use Rattle.merc_goals.specs.EntryCode.{written_code};

    ghost coded = { written_code };

    ghost use Rattle.merc_goals.specs.Entries.{written_of, AreEntries};

    ghost view = { λ g. written_of g.entries.items };

    ghost invariant = { λ g. AreEntries g.entries.items };
}

impl<'a> WrittenGoal<'a> {
    /// The entries of the goal, of which there is at least one: a goal stands before its sub-goals, and these from the
    /// left.
    pub fn entries(&self) -> &[Entry<'a>]
        ensures { result.now ≡ entries_of self.now }
    {
        &self.entries
    }

    /// Where the goal stands in its text.
    pub fn span(&self) -> Span
        ensures { result ≡ written_span self.now }
    {
        match self.entries() {
            [whole, ..] => whole.span,
            [] => unreachable!(),
        }
    }

    /// The first part of the goal that is of no form, or outside the supported part of the language: the one that
    /// stands first in the text, and of two at one byte the one of no form. None where there is no such part.
    pub fn first_fault(&self) -> Option<Refusal>
        ensures { result ≡ first_fault self.now }
    {
        faults::first_fault(self.entries())
    }

    /// The most conjuncts that a parallel conjunction in the goal has, 0 where it has none.
    pub fn widest_parallel(&self) -> usize
        ensures { result ≡ widest_parallel self.now }
    {
        faults::widest_parallel(self.entries())
    }
}
