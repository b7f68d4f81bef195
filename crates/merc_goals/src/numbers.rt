//! Numbers of the parts of a text.
ghost use Rattle.std.specs.Prelude.{◌≡◌, ◌+◌, ◌<◌, ◌≤◌, ◌^◌};
ghost use Rattle.merc_goals.specs.Written.{parts};
ghost use Rattle.merc_goals.specs.Numbers.{left_of, right_of, first_limit, number_limit, BothFit, Fits};

use merc_tree::TermRef;
use std::marker::Model;

/// A term with its number among the parts of a text. The numbers of all its parts are at most 2^62.
#[derive(Drop)]
pub struct Numbered<'a> {
    pub term: TermRef<'a>,
    pub at: usize,
}

impl<'a> Model for Numbered<'a> {
    ghost use Rattle.merc_goals.specs.Numbers.{Fits, NumberedTerm, numbered_code};

    ghost Value = { NumberedTerm };

    ghost coded = { numbered_code };

    ghost view = { λ n. record { term = n.term; at = n.at } };

    ghost invariant = { λ n. Fits n.at n.term };
}

impl<'a> Numbered<'a> {
    /// The term with the number from which its parts are numbered, which is at most 2^61.
    pub fn first(term: TermRef<'a>, at: usize) -> Numbered<'a>
        requires { at ≤ first_limit }
        ensures { result ≡ record { term = term.entry; at = at } }
    {
        has_few_parts(&term);
        Numbered { term, at }
    }

    /// The numbers of the term and its parts keep the limit.
    pub fn keeps_limit(&self)
        ensures { Fits self.now.at self.now.term }
    {
        let _ = &self.at;
    }

    /// A second reference to the term, with its number. Nothing of the term is copied.
    pub fn copy(&self) -> Numbered<'a>
        ensures { result ≡ self.now }
    {
        Numbered {
            term: self.term.copy(),
            at: self.at,
        }
    }
}

/// A term has fewer than 2^58 numbers, since each of its parts takes memory.
#[tactic(auto, using(crate::proofs::PartCounts::parts_shapes))]
pub fn has_few_parts(term: &TermRef<'_>)
    ensures { parts term.now < 2 ^ 58 }
{
    let _ = term.part_count();
}

/// The number behind those of a term and its parts, of which the first is this.
#[tactic(auto, using(crate::proofs::PartCounts::parts_shapes))]
pub fn number_behind(at: usize, term: &TermRef<'_>) -> usize
    requires { at ≤ number_limit }
    ensures number { result ≡ at + parts term.now }
    ensures few { parts term.now < 2 ^ 58 }
{
    let count = term.part_count();
    at + count + count
}

/// The first argument of the term with this number.
pub fn left_of<'a>(at: usize, left: TermRef<'a>) -> Numbered<'a>
    requires { Fits (at + 2) left }
    ensures { result ≡ left_of at left.entry }
{
    Numbered {
        term: left,
        at: at + 2,
    }
}

/// The second argument of the term with this number, behind the first.
pub fn right_of<'a>(at: usize, left: &TermRef<'a>, right: TermRef<'a>) -> Numbered<'a>
    requires { BothFit at left.now right }
    ensures { result ≡ right_of at left.now right.entry }
{
    let at = number_behind(at + 2, left);
    Numbered { term: right, at }
}
