//! Reads the items of a list of tokens, and the term of a goal.
ghost use Rattle.std.specs.Prelude.{◌≡◌, ◌<◌, true, false, [], ◌∷◌, length, IfOk, IfErr, OnOk};
ghost use Rattle.merc_tree.specs.Term.{Term};
ghost use Rattle.merc_terms.specs.Items.{HasItems, HasGoal, RefusesItems, RefusesGoal, IsRefusal, place_of};
ghost use Rattle.merc_terms.specs.Outcomes.{TakesStop, IsAtEnd, ReadsItem, ReadsGoal, SaysWrong};

use crate::reading::Reader;
use merc_base::{Detail, Fault, NoMemory, Place, Refusal, Rule};
use merc_tokens::{Token, TokenKind, Tokens};
use merc_tree::{Term, Terms};
use std::alloc::Global;

/// The terms of the items that the tokens are, in order. An item is a term of a priority of at most 1200 and its full
/// stop. It takes time linear in the tokens.
///
/// # Errors
///
/// `Refused` says what is wrong with the first item that has a fault, at its first token: rule 2 where the tokens begin
/// with no item, and rule 16 where its term passes a limit, that on integers (`Integer`) before that on nesting
/// (`Nesting`). `NoMemory` says that memory was refused.
pub fn read_items(alloc: Global, tokens: &Tokens) -> Result<Terms, Fault>
    ensures found { IfOk result (λ terms. HasItems tokens.now terms) }
    ensures refused { IfErr result (λ fault. IsRefusal (RefusesItems tokens.now) fault) }
{
    let mut reader = Reader::new(alloc, tokens.as_slice());
    match reader.read_all(alloc) {
        Ok(()) => Ok(reader.into_terms()),
        Err(fault) => {
            // (a call, here and below, since it costs much to prove what is dropped)
            drop(reader);
            Err(fault)
        }
    }
}

/// The term that the tokens of a goal are: a term of a priority of at most 1200, and then the end, or a full stop and
/// the end. It takes time linear in the tokens.
///
/// # Errors
///
/// `Refused` says what is wrong, at the first token, or at byte 0 of line 1 where there is none: rule 2 where the
/// tokens are no such term, and rule 16 where the term passes a limit, that on integers (`Integer`) before that on
/// nesting (`Nesting`). `NoMemory` says that memory was refused.
pub fn read_goal(alloc: Global, tokens: &Tokens) -> Result<Term, Fault>
    ensures found { IfOk result (λ term. HasGoal tokens.now term) }
    ensures refused { IfErr result (λ fault. IsRefusal (RefusesGoal tokens.now) fault) }
{
    let mut reader = Reader::new(alloc, tokens.as_slice());
    match reader.read_only(alloc) {
        Ok(()) => Ok(reader.into_terms().into_only().unwrap()),
        Err(fault) => {
            drop(reader);
            Err(fault)
        }
    }
}

impl Reader<'_> {
    // Reads the items of all tokens, of which none is read yet, up to the first fault.
    fn read_all(&mut self, alloc: Global) -> Result<(), Fault>
        requires terms { self.old.progress.built.terms ≡ [] }
        requires great { self.old.progress.built.is_great ≡ false }
        ensures found { OnOk result (HasItems self.old.progress.rest.now self.new.progress.built.terms) }
        ensures refused { IfErr result (λ fault. IsRefusal (RefusesItems self.old.progress.rest.now) fault) }
    {
        while self.left() > 0 {
            let place = self.place();
            let found = self.read_item()?;
            if let Some((rule, detail)) = self.find_fault(alloc, found)? {
                return Err(Fault::Refused(Refusal {
                    rule,
                    place,
                    detail,
                }));
            }
        }
        Ok(())
    }

    // Reads the term of a goal, where none is read yet.
    fn read_only(&mut self, alloc: Global) -> Result<(), Fault>
        requires terms { self.old.progress.built.terms ≡ [] }
        requires great { self.old.progress.built.is_great ≡ false }
        ensures found { OnOk result ((term : Term) × (self.new.progress.built.terms ≡ term ∷ []) × HasGoal self.old.progress.rest.now term) }
        ensures refused { IfErr result (λ fault. IsRefusal (RefusesGoal self.old.progress.rest.now) fault) }
    {
        let place = self.place();
        let found = self.read_goal()?;
        match self.find_fault(alloc, found)? {
            Some((rule, detail)) => Err(Fault::Refused(Refusal {
                rule,
                place,
                detail,
            })),
            None => Ok(()),
        }
    }

    // Where the tokens begin, the first line where there are none.
    fn place(&self) -> Place
        ensures value { result ≡ place_of self.now.progress.rest.now }
        ensures few { length self.now.progress.rest.now < 18446744073709551616 }
    {
        if self.left() == 0 {
            return Place { byte: 0, line: 1 };
        }
        let span = self.progress.rest[0].span;
        Place {
            byte: span.first,
            line: span.line,
        }
    }

    // Reads an item, and says whether the tokens begin with one.
    fn read_item(&mut self) -> Result<bool, NoMemory>
        requires { length self.old.progress.rest.now < 18446744073709551616 }
        ensures there { IfOk result (ReadsItem self.old.progress self.new.progress) }
        ensures shorter { IfOk result (λ found. found ≡ true → length self.new.progress.rest.now < length self.old.progress.rest.now) }
    {
        if !self.read_whole()? {
            return Ok(false);
        }
        Ok(self.take_stop())
    }

    // Reads a term, and says whether the tokens are one, with or without a full stop.
    fn read_goal(&mut self) -> Result<bool, NoMemory>
        requires { length self.old.progress.rest.now < 18446744073709551616 }
        ensures { IfOk result (ReadsGoal self.old.progress self.new.progress) }
    {
        if !self.read_whole()? {
            return Ok(false);
        }
        Ok(is_at_end(self.progress.rest))
    }

    // Takes a full stop, and says whether one comes first.
    fn take_stop(&mut self) -> bool
        ensures stop { TakesStop self.old.progress.rest.now self.new.progress.rest.now result }
        ensures built { self.new.progress.built ≡ self.old.progress.built }
    {
        match self.progress.rest {
            [first, rest @ ..] if first.kind == TokenKind::Stop => {
                self.progress.rest = rest;
                true
            }
            _ => false,
        }
    }

    // What is wrong with the term that was read, or that none was: a rule and what is said beside it.
    fn find_fault(&self, alloc: Global, found: bool) -> Result<Option<(Rule, Detail)>, NoMemory>
        requires { found ≡ true → 0 < length self.now.progress.built.terms }
        ensures { IfOk result (SaysWrong self.now.progress.built found) }
    {
        if !found {
            return Ok(Some((Rule::NoTerm, Detail::Plain)));
        }
        match self.progress.built.passed_limit(alloc)? {
            Some(limit) => Ok(Some((Rule::LimitPassed, Detail::Limit(limit)))),
            None => Ok(None),
        }
    }
}

// Whether the end comes, or a full stop and the end.
fn is_at_end(tokens: &[Token]) -> bool
    ensures { IsAtEnd tokens.now result }
{
    match tokens {
        [] => true,
        [only] => only.kind == TokenKind::Stop,
        _ => false,
    }
}
