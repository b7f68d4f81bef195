//! Reads one whole term, with the open terms on a stack in memory.
ghost use Rattle.std.specs.Prelude.{◌≡◌, ◌<◌, ◌≤◌, ◌+◌, ℕ, false, List, [], None, length, IfOk, IfSome};
ghost use Rattle.merc_tokens.specs.declared.token.Token.{Token};
ghost use Rattle.merc_terms.specs.declared.reading.State.TheVariants.{Need, Have};
ghost use Rattle.merc_terms.specs.Reader.{infix_at, infix_kind, fitting};
ghost use Rattle.merc_terms.specs.Finds.{Finds};
ghost use Rattle.merc_terms.specs.Standing.{Stands, Steps, Entered, ReadsTerm, pending_all, counted_all};

use crate::built::Built;
use crate::frame::{Bound, Frames, Role};
use crate::moving::{Move, Progress, begin};
use crate::operators::{self, Operator};
use crate::starting::first_start;
use merc_base::{Name, NoMemory, Span};
use merc_tokens::{Token, TokenKind};
use merc_tree::Terms;
use std::alloc::Global;

/// What the reader is at.
#[derive(Clone, Copy)]
enum State {
    /// A term must begin.
    Need,
    /// A term was read, with this span and this priority.
    Have(Span, u32),
    /// The whole term was read.
    Whole,
    /// No term can be read.
    Refused,
}

/// A reader of whole terms, one after the other.
#[derive(Drop)]
pub(crate) struct Reader<'t> {
    pub(crate) progress: Progress<'t>,
    // how far the term is read that is being read
    bound: Bound,
    frames: Frames,
}

impl<'t> Reader<'t> {
    pub(crate) fn new(alloc: Global, tokens: &'t [Token]) -> Reader<'t>
        ensures terms { result.progress.built.terms ≡ [] }
        ensures great { result.progress.built.is_great ≡ false }
        ensures rest { result.progress.rest.now ≡ tokens.now }
    {
        Reader {
            progress: Progress {
                built: Built::new(alloc),
                rest: tokens,
            },
            bound: Bound::whole(),
            frames: Frames::new(alloc),
        }
    }
}

impl Reader<'_> {
    /// How many tokens are left.
    pub(crate) fn left(&self) -> usize
        ensures { result ≡ length self.now.progress.rest.now }
    {
        self.progress.rest.len()
    }

    /// The terms that were read.
    pub(crate) fn into_terms(self) -> Terms
        ensures { result ≡ self.entry.progress.built.terms }
    {
        self.progress.built.terms
    }

    /// Reads the whole term that the tokens begin with, and says whether there is one.
    pub(crate) fn read_whole(&mut self) -> Result<bool, NoMemory>
        requires { length self.old.progress.rest.now < 18446744073709551616 }
        ensures { IfOk result (ReadsTerm self.old.progress self.new.progress) }
    {
        self.bound = Bound::whole();
        self.frames.clear();
        let mut state = State::Need;
        loop {
            state = match state {
                State::Need => self.begin()?,
                State::Have(span, priority) => self.go_on(span, priority)?,
                State::Whole => return Ok(true),
                State::Refused => return Ok(false),
            };
        }
    }

    // A term must begin.
    fn begin(&mut self) -> Result<State, NoMemory>
        requires { Stands Need self.old }
        ensures { IfOk result (λ state. Steps Need self.old state self.new) }
    {
        let Some((start, rest)) = first_start(self.progress.rest) else {
            return Ok(State::Refused);
        };
        let bound = self.bound;
        self.progress.rest = rest;
        // No `?`, here and below: the kit proves none where the result holds a move.
        match begin(&mut self.progress.built, &bound, start) {
            Ok(to) => self.enter(&to, bound),
            Err(error) => Err(error),
        }
    }

    // What goes on behind a term.
    fn go_on(&mut self, span: Span, priority: u32) -> Result<State, NoMemory>
        requires { Stands (Have span priority) self.old }
        ensures { IfOk result (λ state. Steps (Have span priority) self.old state self.new) }
    {
        match infix_at(&self.bound, priority, self.progress.rest) {
            Some((operator, rest)) => {
                self.progress.rest = rest;
                let bound = self.bound;
                let inner = bound.operand(operator.last_most());
                self.frames.push(Role::RightOperand(operator, span), bound)?;
                self.bound = inner;
                Ok(State::Need)
            }
            None => self.leave(span),
        }
    }

    // Gives a term that was read, with this span, to the open term that it is a part of.
    fn leave(&mut self, span: Span) -> Result<State, NoMemory>
        requires built { pending_all self.old.frames + 1 ≤ length self.old.progress.built.terms }
        requires few { counted_all self.old.frames + length self.old.progress.rest.now < 18446744073709551616 }
        ensures { IfOk result (λ state. (priority : ℕ) → infix_at self.old.bound priority self.old.progress.rest.now ≡ None → Steps (Have span priority) self.old state self.new) }
    {
        let Some(frame) = self.frames.pop() else {
            return Ok(State::Whole);
        };
        let bound = frame.bound;
        match self.progress.fill(&frame, span) {
            Ok(to) => self.enter(&to, bound),
            Err(error) => Err(error),
        }
    }

    // Goes where a move leads, in a term that is read so far.
    fn enter(&mut self, to: &Move, bound: Bound) -> Result<State, NoMemory>
        ensures { IfOk result (λ state. Entered to.now bound self.old state self.new) }
    {
        match *to {
            Move::Have(span, priority) => {
                self.bound = bound;
                Ok(State::Have(span, priority))
            }
            Move::Open(role, inner) => {
                self.frames.push(role, bound)?;
                self.bound = inner;
                Ok(State::Need)
            }
            Move::Refused => Ok(State::Refused),
        }
    }
}

// The infix operator that these tokens go on with, where a term of this priority may be its left operand within the
// bound, and the tokens behind it.
fn infix_at<'t>(
    bound: &Bound,
    priority: u32,
    tokens: &'t [Token],
) -> Option<(Operator, &'t [Token])>
    ensures there { Finds (infix_at bound.now priority tokens.now) result }
    ensures shorter { IfSome result (λ found. length found.1.now < length tokens.now) }
{
    let [first, rest @ ..] = tokens else {
        return None;
    };
    let operator = infix_of(bound, &first.kind)?;
    if operator.priority <= bound.max && priority <= operator.first_most() {
        Some((operator, rest))
    } else {
        None
    }
}

// The infix operator that a token is within the bound.
fn infix_of(bound: &Bound, kind: &TokenKind) -> Option<Operator>
    ensures { (priority : ℕ) (rest : List Token) → infix_kind bound.now priority kind.now rest ≡ fitting bound.now priority result rest }
{
    match kind {
        TokenKind::Name(name) => operators::infix(*name),
        TokenKind::Comma if bound.commas => operators::infix(Name::COMMA),
        _ => None,
    }
}
