//! The moves of the reader of terms: what begins with some tokens, and what becomes of an open term whose part was read.
ghost use Rattle.std.specs.Prelude.{◌≡◌, ◌≤◌, ◌<◌, ◌+◌, ◌-◌, ℕ, List, length, None, IfOk, OnOk};
ghost use Rattle.merc_base.specs.declared.place.Span.{Span};
ghost use Rattle.merc_tokens.specs.declared.token.Token.{Token};
ghost use Rattle.merc_terms.specs.declared.built.Built.{Built};
ghost use Rattle.merc_terms.specs.declared.frame.Bound.{Bound};
ghost use Rattle.merc_terms.specs.declared.frame.Role.TheVariants.{Enclosed, Argument, Item, ListTail, FirstOperand};
ghost use Rattle.merc_terms.specs.declared.moving.Move.TheVariants.{Have};
ghost use Rattle.merc_terms.specs.declared.starting.Start.TheVariants.{Prefix};
ghost use Rattle.merc_terms.specs.Reader.{Reading, started_by, closed_by, delimiter_at, with_application};
ghost use Rattle.merc_terms.specs.Moves.{begun_in, filled_in, pending, counted, pending_in, counted_in, least_taken, taken_by, read_of, Keeps};

use crate::built::Built;
use crate::frame::{Bound, Delimiter, Frame, Role, first_delimiter};
use crate::operators::Operator;
use crate::starting::{Start, begins_with_infix_name, joined};
use merc_base::{Name, NoMemory, Span};
use merc_tokens::Token;

/// Where a move leads.
#[derive(Clone, Copy)]
pub(crate) enum Move {
    /// A term was read, with this span and this priority.
    Have(Span, u32),
    /// A term is opened: what its next part is, and how far that is read.
    Open(Role, Bound),
    /// No term can be read.
    Refused,
}

/// The terms so far, and the tokens that are left.
#[derive(Drop)]
pub(crate) struct Progress<'t> {
    pub(crate) built: Built,
    pub(crate) rest: &'t [Token],
}

/// A term begins with this.
pub(crate) fn begin(built: &mut Built, bound: &Bound, start: Start) -> Result<Move, NoMemory>
    ensures same { IfOk result (λ to. (parts : Reading) (rest : List Token) → begun_in parts bound.now built.new rest to ≡ started_by parts bound.now built.old start rest) }
    ensures built { IfOk result (λ to. length built.old.terms + pending_in to ≤ length built.new.terms) }
    ensures few { IfOk result (λ to. counted_in to ≤ 1) }
{
    match start {
        Start::Variable(name, span) => {
            built.push_variable(name, span)?;
            Ok(Move::Have(span, 0))
        }
        Start::Integer(negative, magnitude, span) => {
            built.push_integer(negative, magnitude, span)?;
            Ok(Move::Have(span, 0))
        }
        Start::Text(name, span) => {
            built.push_text(name, span)?;
            Ok(Move::Have(span, 0))
        }
        Start::Constant(name, qualifier, span) => {
            built.apply(name, qualifier, 0, span)?;
            Ok(Move::Have(span, 0))
        }
        Start::Application(name, qualifier, span) => Ok(Move::Open(
            Role::Argument(name, qualifier, span, 1),
            Bound::argument(),
        )),
        Start::List(span) => Ok(Move::Open(Role::Item(span, 1), Bound::argument())),
        Start::Parenthesis(span) => Ok(Move::Open(Role::Enclosed(span), Bound::whole())),
        Start::Prefix(operator, span) => Ok(prefixed(bound, operator, span)),
    }
}

// A prefix operator begins a term.
fn prefixed(bound: &Bound, operator: Operator, span: Span) -> Move
    ensures same { (parts : Reading) (built : Built) (rest : List Token) → begun_in parts bound.now built rest result ≡ started_by parts bound.now built (Prefix operator span) rest }
    ensures built { pending_in result ≡ 0 }
    ensures few { counted_in result ≡ 0 }
{
    if operator.priority > bound.max {
        return Move::Refused;
    }
    let inner = bound.prefixed(&operator);
    Move::Open(Role::prefixed(operator, span), inner)
}

impl Progress<'_> {
    /// What becomes of an open term whose next part, with this span, was read.
    pub(crate) fn fill(&mut self, frame: &Frame, span: Span) -> Result<Move, NoMemory>
        requires built { pending frame.now.role + 1 ≤ length self.old.built.terms }
        requires few { counted frame.now.role + length self.old.rest.now < 18446744073709551616 }
        ensures same { IfOk result (λ to. (parts : Reading) (priority : ℕ) → filled_in parts frame.now.bound self.new.built self.new.rest.now to ≡ closed_by parts frame.now.role frame.now.bound (read_of self.old span priority)) }
        ensures kept { IfOk result (λ to. Keeps frame.now.role self.old to self.new) }
    {
        match frame.role {
            Role::Enclosed(from) => self.close_parenthesis(from),
            Role::Argument(name, qualifier, from, count) => {
                self.go_on_arguments(name, qualifier, from, count)
            }
            Role::Item(from, count) => self.go_on_list(from, count),
            Role::ListTail(from, count) => self.close_list(from, count),
            Role::Operand(operator, from) => self.operate(&operator, 1, joined(from, span)),
            Role::FirstOperand(operator, from) => {
                Ok(second_operand(&frame.bound, operator, from, self.rest))
            }
            Role::SecondOperand(operator, from) | Role::RightOperand(operator, from) => {
                self.operate(&operator, 2, joined(from, span))
            }
        }
    }

    // Takes what stands behind a part.
    fn take_delimiter(&mut self) -> Delimiter
        ensures mark { result ≡ (delimiter_at self.old.rest.now).0 }
        ensures rest { self.new.rest.now ≡ (delimiter_at self.old.rest.now).1 }
        ensures built { self.new.built ≡ self.old.built }
        ensures taken { length self.new.rest.now + taken_by result ≤ length self.old.rest.now }
    {
        let (mark, rest) = first_delimiter(self.rest);
        self.rest = rest;
        mark
    }

    // A term in parentheses, the first of which has this span.
    fn close_parenthesis(&mut self, from: Span) -> Result<Move, NoMemory>
        requires { 1 ≤ length self.old.built.terms }
        ensures same { IfOk result (λ to. (parts : Reading) (bound : Bound) (span : Span) (priority : ℕ) → filled_in parts bound self.new.built self.new.rest.now to ≡ closed_by parts (Enclosed from) bound (read_of self.old span priority)) }
        ensures kept { IfOk result (λ to. Keeps (Enclosed from) self.old to self.new) }
    {
        match self.take_delimiter() {
            Delimiter::Close(close) => {
                let span = joined(from, close);
                self.built.enclose(span);
                Ok(Move::Have(span, 0))
            }
            _ => Ok(Move::Refused),
        }
    }

    // The arguments of a name, of which so many were read.
    fn go_on_arguments(
        &mut self,
        name: Name,
        qualifier: Option<Name>,
        from: Span,
        count: usize,
    ) -> Result<Move, NoMemory>
        requires built { count - 1 + 1 ≤ length self.old.built.terms }
        requires few { count + length self.old.rest.now < 18446744073709551616 }
        ensures same { IfOk result (λ to. (parts : Reading) (bound : Bound) (span : Span) (priority : ℕ) → filled_in parts bound self.new.built self.new.rest.now to ≡ closed_by parts (Argument name qualifier from count) bound (read_of self.old span priority)) }
        ensures kept { IfOk result (λ to. Keeps (Argument name qualifier from count) self.old to self.new) }
    {
        match self.take_delimiter() {
            Delimiter::Comma => Ok(Move::Open(
                Role::Argument(name, qualifier, from, count + 1),
                Bound::argument(),
            )),
            Delimiter::Close(close) => {
                let span = joined(from, close);
                self.built.apply(name, qualifier, count, span)?;
                Ok(Move::Have(span, 0))
            }
            _ => Ok(Move::Refused),
        }
    }

    // The items of a list, of which so many were read.
    fn go_on_list(&mut self, from: Span, count: usize) -> Result<Move, NoMemory>
        requires built { count - 1 + 1 ≤ length self.old.built.terms }
        requires few { count + length self.old.rest.now < 18446744073709551616 }
        ensures same { IfOk result (λ to. (parts : Reading) (bound : Bound) (span : Span) (priority : ℕ) → filled_in parts bound self.new.built self.new.rest.now to ≡ closed_by parts (Item from count) bound (read_of self.old span priority)) }
        ensures kept { IfOk result (λ to. Keeps (Item from count) self.old to self.new) }
    {
        match self.take_delimiter() {
            Delimiter::Comma => Ok(Move::Open(Role::Item(from, count + 1), Bound::argument())),
            Delimiter::Bar => Ok(Move::Open(Role::ListTail(from, count), Bound::argument())),
            Delimiter::CloseList(close) => {
                let span = joined(from, close);
                self.built.apply_list(count, span)?;
                Ok(Move::Have(span, 0))
            }
            _ => Ok(Move::Refused),
        }
    }

    // What follows the bar of a list with so many items.
    fn close_list(&mut self, from: Span, count: usize) -> Result<Move, NoMemory>
        requires { count + 1 ≤ length self.old.built.terms }
        ensures same { IfOk result (λ to. (parts : Reading) (bound : Bound) (span : Span) (priority : ℕ) → filled_in parts bound self.new.built self.new.rest.now to ≡ closed_by parts (ListTail from count) bound (read_of self.old span priority)) }
        ensures kept { IfOk result (λ to. Keeps (ListTail from count) self.old to self.new) }
    {
        match self.take_delimiter() {
            Delimiter::CloseList(close) => {
                let span = joined(from, close);
                self.built.apply_cells(count, span)?;
                Ok(Move::Have(span, 0))
            }
            _ => Ok(Move::Refused),
        }
    }

    // An operator whose operands, so many, were read.
    fn operate(&mut self, operator: &Operator, arity: usize, span: Span) -> Result<Move, NoMemory>
        requires { arity ≤ length self.old.built.terms }
        ensures to { IfOk result (λ to. to ≡ Have span operator.now.priority) }
        ensures built { OnOk result (self.new.built ≡ with_application operator.now.name None arity span self.old.built) }
        ensures rest { OnOk result (self.new.rest.now ≡ self.old.rest.now) }
        ensures fewer { OnOk result (length self.new.built.terms + arity ≡ length self.old.built.terms + 1) }
    {
        self.built.apply(operator.name, None, arity, span)?;
        Ok(Move::Have(span, operator.priority))
    }
}

// A prefix operator with two operands goes on behind the first. No infix operator's name may follow there.
fn second_operand(bound: &Bound, operator: Operator, from: Span, tokens: &[Token]) -> Move
    ensures same { (parts : Reading) (built : Built) (span : Span) (priority : ℕ) → filled_in parts bound.now built tokens.now result ≡ closed_by parts (FirstOperand operator from) bound.now (record { built = built; span = span; priority = priority; rest = tokens.now }) }
    ensures built { pending_in result ≤ 1 }
    ensures few { counted_in result ≡ 0 }
    ensures taken { least_taken result ≡ 0 }
{
    if begins_with_infix_name(tokens) {
        return Move::Refused;
    }
    let inner = bound.operand(operator.last_most());
    Move::Open(Role::SecondOperand(operator, from), inner)
}
