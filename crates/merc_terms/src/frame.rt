//! What a reader of terms keeps while it reads parts of a term.
ghost use Rattle.std.specs.Prelude.{◌≡◌, [], ◌∷◌, OnOk, MatchOption};
ghost use Rattle.merc_terms.specs.Reader.{delimiter_at, whole_bound, argument_bound, operand_bound, frame_of, prefix_role, prefix_bound};

use crate::operators::Operator;
use merc_base::{Name, NoMemory, Span};
use merc_tokens::{Token, TokenKind};
use std::alloc::Global;
use std::marker::Model;

/// How far a term is read: up to which priority, and whether commas are operators or end it, as in arguments and list
/// items.
#[derive(Clone, Copy)]
pub(crate) struct Bound {
    pub(crate) max: u32,
    pub(crate) commas: bool,
}

/// What a term that is being read is to be.
#[derive(Clone, Copy)]
pub(crate) enum Role {
    /// The term in parentheses, the first of which has this span.
    Enclosed(Span),
    /// The argument of this number of a name, which begins at the span.
    Argument(Name, Option<Name>, Span, usize),
    /// The item of this number of a list, whose opening bracket has the span.
    Item(Span, usize),
    /// What follows the bar of a list with so many items.
    ListTail(Span, usize),
    /// The only operand of a prefix operator.
    Operand(Operator, Span),
    /// The first of a prefix operator's two operands.
    FirstOperand(Operator, Span),
    /// The second of them.
    SecondOperand(Operator, Span),
    /// The right operand of an infix operator, whose left one has this span.
    RightOperand(Operator, Span),
}

/// An open term: the role of the part that is being read, and how far the whole is read.
#[derive(Clone, Copy)]
pub(crate) struct Frame {
    pub(crate) role: Role,
    pub(crate) bound: Bound,
}

/// What stands behind a part of an open term.
#[derive(Clone, Copy)]
pub(crate) enum Delimiter {
    Comma,
    Bar,
    /// A closing parenthesis at this span.
    Close(Span),
    /// A closing bracket at this span.
    CloseList(Span),
    /// Another token, or the end.
    Other,
}

impl Bound {
    /// How far a whole term is read.
    pub(crate) fn whole() -> Bound
        ensures { result ≡ whole_bound }
    {
        Bound {
            max: 1200,
            commas: true,
        }
    }

    /// How far an argument or a list item is read.
    pub(crate) fn argument() -> Bound
        ensures { result ≡ argument_bound }
    {
        Bound {
            max: 1199,
            commas: false,
        }
    }

    /// How far an operand of at most this priority is read.
    pub(crate) fn operand(&self, max: u32) -> Bound
        ensures { result ≡ operand_bound max self.now }
    {
        Bound {
            max,
            commas: self.commas,
        }
    }

    /// How far the first operand of a prefix operator is read.
    pub(crate) fn prefixed(&self, operator: &Operator) -> Bound
        ensures { result ≡ prefix_bound operator.now self.now }
    {
        if operator.fixity.takes_two() {
            self.operand(operator.first_most())
        } else {
            self.operand(operator.last_most())
        }
    }
}

impl Role {
    /// What the first operand of a prefix operator is.
    pub(crate) fn prefixed(operator: Operator, span: Span) -> Role
        ensures { result ≡ prefix_role operator span }
    {
        if operator.fixity.takes_two() {
            Role::FirstOperand(operator, span)
        } else {
            Role::Operand(operator, span)
        }
    }
}

/// What stands behind a part of an open term, and the tokens behind that.
pub(crate) fn first_delimiter(tokens: &[Token]) -> (Delimiter, &[Token])
    ensures mark { result.0 ≡ (delimiter_at tokens.now).0 }
    ensures rest { result.1.now ≡ (delimiter_at tokens.now).1 }
{
    let [first, rest @ ..] = tokens else {
        return (Delimiter::Other, tokens);
    };
    let mark = match first.kind {
        TokenKind::Comma => Delimiter::Comma,
        TokenKind::Bar => Delimiter::Bar,
        TokenKind::Close => Delimiter::Close(first.span),
        TokenKind::CloseList => Delimiter::CloseList(first.span),
        _ => Delimiter::Other,
    };
    (mark, rest)
}

/// Open terms, seen as a list that begins with the newest.
#[derive(Drop)]
pub(crate) struct Frames {
    stack: Vec<Frame>,
}

impl Model for Frames {
    ghost use Rattle.std.specs.Prelude.{List, reverse};
    ghost use Rattle.merc_terms.specs.declared.frame.Frame.{Frame};

    ghost Value = { List Frame };

    ghost view = { λ f. reverse f.stack.items };
}

impl Frames {
    pub(crate) fn new(alloc: Global) -> Frames
        ensures { result ≡ [] }
    {
        Frames {
            stack: Vec::new(alloc),
        }
    }

    pub(crate) fn push(&mut self, role: Role, bound: Bound) -> Result<(), NoMemory>
        ensures { OnOk result (self.new ≡ frame_of role bound ∷ self.old) }
    {
        self.stack.push(Frame { role, bound })?;
        Ok(())
    }

    /// Takes the newest.
    pub(crate) fn pop(&mut self) -> Option<Frame>
        ensures { MatchOption result ((self.old ≡ []) × (self.new ≡ [])) (λ frame. self.old ≡ frame ∷ self.new) }
    {
        self.stack.pop()
    }

    pub(crate) fn clear(&mut self)
        ensures { self.new ≡ [] }
    {
        self.stack.clear();
    }
}
