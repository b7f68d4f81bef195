//! Tokens.
use merc_base::{Name, Sequence, Span};

/// A token: what it is and where it stands.
#[derive(Clone, Copy)]
pub struct Token {
    pub kind: TokenKind,
    /// From its first byte to behind its last, with its quotes.
    pub span: Span,
}

/// What a token is. Names and texts stand for themselves, without quotes and with each escape replaced.
#[derive(Clone, Copy, PartialEq, Eq)]
pub enum TokenKind {
    /// A name that is not quoted.
    Name(Name),
    /// A quoted name.
    Quoted(Name),
    Var(Name),
    /// An integer, at most 9,223,372,036,854,775,808.
    Int(u64),
    /// A string.
    Text(Name),
    /// `(` directly behind a name.
    OpenArgs,
    /// Any other `(`.
    Open,
    Close,
    OpenList,
    CloseList,
    Comma,
    /// `|`
    Bar,
    /// A `.` between a name and a name.
    Dot,
    /// A full stop.
    Stop,
}

/// The tokens of a text in order.
pub type Tokens = Sequence<Token>;
