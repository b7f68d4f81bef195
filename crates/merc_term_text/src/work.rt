//! What a writer of terms has still to do.
use merc_base::Name;
use merc_tree::TermRef;

/// What is written at once.
#[derive(Clone, Copy)]
pub(crate) enum Mark {
    Nothing,
    Blank,
    /// The parenthesis directly behind a name.
    OpenArguments,
    Open,
    Close,
    OpenList,
    CloseList,
    EmptyList,
    /// A comma and a blank.
    Comma,
    /// A bar between blanks.
    Bar,
    /// The mark behind a qualifier.
    Dot,
    /// A name, in quotes where it is not plain.
    Name(Name),
    /// An operator's name, as it is.
    Operator(Name),
    Variable(Name),
    Integer(i64),
    /// A text, in quotes.
    Text(Name),
}

/// An entry of the stack. The flags say whether commas are operators there.
#[derive(Drop)]
pub(crate) enum Work<'a> {
    Mark(Mark),
    /// A term without parentheses round it.
    Bare(TermRef<'a>, bool),
    /// A term where terms of at most this priority may stand.
    Part(TermRef<'a>, u32, bool),
    /// The operand of a prefix operator, where terms of at most this priority may stand.
    Operand(TermRef<'a>, u32, bool),
    /// A list from this tail on, without its closing bracket.
    Tail(TermRef<'a>),
}
