//! A module: what its items declare, with those of the library units that it imports.
use crate::{Term, TypeExprs};
use merc_base::{Category, Name, Sequence, Span};

/// A constructor of a type.
#[derive(Drop)]
pub struct Constructor {
    pub name: Name,
    pub args: TypeExprs,
}

/// The constructors of a type, in order.
pub type Constructors = Sequence<Constructor>;

/// Names in order.
pub type NameList = Sequence<Name>;

/// A discriminated union: a type with its parameters and constructors.
#[derive(Drop)]
pub struct TypeDef {
    pub name: Name,
    pub params: NameList,
    pub constructors: Constructors,
    /// The library unit that declares it, none for the file's own.
    pub unit: Option<Name>,
}

/// Types in the order of their declarations.
pub type TypeDefs = Sequence<TypeDef>;

/// How a mode has an argument: ground before and after, or free before and ground after.
#[derive(Clone, Copy)]
pub enum Arg {
    Input,
    Output,
}

/// The arguments of a mode, in order.
pub type Args = Sequence<Arg>;

/// A mode of a predicate, with the category that is declared for it.
#[derive(Drop)]
pub struct ModeDecl {
    pub args: Args,
    pub category: Category,
    /// The declaration that has the mode.
    pub span: Span,
}

/// The modes of a predicate, in the order of their declarations.
pub type ModeDecls = Sequence<ModeDecl>;

/// A predicate.
#[derive(Drop)]
pub struct PredDecl {
    pub name: Name,
    pub args: TypeExprs,
    pub modes: ModeDecls,
    /// Its `:- pred` declaration.
    pub span: Span,
    /// The library unit that declares it, none for the file's own.
    pub unit: Option<Name>,
}

/// Predicates in the order of their declarations.
pub type PredDecls = Sequence<PredDecl>;

/// A clause: its head, and its body if it has one.
#[derive(Drop)]
pub struct Clause {
    pub head: Term,
    pub body: Option<Term>,
    pub span: Span,
}

/// Clauses in order.
pub type Clauses = Sequence<Clause>;

/// A module.
#[derive(Drop)]
pub struct Module {
    pub name: Name,
    /// The units that it imports, each once, in the order of their first imports.
    pub units: NameList,
    /// The file's types, and behind them those of the units.
    pub types: TypeDefs,
    /// The file's predicates, and behind them those of the units.
    pub preds: PredDecls,
    /// How many predicates are the file's.
    pub own: usize,
    /// The file's clauses, and behind them those of the units.
    pub clauses: Clauses,
}
