//! The trees that the compiler's passes hand on.
#![tactic(auto)]

pub mod declarations;
pub mod term;
pub mod types;

pub use declarations::{
    Arg, Args, Clause, Clauses, Constructor, Constructors, ModeDecl, ModeDecls, Module, NameList,
    PredDecl, PredDecls, TypeDef, TypeDefs,
};
pub use term::{Arguments, Shape, Term, TermRef, Terms};
pub use types::{TypeArguments, TypeExpr, TypeExprs, TypeRef, TypeShape};
