//! Types, as declarations and the checker of types have them.
ghost use Rattle.std.specs.Prelude.{◌≡◌, ◌≢◌, ◌≤◌, ◌==◌, ◌&&◌, ◌↔◌, [], ◌∷◌, ◌++◌, length, slice_get, IfOk, OnOk, OnErr, MatchOption, IsTrue};
ghost use Rattle.merc_tree.specs.Types.{TypeVariable, IntType, TextType};
ghost use Rattle.merc_tree.specs.TypeShape.{type_arguments_of, type_shape_of, types_applied};

use crate::{Arguments, Shape, Term, TermRef, Terms};
use merc_base::{Name, NoMemory, Span};
use std::alloc::Global;
use std::marker::Model;

// Types are kept as terms: a type variable as a variable, `int` as an integer, `string` as a text. They have no span.
const NO_SPAN: Span = Span {
    first: 0,
    past: 0,
    line: 0,
};

/// What a type is at its root.
#[derive(Clone, Copy, PartialEq, Eq)]
pub enum TypeShape {
    /// A type variable.
    Variable(Name),
    /// The type `int`.
    Int,
    /// The type `string`.
    Text,
    /// A type's name with so many arguments.
    Application { name: Name, arity: usize },
}

/// Types in order. As a stack they serve to build types: the last ones become the arguments of the next. They are
/// dropped and copied without recursion.
#[derive(Drop)]
pub struct TypeExprs {
    terms: Terms,
}

impl Model for TypeExprs {
    ghost use Rattle.std.specs.Prelude.{List, map};
    ghost use Rattle.merc_tree.specs.Types.{TypeExpr};

    ghost Value = { List TypeExpr };

    ghost use Rattle.merc_tree.specs.TypeTerms.{type_of, types_code, KeepTypes};

    ghost coded = { types_code };

    ghost view = { λ t. map type_of t.terms };

    ghost invariant = { λ t. KeepTypes t.terms };
}

impl TypeExprs {
    /// No types. It takes no memory before one is pushed.
    pub fn new(alloc: Global) -> TypeExprs
        ensures { result ≡ [] }
    {
        TypeExprs {
            terms: Terms::new(alloc),
        }
    }

    /// The number of types.
    pub fn len(&self) -> usize
        ensures { result ≡ length self.now }
    {
        self.terms.len()
    }

    /// Puts a type variable behind the others. Where memory is refused nothing changes, here and in the calls below.
    pub fn push_variable(&mut self, name: Name) -> Result<(), NoMemory>
        ensures ok { OnOk result (self.new ≡ self.old ++ TypeVariable name ∷ []) }
        ensures err { OnErr result (self.new ≡ self.old) }
    {
        self.terms.push_variable(name, NO_SPAN)
    }

    /// Puts the type `int` behind the others.
    pub fn push_int(&mut self) -> Result<(), NoMemory>
        ensures ok { OnOk result (self.new ≡ self.old ++ IntType ∷ []) }
        ensures err { OnErr result (self.new ≡ self.old) }
    {
        self.terms.push_integer(0, NO_SPAN)
    }

    /// Puts the type `string` behind the others.
    pub fn push_text(&mut self) -> Result<(), NoMemory>
        ensures ok { OnOk result (self.new ≡ self.old ++ TextType ∷ []) }
        ensures err { OnErr result (self.new ≡ self.old) }
    {
        self.terms.push_text(Name::STRING, NO_SPAN)
    }

    /// Makes the last `arity` types the arguments of one type. The names `int` and `string` without arguments are the
    /// types that `push_int` and `push_text` push.
    pub fn apply(&mut self, name: Name, arity: usize) -> Result<(), NoMemory>
        requires { arity ≤ length self.old }
        ensures ok { OnOk result (self.new ≡ types_applied name arity self.old) }
        ensures err { OnErr result (self.new ≡ self.old) }
    {
        if is_alone(name, arity, Name::INT) {
            return self.push_int();
        }
        if is_alone(name, arity, Name::STRING) {
            return self.push_text();
        }
        self.terms.apply(name, None, arity, NO_SPAN)
    }

    /// The type at an index, None past the last.
    pub fn get(&self, index: usize) -> Option<TypeRef<'_>>
        ensures { result ≡ slice_get self.now index }
    {
        match self.terms.get(index) {
            Some(term) => Some(TypeRef { term }),
            None => None,
        }
    }

    /// The only type, None where there is none or more than one. It takes no memory.
    pub fn into_only(self) -> Option<TypeExpr>
        ensures { MatchOption result (length self ≢ 1) (λ only. self ≡ only ∷ []) }
    {
        match self.terms.into_only() {
            Some(term) => Some(TypeExpr { term }),
            None => None,
        }
    }
}

// Whether this is the other name without arguments.
fn is_alone(name: Name, arity: usize, other: Name) -> bool
    ensures { result ≡ ((arity == 0) && (name == other)) }
{
    arity == 0 && name == other
}

/// A type.
#[derive(Drop)]
pub struct TypeExpr {
    term: Term,
}

impl Model for TypeExpr {
    ghost use Rattle.merc_tree.specs.Types.{TypeExpr};

    ghost Value = { TypeExpr };

    ghost use Rattle.merc_tree.specs.TypeTerms.{type_of, type_code, KeepsType};

    ghost coded = { type_code };

    ghost view = { λ t. type_of t.term };

    ghost invariant = { λ t. KeepsType t.term };
}

impl TypeExpr {
    /// The type, to be looked at.
    pub fn as_ref(&self) -> TypeRef<'_>
        ensures { result ≡ self.now }
    {
        TypeRef {
            term: self.term.as_ref(),
        }
    }

    /// A copy.
    ///
    /// # Errors
    ///
    /// `NoMemory` where memory was refused.
    pub fn try_clone(&self, alloc: Global) -> Result<TypeExpr, NoMemory>
        ensures { IfOk result (λ copy. copy ≡ self.now) }
    {
        self.as_ref().to_type(alloc)
    }
}

/// A type that lies in a list of types.
#[derive(Drop)]
pub struct TypeRef<'a> {
    term: TermRef<'a>,
}

impl<'a> Model for TypeRef<'a> {
    ghost use Rattle.merc_tree.specs.Types.{TypeExpr};

    ghost Value = { TypeExpr };

    ghost use Rattle.merc_tree.specs.TypeTerms.{type_of, type_code, KeepsType};

    ghost coded = { type_code };

    ghost view = { λ t. type_of t.term };

    ghost invariant = { λ t. KeepsType t.term };
}

impl<'a> TypeRef<'a> {
    /// A second reference to the type. Nothing of the type is copied.
    pub fn copy(&self) -> TypeRef<'a>
        ensures { result ≡ self.now }
    {
        TypeRef {
            term: self.term.copy(),
        }
    }

    /// What the type is at its root.
    pub fn shape(&self) -> TypeShape
        ensures { result ≡ type_shape_of self.now }
    {
        match self.term.shape() {
            Shape::Variable(name) => TypeShape::Variable(name),
            Shape::Integer(_) => TypeShape::Int,
            Shape::Text(_) => TypeShape::Text,
            Shape::Application { name, arity, .. } => TypeShape::Application { name, arity },
        }
    }

    /// The arguments, none for a variable, `int` or `string`.
    pub fn arguments(&self) -> TypeArguments<'a>
        ensures { result ≡ type_arguments_of self.now }
    {
        TypeArguments {
            terms: self.term.arguments(),
        }
    }

    /// Whether both are the same type.
    pub fn is_same(&self, other: &TypeRef<'_>) -> bool
        ensures { IsTrue result ↔ (self.now ≡ other.now) }
    {
        self.term.is_same(&other.term)
    }

    /// A copy of its own.
    ///
    /// # Errors
    ///
    /// `NoMemory` where memory was refused.
    pub fn to_type(&self, alloc: Global) -> Result<TypeExpr, NoMemory>
        ensures { IfOk result (λ copy. copy ≡ self.now) }
    {
        let term = self.term.to_term(alloc)?;
        Ok(TypeExpr { term })
    }
}

/// Arguments of a type, to be taken from the last to the first.
#[derive(Drop)]
pub struct TypeArguments<'a> {
    terms: Arguments<'a>,
}

impl<'a> Model for TypeArguments<'a> {
    ghost use Rattle.std.specs.Prelude.{List, map};
    ghost use Rattle.merc_tree.specs.Types.{TypeExpr};

    ghost Value = { List TypeExpr };

    ghost use Rattle.merc_tree.specs.TypeTerms.{type_of, types_code, KeepTypes};

    ghost coded = { types_code };

    ghost view = { λ a. map type_of a.terms };

    ghost invariant = { λ a. KeepTypes a.terms };
}

impl<'a> TypeArguments<'a> {
    /// How many are left.
    pub fn len(&self) -> usize
        ensures { result ≡ length self.now }
    {
        self.terms.len()
    }

    /// Takes the last argument.
    pub fn take_last(&mut self) -> Option<TypeRef<'a>>
        ensures { MatchOption result ((self.old ≡ []) × (self.new ≡ [])) (λ last. self.old ≡ self.new ++ last ∷ []) }
    {
        match self.terms.take_last() {
            Some(term) => Some(TypeRef { term }),
            None => None,
        }
    }
}
