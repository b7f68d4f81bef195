//! Tables of types.
ghost use Rattle.std.specs.Prelude.{◌≡◌, ◌<◌, ◌↔◌, length, slice_get, IsTrue, Some};
ghost use Rattle.merc_tree.specs.Types.{IntType, TextType};
ghost use Rattle.merc_type_table.specs.Table.{is_closed, made, type_at, IsBefore, IsComplete};

use crate::{TypeNode, TypeNumber};
use std::marker::Model;

/// Types by numbers. Each stands there once, behind those that it is made of, so two numbers are equal where the types are.
#[derive(Drop)]
pub struct TypeTable {
    pub(crate) nodes: Vec<TypeNode>,
    // Whether the types have no type variables.
    pub(crate) closed: Vec<bool>,
}

impl Model for TypeTable {
    ghost use Rattle.std.specs.Prelude.{List};
    ghost use Rattle.merc_tree.specs.Types.{TypeExpr};

    ghost Value = { List TypeExpr };

    ghost use Rattle.merc_tree.specs.TypeTerms.{types_code};

    ghost coded = { types_code };

    ghost use Rattle.merc_type_table.specs.Table.{types_made, IsTable};

    ghost view = { λ t. types_made t.nodes.items };

    ghost invariant = { λ t. IsTable t.nodes.items t.closed.items };
}

impl TypeTable {
    /// What the type at a number is made of.
    pub fn node(&self, number: TypeNumber) -> TypeNode
        requires { number < length self.now }
        ensures is { type_at self.now number ≡ made self.now result }
        ensures before { IsBefore number result }
        ensures complete { IsComplete self.now result }
    {
        self.nodes[number.index()]
    }

    /// Whether the types at two numbers are the same. It takes no time that hangs on the types.
    pub fn is_same(&self, one: TypeNumber, other: TypeNumber) -> bool
        requires one { one < length self.now }
        requires other { other < length self.now }
        ensures { IsTrue result ↔ (type_at self.now one ≡ type_at self.now other) }
    {
        let _ = &self.nodes;
        one == other
    }

    /// Whether the type at a number has no type variables.
    pub fn is_closed(&self, number: TypeNumber) -> bool
        requires { number < length self.now }
        ensures { result ≡ is_closed (type_at self.now number) }
    {
        self.closed[number.index()]
    }

    /// The number of the type `int`.
    pub fn int(&self) -> TypeNumber
        ensures { slice_get self.now result ≡ Some IntType }
    {
        let _ = &self.nodes;
        TypeNumber::INT
    }

    /// The number of the type `string`.
    pub fn text(&self) -> TypeNumber
        ensures { slice_get self.now result ≡ Some TextType }
    {
        let _ = &self.nodes;
        TypeNumber::TEXT
    }
}
