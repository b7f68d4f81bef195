//! Whether a variable occurs in a type.
ghost use Rattle.std.specs.Prelude.{◌≡◌, ◌++◌, ℕ, None, IfOk};
ghost use Rattle.merc_tree.specs.Types.{TypeExpr, replaced};
ghost use Rattle.merc_type_expr.specs.Solving.{occurs, IsSubst};
ghost use Rattle.merc_type_expr.specs.Unifier.{bound_to, IsMostGeneral};

use crate::following::{is_variable, walked};
use crate::pairing::push_arguments;
use merc_base::{Name, NoMemory};
use merc_tree::{TypeExpr, TypeRef};
use std::alloc::Global;

/// Whether a variable that is not bound occurs in a type once the bound variables in it are replaced. Each type on the
/// way is looked at once, however often it occurs.
pub(crate) fn occurs<'a>(
    alloc: Global,
    name: Name,
    of: &TypeRef<'a>,
    under: &'a [(Name, TypeExpr)],
    found: &[(Name, TypeRef<'a>)],
) -> Result<bool, NoMemory>
    requires subst { IsSubst (under.now ++ found.now) }
    requires free { bound_to (under.now ++ found.now) name ≡ None }
    ensures { IfOk result (λ answer. (values : ℕ → TypeExpr) → IsMostGeneral values (under.now ++ found.now) → occurs name (replaced values of.now) ≡ answer) }
{
    let mut types = Vec::new(alloc);
    types.push(of.copy())?;
    let mut next = 0;
    while next < types.len() {
        let root = walked(&types[next], under, found);
        if is_variable(&root, name) {
            return Ok(true);
        }
        push_arguments(root.arguments(), &mut types)?;
        next += 1;
    }
    Ok(false)
}
