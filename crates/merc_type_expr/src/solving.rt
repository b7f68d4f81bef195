//! The equations of types solved.
ghost use Rattle.std.specs.Prelude.{◌≡◌, ◌++◌, IfOk, MatchOption};
ghost use Rattle.merc_tree.specs.Types.{TypeVariable};
ghost use Rattle.merc_type_expr.specs.Solving.{BindsOrDiffer, IsRoot, IsSubst, SettlesOrDiffer, Solved};
ghost use Rattle.merc_type_expr.specs.Unifier.{HasNoUnifier};

use crate::following::{is_variable, same_shape, variable, walked};
use crate::occurring::occurs;
use crate::pairing::push_pairs;
use merc_base::{Name, NoMemory};
use merc_tree::{TypeExpr, TypeRef};
use std::alloc::Global;

// The bindings that a substitution needs besides to make two types one, None where nothing unifies them under it.
//
// Pairs of types lie in one list, and each is looked at once, however often it comes up. Where a variable is bound,
// the type that it leads to is taken; no type is copied or written out. With n places in the types of both and of the
// substitution there are at most n² pairs, and each is looked for among those before it.
fn solve<'a>(
    alloc: Global,
    under: &'a [(Name, TypeExpr)],
    a: &TypeRef<'a>,
    b: &TypeRef<'a>,
) -> Result<Option<Vec<(Name, TypeRef<'a>)>>, NoMemory>
    requires { IsSubst under.now }
    ensures { IfOk result (λ answer. MatchOption answer (HasNoUnifier a.now b.now under.now) (λ found. Solved under.now (under.now ++ found.items) a.now b.now)) }
{
    let mut found = Vec::new(alloc);
    let mut pairs = Vec::new(alloc);
    pairs.push((a.copy(), b.copy()))?;
    let mut next = 0;
    while next < pairs.len() {
        let pair = &pairs[next];
        let one = walked(&pair.0, under, &found);
        let other = walked(&pair.1, under, &found);
        if !settle(alloc, under, one, other, &mut found, &mut pairs)? {
            return Ok(None);
        }
        next += 1;
    }
    Ok(Some(found))
}

/// The bindings that `solve` finds, to types of their own.
pub(crate) fn new_bindings<'a>(
    alloc: Global,
    under: &'a [(Name, TypeExpr)],
    a: &TypeRef<'a>,
    b: &TypeRef<'a>,
) -> Result<Option<Vec<(Name, TypeExpr)>>, NoMemory>
    requires { IsSubst under.now }
    ensures { IfOk result (λ answer. MatchOption answer (HasNoUnifier a.now b.now under.now) (λ found. Solved under.now (under.now ++ found.items) a.now b.now)) }
{
    match solve(alloc, under, a, b)? {
        Some(found) => Ok(Some(owned(alloc, &found)?)),
        None => Ok(None),
    }
}

// Bindings to types of their own.
fn owned(alloc: Global, found: &[(Name, TypeRef<'_>)]) -> Result<Vec<(Name, TypeExpr)>, NoMemory>
    ensures { IfOk result (λ bindings. bindings.items ≡ found.now) }
{
    let mut bindings = Vec::new(alloc);
    for binding in found {
        bindings.push((binding.0, binding.1.to_type(alloc)?))?;
    }
    Ok(bindings)
}

// Makes two types that are no bound variables one, by a new binding or by the pairs of their arguments. False where
// they differ in any case.
fn settle<'a>(
    alloc: Global,
    under: &'a [(Name, TypeExpr)],
    one: TypeRef<'a>,
    other: TypeRef<'a>,
    found: &mut Vec<(Name, TypeRef<'a>)>,
    pairs: &mut Vec<(TypeRef<'a>, TypeRef<'a>)>,
) -> Result<bool, NoMemory>
    requires subst { IsSubst (under.now ++ found.old.items) }
    requires one { IsRoot (under.now ++ found.old.items) one }
    requires other { IsRoot (under.now ++ found.old.items) other }
    ensures { IfOk result (λ settled. SettlesOrDiffer settled (under.now ++ found.old.items) (under.now ++ found.new.items) pairs.old.items pairs.new.items one.entry other.entry) }
{
    if let Some(name) = variable(&one) {
        return bind(alloc, under, name, other, found);
    }
    if let Some(name) = variable(&other) {
        return bind(alloc, under, name, one, found);
    }
    if !same_shape(&one, &other) {
        return Ok(false);
    }
    push_pairs(one.arguments(), other.arguments(), pairs)?;
    Ok(true)
}

// Binds a variable to a type, unless it is that type already. False where the variable occurs inside the type.
fn bind<'a>(
    alloc: Global,
    under: &'a [(Name, TypeExpr)],
    name: Name,
    to: TypeRef<'a>,
    found: &mut Vec<(Name, TypeRef<'a>)>,
) -> Result<bool, NoMemory>
    requires subst { IsSubst (under.now ++ found.old.items) }
    requires free { IsRoot (under.now ++ found.old.items) (TypeVariable name) }
    requires root { IsRoot (under.now ++ found.old.items) to }
    ensures { IfOk result (λ bound. BindsOrDiffer bound (under.now ++ found.old.items) (under.now ++ found.new.items) name to.entry) }
{
    if is_variable(&to, name) {
        return Ok(true);
    }
    if occurs(alloc, name, &to, under, found)? {
        return Ok(false);
    }
    found.push((name, to))?;
    Ok(true)
}
