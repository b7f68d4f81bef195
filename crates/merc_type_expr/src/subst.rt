//! Substitutions of type variables, and what unifies two types.
ghost use Rattle.std.specs.Prelude.{◌≡◌, ◌++◌, [], IfOk, OnErr, MatchOption};
ghost use Rattle.merc_type_expr.specs.Outcome.{BecomesUnifier};
ghost use Rattle.merc_type_expr.specs.Solving.{IsSubst, Solved};
ghost use Rattle.merc_type_expr.specs.Unifier.{bound_to, HasNoUnifier, IsSolvable, IsUnifier};

use crate::solving::new_bindings;
use merc_base::{Name, NoMemory};
use merc_tree::{TypeExpr, TypeRef};
use std::alloc::Global;
use std::marker::Model;

/// A substitution of type variables, seen as its bindings. It always has a solution. A variable may be bound to a type
/// in which other variables are bound in their turn.
#[derive(Drop)]
pub struct Subst {
    // Each variable is bound once. One that is bound to another variable stands before that one's binding.
    bindings: Vec<(Name, TypeExpr)>,
}

impl Model for Subst {
    ghost use Rattle.merc_type_expr.specs.Unifier.{Bindings};

    ghost Value = { Bindings };

    ghost use Rattle.merc_type_expr.specs.SubstCode.{bindings_code};

    ghost coded = { bindings_code };

    ghost use Rattle.merc_type_expr.specs.Solving.{IsSubst};

    ghost view = { λ s. s.bindings.items };

    ghost invariant = { λ s. IsSubst s.bindings.items };
}

impl Subst {
    /// No variable is bound.
    pub fn new(alloc: Global) -> Subst
        ensures { result ≡ [] }
    {
        Subst {
            bindings: Vec::new(alloc),
        }
    }

    /// The type that a variable is bound to, None where it is not bound.
    pub fn get(&self, name: Name) -> Option<TypeRef<'_>>
        ensures value { result ≡ bound_to self.now name }
        ensures solvable { IsSolvable self.now }
    {
        for binding in &self.bindings {
            if binding.0 == name {
                return Some(binding.1.as_ref());
            }
        }
        None
    }

    /// Binds variables so that two types become one, and says whether that is possible. Where it is not, and where memory
    /// is refused, the substitution stays as it is.
    pub fn unify(&mut self, a: &TypeRef<'_>, b: &TypeRef<'_>) -> Result<bool, NoMemory>
        ensures found { IfOk result (λ unified. BecomesUnifier unified self.new a.now b.now self.old) }
        ensures err { OnErr result (self.new ≡ self.old) }
    {
        let alloc = *self.bindings.allocator();
        match bindings_besides(alloc, &self.bindings, a, b)? {
            Some(found) => {
                let mut more = found;
                self.bindings.append(&mut more)?;
                Ok(true)
            }
            None => Ok(false),
        }
    }

    /// A copy.
    ///
    /// # Errors
    ///
    /// `NoMemory` where memory was refused.
    pub fn try_clone(&self, alloc: Global) -> Result<Subst, NoMemory>
        ensures { IfOk result (λ copy. copy ≡ self.now) }
    {
        let mut bindings = Vec::new(alloc);
        for binding in &self.bindings {
            bindings.push((binding.0, binding.1.try_clone(alloc)?))?;
        }
        Ok(Subst { bindings })
    }
}

// The bindings that a substitution needs besides to make two types one, None where nothing unifies them under it.
fn bindings_besides(
    alloc: Global,
    under: &[(Name, TypeExpr)],
    a: &TypeRef<'_>,
    b: &TypeRef<'_>,
) -> Result<Option<Vec<(Name, TypeExpr)>>, NoMemory>
    requires { IsSubst under.now }
    ensures { IfOk result (λ answer. MatchOption answer (HasNoUnifier a.now b.now under.now) (λ found. Solved under.now (under.now ++ found.items) a.now b.now)) }
{
    // Copies, since the proof of the search wants one lifetime for the types and the bindings.
    let a = a.to_type(alloc)?;
    let b = b.to_type(alloc)?;
    new_bindings(alloc, under, &a.as_ref(), &b.as_ref())
}

/// The most general unifier of two types under a substitution, None exactly where there is no unifier.
///
/// Types are shared and not written out, and each pair of types is looked at once. With n places in the types of both and
/// of the substitution there are at most n² pairs, and each is looked for among those before it, so the cost is at worst
/// of the order of n to the fifth power times the greatest number of arguments. Mostly it is the size of the two types
/// times the number of bindings, and a copy of the substitution, which `Subst::unify` saves.
///
/// # Errors
///
/// `NoMemory` where memory was refused.
pub fn unify(
    alloc: Global,
    a: &TypeExpr,
    b: &TypeExpr,
    under: &Subst,
) -> Result<Option<Subst>, NoMemory>
    ensures found { IfOk result (λ answer. MatchOption answer (HasNoUnifier a.now b.now under.now) (λ found. IsUnifier found a.now b.now under.now)) }
{
    let mut subst = under.try_clone(alloc)?;
    if subst.unify(&a.as_ref(), &b.as_ref())? {
        Ok(Some(subst))
    } else {
        Ok(None)
    }
}
