//! The predicates and constructors of a module by their names.
ghost use Rattle.std.specs.Prelude.{◌≡◌, ◌++◌, ℕ, map, IfOk, OnOk};
ghost use Rattle.merc_base.specs.Groups.{kept};
ghost use Rattle.merc_name_resolution.specs.Indexing.{constructor_seen, constructors_among, constructors_of, predicate_seen, predicates_from};

use merc_base::{Groups, Key, NoMemory};
use merc_tree::{Constructor, PredDecl, TypeDef};
use std::alloc::Global;

/// Predicates with their numbers.
pub(crate) fn predicates_of<'a>(
    alloc: Global,
    preds: &'a [PredDecl],
) -> Result<Groups<(usize, &'a PredDecl)>, NoMemory>
    ensures { IfOk result (λ groups. (name arity : ℕ) → map predicate_seen (kept groups name arity) ≡ predicates_from 0 preds.now name arity) }
{
    let mut groups = Groups::new(alloc);
    for (number, declared) in preds.iter().enumerate() {
        let key = Key {
            name: declared.name,
            arity: declared.args.len(),
        };
        groups.add(alloc, key, (number, declared))?;
    }
    Ok(groups)
}

/// Constructors with their types.
pub(crate) fn constructors_of<'a>(
    alloc: Global,
    types: &'a [TypeDef],
) -> Result<Groups<(&'a TypeDef, &'a Constructor)>, NoMemory>
    ensures { IfOk result (λ groups. (name arity : ℕ) → map constructor_seen (kept groups name arity) ≡ constructors_of types.now name arity) }
{
    let mut groups = Groups::new(alloc);
    for declared in types {
        add_constructors(alloc, declared, &mut groups)?;
    }
    Ok(groups)
}

// Adds the constructors of a type.
fn add_constructors<'a>(
    alloc: Global,
    declared: &'a TypeDef,
    groups: &mut Groups<(&'a TypeDef, &'a Constructor)>,
) -> Result<(), NoMemory>
    ensures { OnOk result ((name arity : ℕ) → map constructor_seen (kept groups.new name arity) ≡ map constructor_seen (kept groups.old name arity) ++ constructors_among declared.now declared.now.constructors name arity) }
{
    for constructor in declared.constructors.as_slice() {
        let key = Key {
            name: constructor.name,
            arity: constructor.args.len(),
        };
        groups.add(alloc, key, (declared, constructor))?;
    }
    Ok(())
}
