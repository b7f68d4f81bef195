//! The symbols of types.
ghost use Rattle.std.specs.Prelude.{◌≡◌, map};
ghost use Rattle.std.specs.Option.{option_map};
ghost use Rattle.merc_grading.specs.Fitting.{fellows};
ghost use Rattle.merc_grading.specs.Known.{symbol_of};

use merc_goal_tree::Symbol;
use merc_name_resolution::Known;
use merc_tree::Constructor;

/// The constructors of the type to which a symbol belongs, None where its symbols have no end.
pub fn fellows<'a>(known: &Known<'a>, symbol: Symbol) -> Option<&'a [Constructor]>
    ensures { option_map (λ constructors. map symbol_of constructors.now) result ≡ fellows known.now.types symbol }
{
    match symbol {
        Symbol::Constructor(name, arity) => match known.constructor(name, arity) {
            Some((declared, _)) => Some(declared.constructors.as_slice()),
            None => None,
        },
        Symbol::Integer(_) | Symbol::Text(_) => None,
    }
}
