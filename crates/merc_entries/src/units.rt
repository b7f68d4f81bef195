//! The items of the library units.
ghost use Rattle.std.specs.Prelude.{◌≡◌, ◌≤◌, ℕ, true, List, [], ◌++◌, length, is_some, Some, IfOk};
ghost use Rattle.std.specs.List.{IsDistinct};
ghost use Rattle.std.specs.Option.{option_copied, unwrap_or};
ghost use Rattle.std.specs.Str.{bytes_eq};
ghost use Rattle.merc_base.specs.Names.{HoldsFixed};
ghost use Rattle.merc_entries.specs.Library.{unit_text};
ghost use Rattle.merc_entries.specs.Units.{constant_text, items_of, AreUnits, IsUnit};

use crate::library::text_of;
use merc_base::{Fault, Name, Names, NoMemory};
use merc_terms::read_text;
use merc_tree::Terms;
use std::alloc::Global;

/// The items of those library units that have a text. The others have none.
#[derive(Drop)]
pub struct Units {
    list: Terms,
    bool: Terms,
    maybe: Terms,
}

impl Units {
    /// The items of the unit of this name, None where there is no such unit or it has no text.
    pub fn items(&self, unit: Name) -> Option<&Terms>
        ensures { unwrap_or (option_copied result) [] ≡ items_of self.now unit }
    {
        if unit == Name::LIST {
            Some(&self.list)
        } else if unit == Name::BOOL {
            Some(&self.bool)
        } else if unit == Name::MAYBE {
            Some(&self.maybe)
        } else {
            None
        }
    }
}

/// The items of the library units. Their names are put into the table.
///
/// # Errors
///
/// `NoMemory` where memory was refused. No text of a unit is refused.
pub fn read_units(alloc: Global, names: &mut Names) -> Result<Units, NoMemory>
    ensures read { IfOk result (λ units. AreUnits names.old names.new (items_of units)) }
    ensures grows { (more : List (List ℕ)) × (names.new ≡ names.old ++ more) }
{
    let list = read_unit(alloc, Name::LIST, names)?;
    let bool = read_unit(alloc, Name::BOOL, names)?;
    let maybe = read_unit(alloc, Name::MAYBE, names)?;
    Ok(Units { list, bool, maybe })
}

// The items of one unit, for which the library has a text. Such a text is read: none is refused.
fn read_unit(alloc: Global, unit: Name, names: &mut Names) -> Result<Terms, NoMemory>
    requires { is_some (unit_text (constant_text unit)) ≡ true }
    ensures read { IfOk result (IsUnit names.old names.new (constant_text unit)) }
    ensures grows { (more : List (List ℕ)) × (names.new ≡ names.old ++ more) }
{
    let text = library_text(names, unit);
    match read_text(alloc, text, names) {
        Ok(terms) => Ok(terms),
        Err(Fault::NoMemory) => Err(NoMemory),
        Err(Fault::Refused(_)) => unreachable!(),
    }
}

// The text of a unit of the library.
fn library_text(names: &Names, unit: Name) -> &'static [u8]
    requires { is_some (unit_text (constant_text unit)) ≡ true }
    ensures value { unit_text (constant_text unit) ≡ Some result.now }
    ensures short { length result.now ≤ 1000 }
    ensures fixed { HoldsFixed names.now }
    ensures distinct { IsDistinct bytes_eq names.now }
{
    let name = names.text(unit).unwrap();
    text_of(name).unwrap()
}
