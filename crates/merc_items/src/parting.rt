//! The two parts of a module: what stands in the file, and what comes from the units that it imports.
ghost use Rattle.std.specs.Prelude.{◌≡◌};
ghost use Rattle.merc_entries.specs.EntryValue.{entry_value};
ghost use Rattle.merc_items.specs.Parting.{has};

use merc_entries::Entry;

/// A part of a module.
#[derive(Clone, Copy)]
pub(crate) enum Part {
    File,
    Units,
}

impl Part {
    /// Whether an entry is of this part.
    pub(crate) fn has(self, entry: &Entry<'_>) -> bool
        ensures { result ≡ has self (entry_value entry.now) }
    {
        match self {
            Part::File => entry.unit.is_none(),
            Part::Units => entry.unit.is_some(),
        }
    }
}
