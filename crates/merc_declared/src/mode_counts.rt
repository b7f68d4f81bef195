//! The modes of the file's predicates: each predicate has one, each mode a category, and no predicate has too many.
ghost use Rattle.std.specs.Prelude.{◌≡◌, ◌<◌, ◌^◌, ◌&&◌, false, List, [], Some, IfOk, IfErr, OnOk, is_some, if◌then◌else◌};
ghost use Rattle.merc_base.specs.declared.groups.Key.{Key as key_record};
ghost use Rattle.merc_entries.specs.Entries.{is_own, are_keys};
ghost use Rattle.merc_declared.specs.ModeFaults.{HasModeFault, lacks_mode_here, has_many_modes_here};
ghost use Rattle.merc_entries.specs.EntryValue.{entry_value, entry_values, AreInOrder, place_at};
ghost use Rattle.merc_item_forms.specs.ItemValue.{item_value};
ghost use Rattle.merc_entries.specs.KeySets.{keys_at};
ghost use Rattle.merc_base.specs.FirstFault.{HasNone, AnswersFirst};
ghost use Rattle.merc_base.specs.FirstPlace.{first_place};
ghost use Rattle.merc_declared.specs.ModeCounts.{no_modes, counted, with_mode, HoldsModes, lacks_mode_by, has_many_modes_by, too_few, too_many, earlier};

use merc_base::{Detail, Fault, Key, LimitName, Name, NoMemory, Place, Refusal, Rule};
use merc_entries::{Entry, has_mode, key_of};
use merc_item_forms::Item;
use std::alloc::Global;
use std::collections::BTreeMap;

// The most modes of a predicate.
const MODE_LIMIT: usize = 16;

/// Checks that each predicate of the file has a mode, each of its modes a category, and none more than 16 modes. The
/// entries stand in the order of their places.
///
/// # Errors
///
/// `Refused` says the first predicate that does not keep to this; where it lacks something and has too many, the lack is
/// what is told. `NoMemory` says that memory was refused.
pub fn check_modes(alloc: Global, entries: &[Entry<'_>]) -> Result<(), Fault>
    requires order { AreInOrder (entry_values entries.now) }
    ensures fine { IfOk result (λ _. HasNone (HasModeFault (entry_values entries.now))) }
    ensures refused { IfErr result (λ fault. AnswersFirst (HasModeFault (entry_values entries.now)) fault) }
{
    let counts = ModeCounts::of(alloc, entries)?;
    let missing = first_missing(entries, &counts);
    let many = first_many(entries, &counts);
    // (a call, here and below, since it costs much to prove what is dropped)
    drop(counts);
    match earlier(missing, many) {
        Some(refusal) => Err(Fault::Refused(refusal)),
        None => Ok(()),
    }
}

// Of a predicate that lacks a mode and one that has too many, the one that stands first.
fn earlier(missing: Option<Place>, many: Option<Place>) -> Option<Refusal>
    ensures { result ≡ earlier missing many }
{
    match missing {
        Some(missing) => match many {
            Some(many) if many.byte < missing.byte => Some(too_many(many)),
            _ => Some(too_few(missing)),
        },
        None => match many {
            Some(many) => Some(too_many(many)),
            None => None,
        },
    }
}

fn too_few(place: Place) -> Refusal
    ensures { result ≡ too_few place }
{
    Refusal {
        rule: Rule::MissingMode,
        place,
        detail: Detail::Plain,
    }
}

fn too_many(place: Place) -> Refusal
    ensures { result ≡ too_many place }
{
    Refusal {
        rule: Rule::LimitPassed,
        place,
        detail: Detail::Limit(LimitName::Modes),
    }
}

// The mode declarations of one predicate.
#[derive(Clone, Copy, Drop)]
struct ModeCount {
    count: usize,
    // whether one of them has no category
    lacks_category: bool,
}

impl ModeCount {
    fn none() -> ModeCount
        ensures { result ≡ no_modes }
    {
        ModeCount {
            count: 0,
            lacks_category: false,
        }
    }
}

// The mode declarations of the file by the keys of their predicates.
#[derive(Drop)]
struct ModeCounts {
    by_key: BTreeMap<Key, ModeCount>,
}

impl ModeCounts {
    fn of(alloc: Global, entries: &[Entry<'_>]) -> Result<ModeCounts, NoMemory>
        ensures { IfOk result (λ counts. HoldsModes (entry_values entries.now) counts) }
    {
        let mut counts = ModeCounts {
            by_key: BTreeMap::new(alloc),
        };
        match counts.add_all(entries) {
            Ok(()) => Ok(counts),
            Err(refused) => {
                drop(counts);
                Err(refused)
            }
        }
    }

    // Counts the modes of all entries, where none are counted yet.
    fn add_all(&mut self, entries: &[Entry<'_>]) -> Result<(), NoMemory>
        requires { HoldsModes [] self.old }
        ensures { OnOk result (HoldsModes (entry_values entries.now) self.new) }
    {
        for entry in entries {
            if entry.unit.is_none() {
                if let Item::Mode(head, category) = &entry.item {
                    self.add(key_of(head), category.is_none())?;
                }
            }
        }
        Ok(())
    }

    // Counts one more mode of a predicate, where the head has a key.
    fn add(&mut self, key: Option<Key>, lacks_category: bool) -> Result<(), NoMemory>
        requires { (counted self.old (keys_at key)).count < 2 ^ 63 }
        ensures { OnOk result ((found : List key_record) → counted self.new found ≡ (if are_keys found (keys_at key) then with_mode (counted self.old found) lacks_category else counted self.old found)) }
    {
        if let Some(key) = key {
            let before = self.at(Some(key));
            self.by_key.insert(
                key,
                ModeCount {
                    count: before.count + 1,
                    lacks_category: before.lacks_category || lacks_category,
                },
            )?;
        }
        Ok(())
    }

    // The modes of a predicate.
    fn at(&self, key: Option<Key>) -> ModeCount
        ensures { result ≡ counted self.now (keys_at key) }
    {
        match key {
            Some(key) => match self.by_key.get(&key) {
                Some(modes) => *modes,
                None => ModeCount::none(),
            },
            None => ModeCount::none(),
        }
    }

    // Whether a predicate lacks a mode, or one of its modes a category.
    fn lacks_mode(&self, item: &Item<'_>) -> bool
        ensures { result ≡ lacks_mode_by self.now (item_value item.now) }
    {
        match item {
            Item::Predicate(head, category) => {
                let modes = self.at(key_of(head));
                let lacks = if has_mode(head, category) {
                    category.is_none()
                } else {
                    category.is_some() || modes.count == 0
                };
                lacks || modes.lacks_category
            }
            _ => false,
        }
    }

    // Whether an entry is a predicate of the file that lacks a mode, or one of whose modes lacks a category.
    fn is_lacking(&self, entry: &Entry<'_>) -> bool
        ensures { result ≡ (is_own (entry_value entry.now) && lacks_mode_by self.now (item_value entry.now.item)) }
    {
        entry.unit.is_none() && self.lacks_mode(&entry.item)
    }

    // Whether a predicate has more modes than the limit.
    fn has_many(&self, item: &Item<'_>) -> bool
        requires { (found : List key_record) → (counted self.now found).count < 2 ^ 63 }
        ensures { result ≡ has_many_modes_by self.now (item_value item.now) }
    {
        match item {
            Item::Predicate(head, category) => {
                let own = if has_mode(head, category) { 1 } else { 0 };
                own + self.at(key_of(head)).count > MODE_LIMIT
            }
            _ => false,
        }
    }
}

// The place of the first predicate of the file that lacks a mode or one of its modes a category.
fn first_missing(entries: &[Entry<'_>], counts: &ModeCounts) -> Option<Place>
    requires { HoldsModes (entry_values entries.now) counts.now }
    ensures { result ≡ first_place place_at (lacks_mode_here (entry_values entries.now)) (entry_values entries.now) }
{
    for entry in entries {
        if counts.is_lacking(entry) {
            return Some(entry.place);
        }
    }
    None
}

// The place of the first predicate of the file that has too many modes.
fn first_many(entries: &[Entry<'_>], counts: &ModeCounts) -> Option<Place>
    requires { HoldsModes (entry_values entries.now) counts.now }
    ensures { result ≡ first_place place_at (has_many_modes_here (entry_values entries.now)) (entry_values entries.now) }
{
    for entry in entries {
        if entry.unit.is_none() && counts.has_many(&entry.item) {
            return Some(entry.place);
        }
    }
    None
}
