//! Clauses and declarations of the file, which have to go together.
ghost use Rattle.std.specs.Prelude.{◌≡◌, ◌&&◌, [], IfOk, IfErr, OnOk};
ghost use Rattle.merc_base.specs.declared.refusal.Rule.TheVariants.{Undeclared};
ghost use Rattle.merc_declared.specs.AloneItems.{IsAlone};
ghost use Rattle.merc_entries.specs.EntryValue.{entry_values, AreInOrder, place_at};
ghost use Rattle.merc_item_forms.specs.ItemValue.{item_value};
ghost use Rattle.merc_base.specs.FirstFault.{AtPlaces, HasNone, AnswersFirst};
ghost use Rattle.merc_base.specs.FirstPlace.{first_place};
ghost use Rattle.merc_declared.specs.ClauseHeads.{HoldsKeys, is_alone_by, is_alone_here};

use merc_base::{Detail, Fault, Name, NoMemory, Place, Refusal, Rule};
use merc_entries::{Entry, KeySet, key_of};
use merc_item_forms::{Item, is_foreign};
use std::alloc::Global;

/// Checks that the clauses and the declarations of the file go together. The entries stand in the order of their places.
///
/// # Errors
///
/// `Refused` says the first item that goes together with no other: a clause or a mode without a declaration of its
/// predicate, a clause whose head has another module's name, or a predicate without a clause. `NoMemory` says that
/// memory was refused.
pub fn check_clauses(alloc: Global, entries: &[Entry<'_>], own: Name) -> Result<(), Fault>
    requires order { AreInOrder (entry_values entries.now) }
    ensures fine { IfOk result (λ _. HasNone (AtPlaces Undeclared (IsAlone own (entry_values entries.now)))) }
    ensures refused { IfErr result (λ fault. AnswersFirst (AtPlaces Undeclared (IsAlone own (entry_values entries.now))) fault) }
{
    match alone_place(alloc, entries, own)? {
        Some(place) => Err(Fault::Refused(Refusal {
            rule: Rule::Undeclared,
            place,
            detail: Detail::Plain,
        })),
        None => Ok(()),
    }
}

// The place of the first item of the file that goes together with no other.
fn alone_place(alloc: Global, entries: &[Entry<'_>], own: Name) -> Result<Option<Place>, NoMemory>
    ensures { IfOk result (λ place. place ≡ first_place place_at (is_alone_here own (entry_values entries.now)) (entry_values entries.now)) }
{
    let keys = OwnKeys::of(alloc, entries, own)?;
    let place = first_alone(entries, own, &keys);
    // (a call, here and below, since it costs much to prove what is dropped)
    drop(keys);
    Ok(place)
}

// The keys of the file's own predicates, and those of their clauses.
#[derive(Drop)]
struct OwnKeys {
    predicates: KeySet,
    clauses: KeySet,
}

impl OwnKeys {
    fn of(alloc: Global, entries: &[Entry<'_>], own: Name) -> Result<OwnKeys, NoMemory>
        ensures { IfOk result (λ keys. HoldsKeys own (entry_values entries.now) keys) }
    {
        let mut keys = OwnKeys {
            predicates: KeySet::new(alloc),
            clauses: KeySet::new(alloc),
        };
        match keys.add_all(entries, own) {
            Ok(()) => Ok(keys),
            Err(refused) => {
                drop(keys);
                Err(refused)
            }
        }
    }

    // Adds those of all entries, where there are none yet.
    fn add_all(&mut self, entries: &[Entry<'_>], own: Name) -> Result<(), NoMemory>
        requires { HoldsKeys own [] self.old }
        ensures { OnOk result (HoldsKeys own (entry_values entries.now) self.new) }
    {
        for entry in entries {
            if entry.unit.is_none() {
                match &entry.item {
                    Item::Predicate(head, _) => self.predicates.insert(key_of(head))?,
                    Item::Clause(head, _) if !is_foreign(head, own) => {
                        self.clauses.insert(key_of(head))?
                    }
                    _ => {}
                }
            }
        }
        Ok(())
    }

    // Whether an item of the file goes together with none of these.
    fn is_alone(&self, item: &Item<'_>, own: Name) -> bool
        ensures { result ≡ is_alone_by own self.now (item_value item.now) }
    {
        match item {
            Item::Clause(head, _) => {
                is_foreign(head, own) || !self.predicates.contains(key_of(head))
            }
            Item::Mode(head, _) => !self.predicates.contains(key_of(head)),
            Item::Predicate(head, _) => !self.clauses.contains(key_of(head)),
            _ => false,
        }
    }
}

// The place of the first item of the file that goes together with none of these keys.
fn first_alone(entries: &[Entry<'_>], own: Name, keys: &OwnKeys) -> Option<Place>
    requires { HoldsKeys own (entry_values entries.now) keys.now }
    ensures { result ≡ first_place place_at (is_alone_here own (entry_values entries.now)) (entry_values entries.now) }
{
    for entry in entries {
        if entry.unit.is_none() && keys.is_alone(&entry.item, own) {
            return Some(entry.place);
        }
    }
    None
}
