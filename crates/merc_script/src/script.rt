//! Scripts, as lists of items.
ghost use Rattle.std.specs.Prelude.{◌≡◌, ◌≢◌, ◌<◌, ◌↔◌, IsTrue, MatchOption};
ghost use Rattle.merc_script.specs.Items.{items_of};
ghost use Rattle.merc_script.specs.Counting.{count_in, opened_count};

use crate::Item;
use std::marker::Model;

/// What a branch does: items in order, up to an end. It lies in one list of items, so that it is read, moved and dropped
/// without recursion.
#[derive(Drop)]
pub struct Script {
    items: Vec<Item>,
}

impl Model for Script {
    ghost use Rattle.merc_script.specs.Script.{Script as MeantScript};

    ghost Value = { MeantScript };

    ghost use Rattle.merc_script.specs.ScriptCode.{script_code};

    ghost coded = { script_code };

    ghost use Rattle.merc_script.specs.Items.{script_of, IsScript};

    ghost view = { λ s. script_of s.items.items };

    ghost invariant = { λ s. IsScript s.items.items };
}

impl Script {
    /// The script that has these items: each fork stands before its children, these one after the other, each up to its
    /// end, and then comes what follows the fork. `None` where no script has these items. It takes no memory.
    pub fn from_items(items: Vec<Item>) -> Option<Script>
        ensures { MatchOption result ((script : _) → items_of script ≢ items.items) (λ script. items_of script ≡ items.items) }
    {
        if is_one_script(&items) {
            Some(Script { items })
        } else {
            None
        }
    }

    /// The script's items.
    pub fn items(&self) -> &[Item]
        ensures { result.now ≡ items_of self.now }
    {
        &self.items
    }

    /// Gives the items back. It takes no memory.
    pub fn into_items(self) -> Vec<Item>
        ensures { result.items ≡ items_of self }
    {
        self.items
    }
}

// Whether items are those of one script.
fn is_one_script(items: &[Item]) -> bool
    ensures { IsTrue result ↔ count_in items.now ≡ Some 1 }
{
    match count_scripts(items) {
        Some(count) => count == 1,
        None => false,
    }
}

// How many scripts stand one after the other in a list of items, read from the end; `None` where something else stands
// there.
fn count_scripts(items: &[Item]) -> Option<usize>
    ensures { result ≡ count_in items.now }
{
    let mut rest = items;
    let mut count = 0;
    while let [before @ .., item] = rest {
        match count_before(item, count) {
            Some(scripts) => count = scripts,
            None => return None,
        }
        rest = before;
    }
    Some(count)
}

// How many scripts there are where an item is read before so many.
fn count_before(item: &Item, count: usize) -> Option<usize>
    requires { count < usize.MAX }
    ensures { result ≡ opened_count item.now count }
{
    match item {
        Item::End(_) => Some(count + 1),
        Item::Tick | Item::Wait(_) | Item::Signal(_) => {
            if count == 0 { None } else { Some(count) }
        }
        Item::Fork(fork) => {
            if fork.children < count {
                Some(count - fork.children)
            } else {
                None
            }
        }
    }
}
