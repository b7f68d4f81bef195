//! A table of distinct texts, each with its number.
ghost use Rattle.std.specs.Prelude.{◌≡◌, ◌<◌, ◌^◌, [], length, slice_get, option_copied, is_some, IfSome, IfOk, OnErr};
ghost use Rattle.std.specs.List.{IsDistinct};
ghost use Rattle.std.specs.Str.{bytes_eq};
ghost use Rattle.merc_base.specs.Texts.{is_among, place_among, with_text};

use crate::NoMemory;
use std::alloc::Global;
use std::collections::HashMap;
use std::marker::Model;

/// Texts of which no two are equal, numbered from 0 in the order in which they came. Contracts see the list of the
/// texts by number.
#[derive(Drop)]
pub struct TextTable {
    texts: Vec<Vec<u8>>,
    // The number of each text. The keys are copies, since a map cannot borrow from the list beside it.
    numbers: HashMap<Vec<u8>, usize>,
}

impl Model for TextTable {
    ghost use Rattle.std.specs.Prelude.{◌≡◌, List, ℕ, map};

    ghost Value = { List (List ℕ) };

    ghost view = { λ t. map (λ text. text.items) t.texts.items };

    ghost use Rattle.std.specs.List.{IsDistinct};
    ghost use Rattle.std.specs.Str.{bytes_eq};
    ghost use Rattle.std.specs.HashMap.{get_by};
    ghost use Rattle.merc_base.specs.Texts.{number_among};

    ghost invariant = { λ t. ((text : List ℕ) → get_by (λ key. bytes_eq text key.items) t.numbers ≡ number_among (map (λ other. other.items) t.texts.items) text) × IsDistinct bytes_eq (map (λ other. other.items) t.texts.items) };
}

impl TextTable {
    /// A table without texts. It takes no memory before something is added.
    pub fn new(alloc: Global) -> TextTable
        ensures { result ≡ [] }
    {
        TextTable {
            texts: Vec::new(alloc),
            numbers: HashMap::new(alloc),
        }
    }

    /// The number of texts, which are distinct.
    pub fn len(&self) -> usize
        ensures count { result ≡ length self.now }
        ensures small { result < 2 ^ 63 }
        ensures distinct { IsDistinct bytes_eq self.now }
    {
        self.texts.len()
    }

    /// Whether the table has this text.
    pub fn contains(&self, text: &[u8]) -> bool
        ensures { result ≡ is_among text.now self.now }
    {
        self.numbers.contains_key(text)
    }

    /// The number of this text, where the table has it.
    pub fn place(&self, text: &[u8]) -> Option<usize>
        ensures found { IfSome result (λ k. k ≡ place_among self.now text.now) }
        ensures known { is_some result ≡ is_among text.now self.now }
    {
        self.numbers.get(text).copied()
    }

    /// The number of this text, which is put behind the others where the table does not have it. Where memory is
    /// refused the table is unchanged.
    pub fn add(&mut self, text: &[u8]) -> Result<usize, NoMemory>
        ensures texts { IfOk result (λ k. self.new ≡ with_text self.old text.now) }
        ensures place { IfOk result (λ k. k ≡ place_among self.new text.now) }
        ensures err { OnErr result (self.new ≡ self.old) }
        ensures small { IfOk result (λ k. k < 2 ^ 63) }
    {
        let count = self.texts.len();
        if let Some(place) = self.numbers.get(text) {
            return Ok(*place);
        }
        let alloc = *self.texts.allocator();
        let key = Vec::from_slice(alloc, text)?;
        let text = Vec::from_slice(alloc, text)?;
        // (room first, so that no text has a number without standing in the list)
        self.texts.reserve(1)?;
        self.numbers.insert(key, count)?;
        self.texts.push_reserved(text);
        Ok(count)
    }

    /// The text of this number, if there is one.
    pub fn text(&self, place: usize) -> Option<&[u8]>
        ensures { option_copied result ≡ slice_get self.now place }
    {
        let text = self.texts.get(place)?;
        Some(text.as_slice())
    }
}
