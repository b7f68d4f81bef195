//! Places of the heap.
ghost use Rattle.std.specs.Prelude.{◌≡◌, ◌≤◌, ◌<◌};
ghost use Rattle.merc_heap.specs.Fields.{kind_of, word_with};
ghost use Rattle.merc_heap.specs.declared.slot.TheConstants.{HALF, KINDS, MOST};

use merc_base::Name;
use merc_value::Word;
use std::marker::Model;

/// The largest number that a constructor may have.
pub const MOST: u32 = u32::MAX / KINDS;

// How many kinds of words there are, and the kinds.
pub(crate) const KINDS: u32 = 4;

pub(crate) const INT: u32 = 0;

pub(crate) const TEXT: u32 = 1;

pub(crate) const ATOM: u32 = 2;

pub(crate) const CELL: u32 = 3;

// How many values the lower half of a word's bits may have.
pub(crate) const HALF: u64 = 4_294_967_296;

/// The word of a field, and the number of the constructor whose cell ends with the field.
///
/// A run that builds much spends a good part of its time on memory that the system clears for it. So the number shares four
/// bytes with the kind of the word, and the bits of the word are kept in two halves, which leaves no byte unused.
#[derive(Drop)]
pub struct Slot {
    header: u32,
    low: u32,
    high: u32,
}

impl Model for Slot {
    ghost use Rattle.merc_heap.specs.Fields.{Field};

    ghost Value = { Field };

    ghost use Rattle.merc_heap.specs.Slots.{field_of};

    ghost view = { field_of };
}

impl Slot {
    // The slot of a field with this word, with which a cell ends whose constructor has this number.
    #[inline(always)]
    pub(crate) fn ending(number: u32, word: Word) -> Slot
        requires { number ≤ MOST }
        ensures { result ≡ record { number = number; word = word } }
    {
        Slot::of(number, kind(&word), bits(&word))
    }

    // The slot of a word of this kind with these bits.
    #[inline(always)]
    fn of(number: u32, kind: u32, bits: u64) -> Slot
        requires number { number ≤ MOST }
        requires kind { kind < KINDS }
        ensures { result ≡ record { number = number; word = word_with kind bits } }
    {
        Slot {
            header: number * KINDS + kind,
            low: (bits % HALF) as u32,
            high: (bits / HALF) as u32,
        }
    }

    /// The word of a field.
    #[inline(always)]
    pub fn word(&self) -> Word
        ensures { result ≡ self.now.word }
    {
        let bits = u64::from(self.low) + u64::from(self.high) * HALF;
        match self.header % KINDS {
            INT => Word::Int(bits.cast_signed()),
            TEXT => Word::Text(Name::new(bits)),
            ATOM => Word::Atom(Name::new(bits)),
            _ => Word::Cell(bits as usize),
        }
    }

    // The number of the constructor whose cell ends with this field.
    #[inline(always)]
    pub(crate) fn number(&self) -> u32
        ensures { result ≡ self.now.number }
    {
        self.header / KINDS
    }
}

// The kind of a word. It is told apart from the bits, so that neither needs a table of jumps.
#[inline(always)]
fn kind(word: &Word) -> u32
    ensures kind { result ≡ kind_of word.now }
    ensures small { result < KINDS }
{
    match *word {
        Word::Int(_) => INT,
        Word::Text(_) => TEXT,
        Word::Atom(_) => ATOM,
        Word::Cell(_) => CELL,
    }
}

// The bits of a word.
#[inline(always)]
fn bits(word: &Word) -> u64
    ensures { word_with (kind_of word.now) result ≡ word.now }
{
    match *word {
        Word::Int(integer) => integer.cast_unsigned(),
        Word::Text(name) => name.number(),
        Word::Atom(symbol) => symbol.number(),
        Word::Cell(place) => place as u64,
    }
}
