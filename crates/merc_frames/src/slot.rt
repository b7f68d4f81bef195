//! Slots: what a frame holds at each of its numbers.
ghost use Rattle.std.specs.Prelude.{◌≡◌, Some};
ghost use Rattle.merc_value.specs.declared.word.Word.{Word as WordValue};
ghost use Rattle.merc_frames.specs.Slots.{holding, word_in, mark_in};

use merc_base::Name;
use merc_value::Word;

/// What a slot of a frame holds. Nothing comes first, so that a frame is emptied by zeros, and last the words in the order of
/// `Word`, so that one comparison tells whether there is one.
#[derive(Clone, Copy, Drop)]
pub enum Slot {
    /// Nothing.
    Empty,
    /// A mark: a number of choice points.
    Mark(usize),
    /// The word of an integer.
    Int(i64),
    /// The word of a text, which this name has.
    Text(Name),
    /// The word of a constructor without arguments.
    Atom(Name),
    /// The word of the cell at this place, from 0.
    Cell(usize),
}

impl Slot {
    /// A slot that holds a word.
    #[inline(always)]
    pub fn holding(word: Word) -> Slot
        ensures { result ≡ holding word }
    {
        match word {
            Word::Int(number) => Slot::Int(number),
            Word::Text(name) => Slot::Text(name),
            Word::Atom(name) => Slot::Atom(name),
            Word::Cell(place) => Slot::Cell(place),
        }
    }

    /// The word that it holds, if it holds one.
    #[inline(always)]
    pub fn word(self) -> Option<Word>
        ensures { result ≡ word_in self }
    {
        match self {
            Slot::Empty | Slot::Mark(_) => None,
            _ => Some(self.held()),
        }
    }

    // The word that it holds, where it holds one. Whether it does is not asked here, so that no table of jumps is needed.
    #[inline(always)]
    fn held(self) -> Word
        ensures { (word : WordValue) → word_in self ≡ Some word → result ≡ word }
    {
        match self {
            Slot::Int(number) => Word::Int(number),
            Slot::Text(name) => Word::Text(name),
            Slot::Atom(name) => Word::Atom(name),
            Slot::Cell(place) => Word::Cell(place),
            Slot::Empty | Slot::Mark(_) => Word::Int(0),
        }
    }

    /// The mark that it holds; 0 where it holds none.
    #[inline(always)]
    pub fn mark(self) -> usize
        ensures { result ≡ mark_in self }
    {
        match self {
            Slot::Mark(count) => count,
            _ => 0,
        }
    }
}
