//! The cells of a heap that words lead to, with all that these use.
ghost use Rattle.std.specs.Prelude.{◌≡◌, ◌<◌, length, IfOk, OnOk};
ghost use Rattle.std.specs.List.{All};
ghost use Rattle.merc_value.specs.Block.{AreLower, IsBelow};
ghost use Rattle.merc_value.specs.Writing.{arguments_at};
ghost use Rattle.merc_segments.specs.Places.{Adds, LeadsInto, IsClosed};

use crate::places::Places;
use merc_base::NoMemory;
use merc_heap::Heap;
use merc_value::Word;
use std::alloc::Global;

// The places of the cells that words lead to and of all that these use, from the lowest to the highest. The cells that
// a cell uses lie below it, so that the highest pending place is not met again.
pub(crate) fn reached_places(
    alloc: Global,
    heap: &Heap,
    words: &[Word],
) -> Result<Vec<usize>, NoMemory>
    requires { All (IsBelow (length heap.now)) words.now }
    ensures closed { IfOk result (λ places. IsClosed heap.now places.items) }
    ensures words { IfOk result (λ places. All (LeadsInto places.items) words.now) }
{
    let mut pending = Places::new(alloc);
    add_words(words, &mut pending)?;
    let mut places = Vec::new(alloc);
    while let Some(place) = pending.pop_highest() {
        add_fields(heap, place, &mut pending)?;
        places.push(place)?;
    }
    places.reverse();
    Ok(places)
}

// Adds the places of the cells that words lead to.
fn add_words(words: &[Word], pending: &mut Places) -> Result<(), NoMemory>
    ensures { OnOk result (Adds words.now pending.old pending.new) }
{
    for word in words {
        pending.add(*word)?;
    }
    Ok(())
}

// Adds the places of the cells that the fields of the cell at a place lead to.
fn add_fields(heap: &Heap, place: usize, pending: &mut Places) -> Result<(), NoMemory>
    requires { place < length heap.now }
    ensures added { OnOk result (Adds (arguments_at heap.now place) pending.old pending.new) }
    ensures lower { AreLower heap.now }
{
    for index in 0..heap.arity(Word::Cell(place)) {
        let Some(field) = heap.argument(Word::Cell(place), index) else {
            unreachable!()
        };
        pending.add(field)?;
    }
    Ok(())
}
