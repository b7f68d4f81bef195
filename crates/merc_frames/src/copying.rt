//! Room for frames, and frames emptied and copied within their list.
ghost use Rattle.std.specs.Prelude.{◌≡◌, ◌+◌, ◌≤◌, length, take, drop, replicate, if◌then◌else◌, OnOk, OnErr};
ghost use Rattle.merc_frames.specs.View.{frame_of, Grows};

use crate::Slot;
use merc_base::NoMemory;

// A list that is too short is made longer by so many slots more than the frame needs, so that the next calls find room. More
// would be in vain: going back takes them away.
const FEW: usize = 8;

/// Makes the list long enough for a frame, by empty slots behind it. Where memory is refused, nothing changes.
#[inline(always)]
pub(crate) fn make_room(slots: &mut Vec<Slot>, base: usize, size: usize) -> Result<(), NoMemory>
    requires { base ≤ length slots.old.items }
    ensures ok { OnOk result (base + size ≤ length slots.new.items) }
    ensures grows { Grows slots.old.items slots.new.items }
    ensures err { OnErr result (slots.new.items ≡ slots.old.items) }
{
    if size <= slots.len() - base {
        Ok(())
    } else {
        grow(slots, base, size)
    }
}

// Makes a list that is too short for a frame long enough. It seldom is, and what seldom runs is kept out of the callers' code.
#[cold]
#[inline(never)]
fn grow(slots: &mut Vec<Slot>, base: usize, size: usize) -> Result<(), NoMemory>
    requires { length slots.old.items ≤ base + size }
    ensures ok { OnOk result (base + size ≤ length slots.new.items) }
    ensures grows { Grows slots.old.items slots.new.items }
    ensures err { OnErr result (slots.new.items ≡ slots.old.items) }
{
    let Some(end) = base.checked_add(size) else {
        return Err(NoMemory);
    };
    let Some(count) = end.checked_add(FEW) else {
        return Err(NoMemory);
    };
    slots.resize(count, Slot::Empty)?;
    Ok(())
}

/// Makes the list one of so many empty slots. Where memory is refused, nothing changes.
pub(crate) fn make_empty(slots: &mut Vec<Slot>, size: usize) -> Result<(), NoMemory>
    ensures ok { OnOk result (slots.new.items ≡ replicate size Slot.Empty) }
    ensures err { OnErr result (slots.new.items ≡ slots.old.items) }
{
    make_room(slots, 0, size)?;
    slots.truncate(size);
    slots.fill(Slot::Empty);
    Ok(())
}

/// Empties each slot of a frame. No other changes.
#[inline(always)]
pub(crate) fn empty_frame(slots: &mut [Slot], base: usize, size: usize)
    requires { base + size ≤ length slots.old }
    ensures long { length slots.new ≡ length slots.old }
    ensures below { take base slots.old ≡ take base slots.new }
    ensures above { drop (base + size) slots.old ≡ drop (base + size) slots.new }
    ensures emptied { frame_of slots.new base size ≡ replicate size Slot.Empty }
{
    slots[base..base + size].fill(Slot::Empty);
}

/// Takes all slots above a frame away, where it is told to.
pub(crate) fn cut_above(slots: &mut Vec<Slot>, base: usize, size: usize, is_cut: bool)
    requires { base + size ≤ length slots.old.items }
    ensures { slots.new.items ≡ (if is_cut then take (base + size) slots.old.items else slots.old.items) }
{
    if is_cut {
        slots.truncate(base + size);
    }
}

/// Copies a frame to where another base is. No other slot changes.
pub(crate) fn copy_frame(slots: &mut Vec<Slot>, from: usize, size: usize, to: usize)
    requires source { from + size ≤ length slots.old.items }
    requires target { to + size ≤ length slots.old.items }
    ensures long { length slots.new.items ≡ length slots.old.items }
    ensures below { take to slots.old.items ≡ take to slots.new.items }
    ensures above { drop (to + size) slots.old.items ≡ drop (to + size) slots.new.items }
    ensures copied { frame_of slots.new.items to size ≡ frame_of slots.old.items from size }
{
    // Most copies go up past the frame itself, as where a choice point keeps it: these are one piece of memory, where
    // `copy_within` goes slot by slot.
    if from + size <= to {
        copy_up(slots, from, size, to);
    } else if from != to {
        slots.copy_within(from..from + size, to);
    }
}

/// Copies a frame to where another base is, above it. No other slot changes.
pub(crate) fn copy_up(slots: &mut Vec<Slot>, from: usize, size: usize, to: usize)
    requires source { from + size ≤ to }
    requires target { to + size ≤ length slots.old.items }
    ensures long { length slots.new.items ≡ length slots.old.items }
    ensures below { take to slots.old.items ≡ take to slots.new.items }
    ensures above { drop (to + size) slots.old.items ≡ drop (to + size) slots.new.items }
    ensures copied { frame_of slots.new.items to size ≡ frame_of slots.old.items from size }
{
    let (low, high) = slots.split_at_mut(to);
    let source: &[Slot] = low;
    high[..size].copy_from_slice(&source[from..from + size]);
}
