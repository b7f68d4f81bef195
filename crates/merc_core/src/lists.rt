//! Lists whose elements go from one to another without taking memory.
ghost use Rattle.std.specs.Prelude.{◌≡◌, ◌+◌, ◌-◌, ◌<◌, ◌^◌, ◌++◌, [], ◌∷◌, length, take, drop};

use std::alloc::Global;
use std::collections::LinkedList;
use std::mem::swap;

/// Puts the first of a list behind another list.
pub fn move_first<T: Drop>(from: &mut LinkedList<T>, into: &mut LinkedList<T>)
    requires some { 0 < length from.old }
    requires room { length into.old + 1 < 2 ^ 63 }
    ensures into { into.new ≡ into.old ++ take 1 from.old }
    ensures from { from.new ≡ drop 1 from.old }
{
    if let Ok(mut rest) = from.split_off(1) {
        let _ = into.append(from);
        swap(from, &mut rest);
    }
}

/// Puts the last of a list behind another list.
pub fn move_last<T: Drop>(from: &mut LinkedList<T>, into: &mut LinkedList<T>)
    requires some { 0 < length from.old }
    requires room { length into.old + 1 < 2 ^ 63 }
    ensures into { into.new ≡ into.old ++ drop (length from.old - 1) from.old }
    ensures from { from.new ≡ take (length from.old - 1) from.old }
{
    let before = from.len() - 1;
    if let Ok(mut last) = from.split_off(before) {
        let _ = into.append(&mut last);
    }
}

/// Puts all of a list behind another list.
pub fn move_all<T: Drop>(from: &mut LinkedList<T>, into: &mut LinkedList<T>)
    requires { length into.old + length from.old < 2 ^ 63 }
    ensures into { into.new ≡ into.old ++ from.old }
    ensures from { from.new ≡ [] }
{
    let _ = into.append(from);
}

/// Puts a value behind a list, in a node that is spare.
pub fn put_last<T: Drop>(
    alloc: Global,
    spare: &mut LinkedList<T>,
    into: &mut LinkedList<T>,
    value: T,
)
    requires some { 0 < length spare.old }
    requires room { length into.old + 1 < 2 ^ 63 }
    ensures into { into.new ≡ into.old ++ value ∷ [] }
    ensures spare { length spare.new + 1 ≡ length spare.old }
{
    let mut node = LinkedList::new(alloc);
    move_first(spare, &mut node);
    if let Some(first) = node.front_mut() {
        *first = value;
    }
    move_all(&mut node, into);
}

/// Puts a value in front of a list, in a node that is spare.
pub fn put_first<T: Drop>(
    alloc: Global,
    spare: &mut LinkedList<T>,
    into: &mut LinkedList<T>,
    value: T,
)
    requires some { 0 < length spare.old }
    requires room { length into.old + 1 < 2 ^ 63 }
    ensures into { into.new ≡ value ∷ into.old }
    ensures spare { length spare.new + 1 ≡ length spare.old }
{
    let mut node = LinkedList::new(alloc);
    put_last(alloc, spare, &mut node, value);
    move_all(into, &mut node);
    swap(into, &mut node);
}
