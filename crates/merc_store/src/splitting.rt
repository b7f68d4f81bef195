//! Values split into their arguments.
ghost use Rattle.std.specs.Prelude.{◌≡◌, ◌<◌, ℕ, List, Some, length, map, slice_set};
ghost use Rattle.std.specs.List.{All};
ghost use Rattle.std.specs.Option.{is_some, IfSome, IfNone};
ghost use Rattle.merc_value.specs.Value.{Value};
ghost use Rattle.merc_value.specs.Block.{AreLower, IsBelow, value_of};
ghost use Rattle.merc_meaning.specs.Values.{fields};
ghost use Rattle.merc_meaning.specs.Trace.{Env};
ghost use Rattle.merc_meaning.specs.Steps.{value_at};
ghost use Rattle.merc_code.specs.Steps.{target_of, target_at};
ghost use Rattle.merc_frames.specs.Held.{AreHeld};
ghost use Rattle.merc_frames.specs.Rooms.{AreSlots};
ghost use Rattle.merc_frames.specs.Slots.{holding};
ghost use Rattle.merc_heap.specs.Heap.{arguments_in, word_of};
ghost use Rattle.merc_store.specs.Data.{IsSlotBelow};
ghost use Rattle.merc_store.specs.Fitting.{FitsFrame};
ghost use Rattle.merc_store.specs.Performing.{Does, head_of, stored, word_at, tested};

use crate::testing::tested;
use crate::{Done, Store};
use merc_base::Name;
use merc_code::{Instruction, Target};
use merc_frames::{Frames, Slot};
use merc_goal_tree::{Symbol, Var};
use merc_heap::{Heap, slot};
use merc_value::Word;

impl Store {
    /// Behind how many instructions a switch goes on; `None` where no target's symbol is that of the variable's value,
    /// and where it has no value.
    pub fn target(&self, whole: Var, targets: &[Target]) -> Option<usize>
        requires whole { whole < length self.now.stacks.current }
        ensures { (variables : ℕ) (env : Env) (marks : List ℕ) → FitsFrame self.now.cells variables self.now.stacks.current env marks
            → whole < variables → result ≡ target_at (value_at env whole) targets.now }
    {
        match self.word(whole) {
            Some(word) => first_target(&self.head(&word), targets),
            None => None,
        }
    }

    /// Gives variables the fields of the value of `whole`, one for one, where the value is of this symbol. Fails at every other
    /// value, and nothing changes.
    ///
    /// The cost is the number of the fields.
    #[inline(always)]
    pub fn split(&mut self, whole: Var, symbol: &Symbol, variables: &[Var]) -> Done
        requires { (whole < length self.old.stacks.current) × AreSlots (length self.old.stacks.current) variables.now }
        ensures { Does self.old self.new (Instruction.Split whole symbol.now variables.now) result }
    {
        let Some(place) = self.cell(whole) else {
            // Another value has no arguments.
            return self.literal_apart(whole, symbol);
        };
        let (head, fields) = cell_in(&self.heap, place);
        if is_head(*symbol, &head) {
            fill(&mut self.frames, variables, fields);
            Done::Bound
        } else {
            Done::Failed
        }
    }

    // Most literals are integers: of these the numbers alone are compared.
    #[inline(always)]
    pub(crate) fn literal(&self, whole: Var, symbol: &Symbol) -> Done
        requires { whole < length self.now.stacks.current }
        ensures { Does self.now self.now (Instruction.Literal whole symbol.now) result }
    {
        match *symbol {
            Symbol::Integer(number) => tested(self.has_integer(whole, number)),
            _ => self.literal_apart(whole, symbol),
        }
    }

    /// Whether a variable's value is this integer, as the instruction tells that tests it.
    #[inline(always)]
    pub fn has_integer(&self, whole: Var, number: i64) -> bool
        requires slot { whole < length self.now.stacks.current }
        ensures { Does self.now self.now (Instruction.Literal whole (Symbol.Integer number)) (tested result) }
    {
        match self.integer(whole) {
            Some(found) => number == found,
            None => false,
        }
    }

    // Tests a variable's value against any literal. Not inlined: its callers would become too large.
    #[inline(never)]
    fn literal_apart(&self, whole: Var, symbol: &Symbol) -> Done
        requires { whole < length self.now.stacks.current }
        ensures { Does self.now self.now (Instruction.Literal whole symbol.now) result }
    {
        let Some(word) = self.word(whole) else {
            return Done::Failed;
        };
        if is_head(*symbol, &self.head(&word)) {
            Done::Bound
        } else {
            Done::Failed
        }
    }

    // The place of the cell that a variable's value is, if it is one.
    #[inline(always)]
    pub(crate) fn cell(&self, variable: Var) -> Option<usize>
        requires { variable < length self.now.stacks.current }
        ensures found { IfSome result (λ place. word_at self.now.stacks.current variable ≡ Some (Word.Cell place)) }
        ensures below { IfSome result (λ place. place < length self.now.cells) }
        ensures none { IfNone result ((place : ℕ) → word_at self.now.stacks.current variable ≡ Some (Word.Cell place) → ⊥) }
    {
        match self.word(variable)? {
            Word::Cell(place) => Some(place),
            _ => None,
        }
    }

    // The constructor without arguments that a variable's value is, if it is one.
    #[inline(always)]
    pub(crate) fn atom(&self, variable: Var) -> Option<Name>
        requires { variable < length self.now.stacks.current }
        ensures { IfSome result (λ name. word_at self.now.stacks.current variable ≡ Some (Word.Atom name)) }
    {
        match self.word(variable)? {
            Word::Atom(name) => Some(name),
            _ => None,
        }
    }

    // The symbol that a word's value is of.
    #[inline(always)]
    pub(crate) fn head(&self, word: &Word) -> Symbol
        requires { IsBelow (length self.now.cells) word.now }
        ensures { result ≡ head_of (value_of self.now.cells word.now) }
    {
        match *word {
            Word::Int(number) => Symbol::Integer(number),
            Word::Text(text) => Symbol::Text(text),
            Word::Atom(name) => Symbol::Constructor(name, 0),
            Word::Cell(place) => {
                let (head, _) = cell_in(&self.heap, place);
                head
            }
        }
    }
}

// The symbol that the value of the cell at a place is of, and the cell's fields in order.
#[inline(always)]
pub(crate) fn cell_in(heap: &Heap, place: usize) -> (Symbol, &[slot::Slot])
    requires { place < length heap.now }
    ensures symbol { result.0 ≡ head_of (value_of heap.now (Word.Cell place)) }
    ensures fields { map word_of result.1.now ≡ arguments_in heap.now (Word.Cell place) }
    ensures lower { AreLower heap.now }
{
    let (name, fields) = heap.cell(place);
    (Symbol::Constructor(name, fields.len()), fields)
}

// Behind how many instructions a switch over the values of this symbol goes on.
#[inline(always)]
fn first_target(head: &Symbol, targets: &[Target]) -> Option<usize>
    ensures { (value : Value) → head.now ≡ head_of value → result ≡ target_of value targets.now }
{
    for target in targets {
        if is_head(target.symbol, head) {
            return Some(target.skipped);
        }
    }
    None
}

// Whether the values of which this is the symbol are of that one.
#[inline(always)]
pub(crate) fn is_head(symbol: Symbol, head: &Symbol) -> bool
    ensures { (value : Value) → head.now ≡ head_of value → result ≡ is_some (fields symbol value) }
{
    symbol == *head
}

// Gives variables the values of fields, one for one. Few of them are given without a loop.
#[inline(always)]
pub(crate) fn fill(frames: &mut Frames, variables: &[Var], fields: &[slot::Slot])
    requires { AreSlots (length frames.old.stacks.current) variables.now }
    ensures stacks { frames.new.stacks ≡ record frames.old.stacks { current = stored variables.now (map word_of fields.now) frames.old.stacks.current } }
    ensures held { (cells : ℕ) → All (IsBelow cells) (map word_of fields.now) → AreHeld IsSlotBelow cells frames.old → AreHeld IsSlotBelow cells frames.new }
{
    match (variables, fields) {
        ([one, two], [first, second]) => {
            put(frames, *one, first);
            put(frames, *two, second);
        }
        ([one], [first]) => put(frames, *one, first),
        ([one, two, three], [first, second, third]) => {
            put(frames, *one, first);
            put(frames, *two, second);
            put(frames, *three, third);
        }
        _ => fill_more(frames, variables, fields),
    }
}

// Gives the fields to any number of variables. Not inlined: its callers would become too large.
#[inline(never)]
fn fill_more(frames: &mut Frames, variables: &[Var], fields: &[slot::Slot])
    requires { AreSlots (length frames.old.stacks.current) variables.now }
    ensures stacks { frames.new.stacks ≡ record frames.old.stacks { current = stored variables.now (map word_of fields.now) frames.old.stacks.current } }
    ensures held { (cells : ℕ) → All (IsBelow cells) (map word_of fields.now) → AreHeld IsSlotBelow cells frames.old → AreHeld IsSlotBelow cells frames.new }
{
    match (variables, fields) {
        ([one, two, three, four], [first, second, third, fourth]) => {
            put(frames, *one, first);
            put(frames, *two, second);
            put(frames, *three, third);
            put(frames, *four, fourth);
        }
        _ => fill_each(frames, variables, fields),
    }
}

fn fill_each(frames: &mut Frames, variables: &[Var], fields: &[slot::Slot])
    requires { AreSlots (length frames.old.stacks.current) variables.now }
    ensures stacks { frames.new.stacks ≡ record frames.old.stacks { current = stored variables.now (map word_of fields.now) frames.old.stacks.current } }
    ensures held { (cells : ℕ) → All (IsBelow cells) (map word_of fields.now) → AreHeld IsSlotBelow cells frames.old → AreHeld IsSlotBelow cells frames.new }
{
    for (variable, field) in variables.iter().zip(fields) {
        put(frames, *variable, field);
    }
}

// Gives a variable the value of a field.
#[inline(always)]
pub(crate) fn put(frames: &mut Frames, variable: Var, field: &slot::Slot)
    requires { variable < length frames.old.stacks.current }
    ensures stacks { frames.new.stacks ≡ record frames.old.stacks { current = slice_set frames.old.stacks.current variable (holding (word_of field.now)) } }
    ensures held { (cells : ℕ) → IsBelow cells (word_of field.now) → AreHeld IsSlotBelow cells frames.old → AreHeld IsSlotBelow cells frames.new }
{
    frames.set(variable.number(), Slot::holding(field.word()));
}
