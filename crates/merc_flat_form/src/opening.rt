//! Frames as they are begun, each with a level of its own.
ghost use Rattle.std.specs.Prelude.{◌≡◌, ◌∷◌, [], ℕ, true, false, if◌then◌else◌, drop, map, IfOk, OnOk};
ghost use Rattle.merc_scopes.specs.Scopes.{at_of};
ghost use Rattle.merc_flat_form.specs.Levels.{or_else, shown};
ghost use Rattle.merc_flat_form.specs.Steps.{frame_of};

use crate::frames::{Closing, Frame, Frames};
use crate::scope_stack::ScopeStack;
use merc_base::{NoMemory, Span};
use merc_goal_tree::{Var, Vars};
use merc_scopes::Occurrence;
use std::alloc::Global;

/// A frame to which each sub-goal gives one goal.
pub(crate) fn frame_of(closing: Closing, span: Span, left: usize, start: usize) -> Frame
    ensures { result ≡ frame_of closing false span left start }
{
    Frame {
        closing,
        keeps: false,
        span,
        left,
        start,
    }
}

/// The frame of a conjunction, which within another one leaves its goals to it.
pub(crate) fn conjunction_frame(within: bool, span: Span, left: usize, start: usize) -> Frame
    ensures { result ≡ frame_of (if within then Closing.Keep else Closing.Join) true span left start }
{
    let closing = if within { Closing::Keep } else { Closing::Join };
    Frame {
        closing,
        keeps: true,
        span,
        left,
        start,
    }
}

/// Begins a level for what a goal brings with it.
pub(crate) fn enter(stack: &mut ScopeStack, found: &[Occurrence]) -> Result<(), NoMemory>
    ensures below { OnOk result (drop 1 stack.new ≡ stack.old) }
    ensures shown { OnOk result ((name : ℕ) → shown name stack.new ≡ or_else (shown name stack.old) (at_of name found.now)) }
{
    stack.enter()?;
    stack.bind(found)
}

/// Puts a frame within the others, with its level.
pub(crate) fn open(
    frame: Frame,
    found: &[Occurrence],
    frames: &mut Frames,
    stack: &mut ScopeStack,
) -> Result<(), NoMemory>
    ensures frames { OnOk result (frames.new ≡ frame ∷ frames.old) }
    ensures below { OnOk result (drop 1 stack.new ≡ stack.old) }
    ensures shown { OnOk result ((name : ℕ) → shown name stack.new ≡ or_else (shown name stack.old) (at_of name found.now)) }
{
    frames.push(frame)?;
    enter(stack, found)
}

/// Puts both frames of an if-then-else within the others: one for its condition and its then part, which may share
/// variables that its else part does not, in one for the whole.
pub(crate) fn open_conditional(
    span: Span,
    start: usize,
    found: &[Occurrence],
    frames: &mut Frames,
    stack: &mut ScopeStack,
) -> Result<(), NoMemory>
    ensures frames { OnOk result (frames.new ≡ frame_of Closing.Keep false span 2 start ∷ frame_of Closing.Choose false span 1 start ∷ frames.old) }
    ensures below { OnOk result (drop 1 stack.new ≡ [] ∷ stack.old) }
    ensures shown { OnOk result ((name : ℕ) → shown name stack.new ≡ or_else (shown name stack.old) (at_of name found.now)) }
{
    stack.enter()?;
    frames.push(frame_of(Closing::Choose, span, 1, start))?;
    open(
        frame_of(Closing::Keep, span, 2, start),
        found,
        frames,
        stack,
    )
}

/// Puts the frame of a quantifier within the others. Its variables hide those around it.
pub(crate) fn open_quantified(
    alloc: Global,
    span: Span,
    start: usize,
    found: &[Occurrence],
    frames: &mut Frames,
    stack: &mut ScopeStack,
) -> Result<(), NoMemory>
    ensures frames { OnOk result (frames.new ≡ frame_of (Closing.Quantify (map (λ one. one.at) found.now)) false span 1 start ∷ frames.old) }
    ensures below { OnOk result (drop 1 stack.new ≡ stack.old) }
    ensures shown { OnOk result ((name : ℕ) → shown name stack.new ≡ or_else (at_of name found.now) (shown name stack.old)) }
{
    stack.enter()?;
    stack.bind_over(found)?;
    let variables = variables_of(alloc, found)?;
    frames.push(frame_of(Closing::Quantify(variables), span, 1, start))
}

// The variables of some occurrences.
fn variables_of(alloc: Global, found: &[Occurrence]) -> Result<Vars, NoMemory>
    ensures { IfOk result (λ variables. variables ≡ map (λ one. one.at) found.now) }
{
    let mut variables = Vars::new(alloc);
    for one in found {
        variables.push(Var::new(one.at))?;
    }
    Ok(variables)
}
