//! What becomes of the goals of frames.
ghost use Rattle.std.specs.Prelude.{◌≡◌, ◌+◌, ◌≤◌, ℕ, Bool, List, Option, length, OnOk};
ghost use Rattle.merc_goals.specs.Written.{Written};
ghost use Rattle.merc_name_resolution.specs.declared.callee.Callee.{Callee};
ghost use Rattle.merc_flat_form.specs.Frames.{AreComing, AreFilled, IsReady, closed, finished, needed};

use crate::frames::{Closing, Frame, Frames};
use crate::scope_stack::ScopeStack;
use merc_base::{NoMemory, Span};
use merc_goal_tree::{Nodes, SimpleGoal};

/// Closes the frames of which no sub-goal is to come.
pub(crate) fn close_done(
    frames: &mut Frames,
    stack: &mut ScopeStack,
    nodes: &mut Nodes,
) -> Result<(), NoMemory>
    requires { AreFilled frames.old (length nodes.old) }
    ensures ready { OnOk result (IsReady frames.new) }
    ensures filled { OnOk result (AreFilled frames.new (length nodes.new)) }
    ensures coming { OnOk result ((coming : ℕ) → AreComing frames.old coming → AreComing frames.new coming) }
    ensures finished { OnOk result ((blank : ℕ → Bool) → (callee : ℕ → Option ℕ → ℕ → Callee) → (coming : List Written) → finished blank callee frames.new coming stack.new nodes.new ≡ finished blank callee frames.old coming stack.old nodes.old) }
{
    while let Some(frame) = frames.take_done() {
        close(frame, nodes)?;
        stack.leave();
    }
    Ok(())
}

// Makes of the goals of a frame what they become.
fn close(frame: Frame, nodes: &mut Nodes) -> Result<(), NoMemory>
    requires { frame.start + needed frame.closing ≤ length nodes.old }
    ensures { OnOk result (nodes.new ≡ closed frame.closing frame.span frame.start nodes.old) }
{
    let span = frame.span;
    let count = nodes.len() - frame.start;
    match frame.closing {
        Closing::Keep => Ok(()),
        Closing::Join => make_one(nodes, frame.start, span),
        Closing::JoinParallel => nodes.conjoin_parallel(count, span),
        Closing::Disjoin => nodes.disjoin(count, span),
        Closing::Choose => nodes.conditional(span),
        Closing::Negate => nodes.negate(span),
        Closing::Quantify(variables) => nodes.quantify(variables, span),
    }
}

/// Makes the goals behind the first ones, of which there are `start`, one goal.
pub(crate) fn make_one(nodes: &mut Nodes, start: usize, span: Span) -> Result<(), NoMemory>
    requires { start ≤ length nodes.old }
    ensures { OnOk result (nodes.new ≡ closed Closing.Join span start nodes.old) }
{
    let count = nodes.len() - start;
    if count == 0 {
        return nodes.push(SimpleGoal::True, span);
    }
    if count == 1 {
        return Ok(());
    }
    nodes.conjoin(count, span)
}
