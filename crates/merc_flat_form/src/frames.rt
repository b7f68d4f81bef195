//! Goals of which some sub-goals are still to come.
ghost use Rattle.std.specs.Prelude.{◌≡◌, [], ◌∷◌, MatchOption, OnOk};
ghost use Rattle.merc_flat_form.specs.Frames.{IsReady, keeps_of, less};

use merc_base::{NoMemory, Span};
use merc_goal_tree::Vars;
use std::alloc::Global;
use std::marker::Model;

/// What becomes of the goals of a frame once there are all of them.
#[derive(Drop)]
pub(crate) enum Closing {
    /// They stay as they are.
    Keep,
    /// All of them become one goal, one after the other.
    Join,
    /// All of them become a parallel conjunction.
    JoinParallel,
    /// All of them become a disjunction.
    Disjoin,
    /// The last three become an if-then-else.
    Choose,
    /// The last one becomes its negation.
    Negate,
    /// The last one becomes a goal with these variables of its own.
    Quantify(Vars),
}

/// A goal of which some sub-goals are still to come.
#[derive(Drop)]
pub(crate) struct Frame {
    pub(crate) closing: Closing,
    /// Whether a sub-goal gives all the goals that it becomes. Otherwise it gives one.
    pub(crate) keeps: bool,
    pub(crate) span: Span,
    /// How many sub-goals are still to come.
    pub(crate) left: usize,
    /// How many goals stand before those of this one.
    pub(crate) start: usize,
}

/// The frames of a goal and of those around it. Contracts see them from the innermost.
#[derive(Drop)]
pub(crate) struct Frames {
    list: Vec<Frame>,
}

impl Model for Frames {
    ghost use Rattle.std.specs.Prelude.{List, reverse};
    ghost use Rattle.merc_flat_form.specs.declared.frames.Frame.{Frame};

    ghost Value = { List Frame };

    ghost view = { λ f. reverse f.list.items };
}

impl Frames {
    /// No frame.
    pub(crate) fn new(alloc: Global) -> Frames
        ensures { result ≡ [] }
    {
        Frames {
            list: Vec::new(alloc),
        }
    }

    /// Whether the innermost goal takes all the goals that a sub-goal becomes, as does what is around all frames.
    pub(crate) fn keeps(&self) -> bool
        ensures { result ≡ keeps_of self.now }
    {
        match self.list.last() {
            Some(frame) => frame.keeps,
            None => true,
        }
    }

    /// Puts a frame within the others.
    pub(crate) fn push(&mut self, frame: Frame) -> Result<(), NoMemory>
        ensures { OnOk result (self.new ≡ frame ∷ self.old) }
    {
        self.list.push(frame)?;
        Ok(())
    }

    /// Counts one sub-goal of the innermost frame.
    pub(crate) fn count_down(&mut self)
        requires { IsReady self.old }
        ensures { self.new ≡ less self.old }
    {
        if let Some(mut frame) = self.list.pop() {
            frame.left -= 1;
            self.list.push(frame).unwrap();
        }
    }

    /// Takes the innermost frame where no sub-goal of it is to come.
    pub(crate) fn take_done(&mut self) -> Option<Frame>
        ensures { MatchOption result ((self.new ≡ self.old) × IsReady self.new) (λ frame. (self.old ≡ frame ∷ self.new) × (frame.left ≡ 0)) }
    {
        match self.list.last() {
            Some(frame) => {
                if frame.left > 0 {
                    return None;
                }
            }
            None => return None,
        }
        self.list.pop()
    }
}
