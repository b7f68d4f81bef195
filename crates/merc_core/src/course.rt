//! The root's items, and how far each script among them goes.
ghost use Rattle.std.specs.Prelude.{◌≡◌, ◌+◌, ◌<◌, ℕ, length};
ghost use Rattle.merc_script.specs.Script.{Script};
ghost use Rattle.merc_core.specs.Forking.{past_script, past_scripts};
ghost use Rattle.merc_core.specs.Standing.{IsLeft, IsNext};

use crate::branch::Branch;
use merc_script::{CellId, Fork, Item, Outcome};

// The root's items, and for each place the place past the script that starts there.
#[derive(Drop)]
pub(crate) struct Course {
    pub(crate) items: Vec<Item>,
    pub(crate) past: Vec<usize>,
}

// What a branch comes to next.
#[derive(Drop)]
pub(crate) enum Next<'a> {
    Tick,
    Wait(CellId),
    Signal(CellId),
    Fork(&'a Fork),
    End(Outcome),
}

impl Course {
    // What a branch comes to next.
    pub(crate) fn next(&self, branch: &Branch) -> Next<'_>
        requires { branch.now.at < length self.now.items.items }
        ensures { (left : Script) → IsLeft self.now.items.items branch.now left → IsNext self.now.items.items branch.now.at result left }
    {
        if let Some(outcome) = branch.ended {
            return Next::End(outcome);
        }
        match &self.items[branch.at] {
            Item::Tick => Next::Tick,
            Item::Wait(cell) => Next::Wait(*cell),
            Item::Signal(cell) => Next::Signal(*cell),
            Item::Fork(fork) => Next::Fork(fork),
            Item::End(outcome) => Next::End(*outcome),
        }
    }

    // The place past the script that starts at a place.
    pub(crate) fn past_script(&self, place: usize) -> usize
        ensures { result ≡ past_script self.now.past.items place }
    {
        match self.past.get(place) {
            Some(past) => *past,
            None => place,
        }
    }

    // The place past so many scripts that stand one after the other from a place on.
    pub(crate) fn past_scripts(&self, place: usize, scripts: usize) -> usize
        ensures { result ≡ past_scripts self.now.past.items place scripts }
    {
        let mut at = place;
        let mut left = scripts;
        while left > 0 {
            at = self.past_script(at);
            left -= 1;
        }
        at
    }
}
