//! What the last ticket is given.
ghost use Rattle.std.specs.Prelude.{◌≡◌, ◌<◌, ◌++◌, [], ◌∷◌, length};
ghost use Rattle.merc_join.specs.Join.{most_children};

use merc_script::Outcome;
use std::marker::Model;

/// The greatest number of children of a join.
pub const MOST_CHILDREN: usize = 64;

/// The outcomes of a join's children, in order. They lie in the value itself.
#[derive(Drop)]
pub struct Outcomes {
    places: [Outcome; MOST_CHILDREN],
    count: usize,
}

impl Model for Outcomes {
    ghost use Rattle.std.specs.Prelude.{◌≡◌, ◌≤◌, List, take, length};
    ghost use Rattle.merc_script.specs.declared.outcome.Outcome.{Outcome};
    ghost use Rattle.merc_join.specs.Join.{most_children};

    ghost Value = { List Outcome };

    ghost view = { λ o. take o.count o.places };

    ghost invariant = { λ o. (o.count ≤ most_children) × (length o.places ≡ most_children) };
}

impl Outcomes {
    pub(crate) fn none() -> Outcomes
        ensures { result ≡ [] }
    {
        Outcomes {
            places: [Outcome::Starved; MOST_CHILDREN],
            count: 0,
        }
    }

    pub(crate) fn push(&mut self, outcome: Outcome)
        requires { length self.old < most_children }
        ensures { self.new ≡ self.old ++ outcome ∷ [] }
    {
        self.places[self.count] = outcome;
        self.count += 1;
    }

    /// The outcomes.
    pub fn as_slice(&self) -> &[Outcome]
        ensures { result.now ≡ self.now }
    {
        &self.places[..self.count]
    }
}

/// What the last ticket of a join is given.
#[derive(Drop)]
pub struct Finished<P> {
    /// How each child ended, in order of its number.
    pub outcomes: Outcomes,
    /// The parent.
    pub parent: P,
}
