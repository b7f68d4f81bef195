//! Determinism categories: how often a goal can succeed.
ghost use Rattle.std.specs.Prelude.{◌≡◌, Some};
ghost use Rattle.merc_base.specs.Category.{can_fail_of, most_of, category_name};

use std::fmt;

/// A determinism category.
#[derive(Clone, Copy)]
pub enum Category {
    /// Exactly one solution.
    Det,
    /// At most one solution.
    Semidet,
    /// At least one solution.
    Multi,
    /// Any number of solutions.
    Nondet,
    /// Never ends with success or failure: it raises an exception or goes on for ever.
    Erroneous,
    /// No solution.
    Failure,
}

/// The most solutions that a category allows.
#[derive(Clone, Copy)]
pub enum Most {
    Zero,
    One,
    Many,
}

impl Category {
    /// Whether a goal of this category may fail.
    pub fn can_fail(&self) -> bool
        ensures { result ≡ can_fail_of self.now }
    {
        match self {
            Category::Semidet | Category::Nondet | Category::Failure => true,
            Category::Det | Category::Multi | Category::Erroneous => false,
        }
    }

    /// The most solutions that a goal of this category may have.
    pub fn most(&self) -> Most
        ensures { result ≡ most_of self.now }
    {
        match self {
            Category::Erroneous | Category::Failure => Most::Zero,
            Category::Det | Category::Semidet => Most::One,
            Category::Multi | Category::Nondet => Most::Many,
        }
    }

    /// The word for this category in a program.
    pub fn as_str(&self) -> &'static str
        ensures { result.now ≡ category_name self.now }
    {
        match self {
            Category::Det => "det",
            Category::Semidet => "semidet",
            Category::Multi => "multi",
            Category::Nondet => "nondet",
            Category::Erroneous => "erroneous",
            Category::Failure => "failure",
        }
    }
}

/// Writes the word for the category.
impl fmt::Display for Category {
    ghost output = { λ category. Some (category_name category) };

    fn fmt<W: fmt::Write>(&self, f: &mut fmt::Formatter<W>) -> fmt::Result {
        f.write_str(self.as_str())
    }
}
