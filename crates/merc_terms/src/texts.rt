//! Reads the items of a text, and the term of a goal's text.
ghost use Rattle.std.specs.Prelude.{◌≡◌, ◌≤◌, ◌++◌, ℕ, List, length, IfOk, IfErr};
ghost use Rattle.merc_terms.specs.Items.{IsRefusal};
ghost use Rattle.merc_terms.specs.Texts.{ReadsItems, RefusesText, ReadsGoal, RefusesGoalText};

use crate::items::{read_goal, read_items};
use merc_base::{Detail, Fault, LimitName, Names, Place, Refusal, Rule};
use merc_tokens::tokens;
use merc_tree::{Term, Terms};
use std::alloc::Global;

/// The most bytes that a goal's text may have.
pub const GOAL_LIMIT: usize = 65_536;

/// The terms of the items that a text is, in order. Names that the text spells are added to the table; where it is
/// refused, the table may hold further names too. The text has at most 300,000,000 bytes.
///
/// # Errors
///
/// `Refused` says the first fault of the text: that of its tokens, as [`tokens`] says, and of a text that has tokens
/// that of its items, as [`read_items`] says. `NoMemory` says that memory was refused.
pub fn read_text(alloc: Global, text: &[u8], names: &mut Names) -> Result<Terms, Fault>
    requires { length text.now ≤ 300000000 }
    ensures found { IfOk result (λ terms. ReadsItems names.old names.new text.now terms) }
    ensures refused { IfErr result (λ fault. IsRefusal (RefusesText names.old text.now) fault) }
    ensures grows { (more : List (List ℕ)) × (names.new ≡ names.old ++ more) }
{
    let tokens = tokens(alloc, text, names)?;
    let terms = read_items(alloc, &tokens);
    // (a call, here and below, since it costs much to prove what is dropped)
    drop(tokens);
    terms
}

/// The term that a goal's text is. Names that the text spells are added to the table; where it is refused, the table
/// may hold further names too.
///
/// # Errors
///
/// `Refused` says the first fault of the text: rule 16 (`GoalText`) at byte 0 of line 1 where it has more than
/// 65,536 bytes, else that of its tokens, as [`tokens`] says, and of a text that has tokens that of the term, as
/// [`read_goal`] says. `NoMemory` says that memory was refused.
pub fn read_goal_text(alloc: Global, text: &[u8], names: &mut Names) -> Result<Term, Fault>
    ensures found { IfOk result (λ term. ReadsGoal names.old names.new text.now term) }
    ensures refused { IfErr result (λ fault. IsRefusal (RefusesGoalText names.old text.now) fault) }
    ensures grows { (more : List (List ℕ)) × (names.new ≡ names.old ++ more) }
{
    if text.len() > GOAL_LIMIT {
        return Err(Fault::Refused(Refusal {
            rule: Rule::LimitPassed,
            place: Place { byte: 0, line: 1 },
            detail: Detail::Limit(LimitName::GoalText),
        }));
    }
    let tokens = tokens(alloc, text, names)?;
    let term = read_goal(alloc, &tokens);
    drop(tokens);
    term
}
