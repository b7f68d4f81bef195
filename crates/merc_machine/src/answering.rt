//! The answer at which a machine stands.
ghost use Rattle.std.specs.Prelude.{◌≡◌, length, map, unwrap_or, slice_get, IfOk};
ghost use Rattle.std.specs.List.{All};
ghost use Rattle.merc_meaning.specs.Trace.{Env};
ghost use Rattle.merc_value.specs.Block.{IsBelow, no_value, root_values, value_of};
ghost use Rattle.merc_store.specs.Fitting.{slot_value};
ghost use Rattle.merc_machine.specs.Running.{AreAnswerVariables, HasAnswered};

use crate::machine::{Machine, Phase};
use merc_base::{Name, NoMemory};
use merc_goal_tree::Var;
use merc_load::Op;
use merc_segments::freeze;
use merc_value::{Block, Word};
use std::alloc::Global;

impl<'a> Machine<'a> {
    /// The values of the answer at which the machine stands, as the roots of a block; a variable without a value, which
    /// no answer variable is, has the empty list.
    ///
    /// # Errors
    ///
    /// `NoMemory` where memory was refused.
    pub fn answer(&self, alloc: Global) -> Result<Block, NoMemory>
        ensures { IfOk result (λ block. (values : Env) → HasAnswered self.now values → root_values block ≡ map (λ value. unwrap_or value no_value) values) }
    {
        let words = self.answer_words(alloc)?;
        freeze(alloc, self.store.heap(), &words)
    }

    // The words of the answer.
    fn answer_words(&self, alloc: Global) -> Result<Vec<Word>, NoMemory>
        ensures below { IfOk result (λ words. All (IsBelow (length self.now.store.cells)) words.items) }
        ensures words { IfOk result (λ words. (values : Env) → HasAnswered self.now values → map (value_of self.now.store.cells) words.items ≡ map (λ value. unwrap_or value no_value) values) }
    {
        let mut words = Vec::new(alloc);
        for variable in self.answer_variables() {
            words.push(self.word(*variable))?;
        }
        Ok(words)
    }

    // The variables of the answer; none where the machine stands at no answer.
    fn answer_variables(&self) -> &[Var]
        ensures { AreAnswerVariables self.now result.now }
    {
        match self.phase {
            Phase::Answered(place) => match self.program.op(place) {
                Some(Op::Answer(variables)) => variables.as_slice(),
                _ => &[],
            },
            Phase::Running(_) | Phase::GoingBack => &[],
        }
    }

    // The word of a variable; that of the empty list where it has no value.
    fn word(&self, variable: Var) -> Word
        ensures below { IsBelow (length self.now.store.cells) result }
        ensures value { value_of self.now.store.cells result ≡ unwrap_or (slot_value self.now.store.cells (slice_get self.now.store.stacks.current variable)) no_value }
    {
        match self.store.slot_if_there(variable) {
            Some(slot) => slot.word().unwrap_or(Word::Atom(Name::NIL)),
            None => Word::Atom(Name::NIL),
        }
    }
}
