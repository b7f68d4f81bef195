//! A goal that is read from its last entry to its first.
ghost use Rattle.std.specs.Prelude.{◌≡◌, ◌<◌, ◌∷◌, ◌++◌, ℕ, Bool, [], List, length, reverse, take, drop, IfOk, OnOk, MatchOption};
ghost use Rattle.merc_base.specs.declared.place.Span.{Span as span_record};
ghost use Rattle.merc_goals.specs.Written.{Written, Conjunction, Parallel, Disjunction};
ghost use Rattle.merc_goals.specs.Entries.{goals_of, with_form, conditional_of, negated, quantified_by};
ghost use Rattle.merc_scopes.specs.Scopes.{free};
ghost use Rattle.merc_answer_variables.specs.AnswerVariables.{begins_with_underscore, answer_variables};
ghost use Rattle.merc_answer_variables.specs.Statuses.{plain_status, unseen};
ghost use Rattle.merc_answer_variables.specs.Reading.{status, chosen, is_chosen, HoldEach, IsRead, AreTaken, IsPlain, IsBeside};
ghost use Rattle.merc_value.specs.Text.{text_at, is_blank};

use crate::terms::{argument_variables, side_variables};
use crate::variables::Variables;
use merc_base::{Name, Names, NoMemory};
use merc_goals::{Entry, Form};
use merc_scopes::Occurrence;
use std::alloc::Global;

/// What the entries that have been read say.
#[derive(Drop)]
pub(crate) struct Reader {
    // The variables of each goal that has been read, those of the first goal last.
    goals: Vec<Variables>,
    // All the occurrences of variables, the first one last.
    trail: Vec<Occurrence>,
}

impl Reader {
    pub(crate) fn new(alloc: Global) -> Reader
        ensures { (blank : ℕ → Bool) → IsRead blank [] result }
    {
        Reader {
            goals: Vec::new(alloc),
            trail: Vec::new(alloc),
        }
    }

    /// Reads the entry before those that have been read.
    pub(crate) fn read(
        &mut self,
        alloc: Global,
        names: &Names,
        entry: &Entry<'_>,
    ) -> Result<(), NoMemory>
        ensures { OnOk result ((goals : List Written) → IsRead (is_blank names.now) goals self.old → IsRead (is_blank names.now) (with_form entry.now.form entry.now.at entry.now.span goals) self.new) }
    {
        match &entry.form {
            Form::Equal(left, right) => {
                let found = side_variables(alloc, names, entry.at, left, right)?;
                self.put(alloc, found)
            }
            Form::Compared(_, left, right) => {
                let found = side_variables(alloc, names, entry.at, left, right)?;
                self.put(alloc, found)
            }
            Form::Called(term) => {
                let found = argument_variables(alloc, names, entry.at, term)?;
                self.put(alloc, found)
            }
            Form::Conjunction(count) => self.join(alloc, *count),
            Form::Parallel(count) => self.join(alloc, *count),
            Form::Disjunction(count) => self.join(alloc, *count),
            Form::Conditional => self.decide(),
            Form::Negated => self.negate(),
            Form::Quantified(variables) => self.bind(variables.as_slice()),
            Form::Truth | Form::Failure | Form::WrongForm | Form::OutsideProfile => {
                self.put(alloc, Vec::new(alloc))
            }
        }
    }

    // Puts a goal without sub-goals, of which these are the variables, before the others.
    fn put(&mut self, alloc: Global, found: Vec<Occurrence>) -> Result<(), NoMemory>
        ensures { OnOk result ((blank : ℕ → Bool) (goals : List Written) (goal : Written) → IsPlain blank goal → found.items ≡ free blank goal → IsRead blank goals self.old → IsRead blank (goal ∷ goals) self.new) }
    {
        let mut all = Variables::new(alloc);
        let answer = put_all(&mut self.trail, found, &mut all);
        push(&mut self.goals, all)?;
        answer
    }

    // Makes one goal of the first goals, so many.
    fn join(&mut self, alloc: Global, count: usize) -> Result<(), NoMemory>
        ensures { OnOk result ((blank : ℕ → Bool) (goals : List Written) (goal : Written) → IsBeside blank (goals_of (take count goals)) goal → IsRead blank goals self.old → IsRead blank (goal ∷ drop count goals) self.new) }
    {
        let mut all = Variables::new(alloc);
        let answer = take_all(&mut self.goals, count, &mut all);
        push(&mut self.goals, all)?;
        answer
    }

    // Makes an if-then-else of the first three goals. Where there are not so many, no goal is left.
    fn decide(&mut self) -> Result<(), NoMemory>
        ensures { OnOk result ((blank : ℕ → Bool) (goals : List Written) (span : span_record) → IsRead blank goals self.old → IsRead blank (conditional_of span goals) self.new) }
    {
        match first_three(&mut self.goals) {
            Some(parts) => {
                let mut whole = parts.condition;
                let answer = whole.decide(parts.then_part, parts.else_part);
                push(&mut self.goals, whole)?;
                answer
            }
            None => {
                self.goals.clear();
                self.trail.clear();
                Ok(())
            }
        }
    }

    // Makes a negation of the first goal.
    fn negate(&mut self) -> Result<(), NoMemory>
        ensures { OnOk result ((blank : ℕ → Bool) (goals : List Written) (span : span_record) → IsRead blank goals self.old → IsRead blank (negated span goals) self.new) }
    {
        if let Some(mut goal) = self.goals.pop() {
            goal.hide();
            self.goals.push(goal)?;
        }
        Ok(())
    }

    // Puts a quantifier before the first goal.
    fn bind(&mut self, variables: &[Name]) -> Result<(), NoMemory>
        ensures { OnOk result ((blank : ℕ → Bool) (goals : List Written) (span : span_record) → IsRead blank goals self.old → IsRead blank (quantified_by variables.now span goals) self.new) }
    {
        if let Some(mut goal) = self.goals.pop() {
            goal.bind(variables);
            self.goals.push(goal)?;
        }
        Ok(())
    }

    /// The answer variables of the only goal that has been read.
    pub(crate) fn answers(self, alloc: Global, names: &Names) -> Result<Vec<Occurrence>, NoMemory>
        ensures { IfOk result (λ found. (goal : Written) → IsRead (is_blank names.now) (goal ∷ []) self → found.items ≡ answer_variables names.now goal) }
    {
        let mut goals = self.goals;
        match goals.pop() {
            Some(variables) => chosen(alloc, names, &variables, self.trail),
            None => Ok(Vec::new(alloc)),
        }
    }
}

// The parts of an if-then-else.
#[derive(Drop)]
struct Parts {
    condition: Variables,
    then_part: Variables,
    else_part: Variables,
}

// The variables of the first three goals, which are taken away.
fn first_three(goals: &mut Vec<Variables>) -> Option<Parts>
    ensures { MatchOption result (length goals.old.items < 3) (λ parts. reverse goals.old.items ≡ parts.condition ∷ parts.then_part ∷ parts.else_part ∷ reverse goals.new.items) }
{
    if goals.len() < 3 {
        return None;
    }
    let condition = goals.pop().unwrap();
    let then_part = goals.pop().unwrap();
    let else_part = goals.pop().unwrap();
    Some(Parts {
        condition,
        then_part,
        else_part,
    })
}

// Adds the variables of the first goals, so many, in order. They are taken away.
fn take_all(goals: &mut Vec<Variables>, count: usize, all: &mut Variables) -> Result<(), NoMemory>
    requires { (name : ℕ) → status all.old name ≡ unseen }
    ensures { OnOk result ((blank : ℕ → Bool) (written : List Written) → HoldEach blank written (reverse goals.old.items) → AreTaken blank count written goals.new.items all.new) }
{
    let mut left = count;
    while left > 0 {
        match goals.pop() {
            Some(next) => all.join(next)?,
            None => return Ok(()),
        }
        left -= 1;
    }
    Ok(())
}

// Puts occurrences before those that stand there, and makes them the variables of a goal that has none yet.
fn put_all(
    trail: &mut Vec<Occurrence>,
    mut found: Vec<Occurrence>,
    all: &mut Variables,
) -> Result<(), NoMemory>
    requires { (name : ℕ) → status all.old name ≡ unseen }
    ensures trail { OnOk result (reverse trail.new.items ≡ found.items ++ reverse trail.old.items) }
    ensures variables { OnOk result ((name : ℕ) → status all.new name ≡ plain_status name found.items (reverse trail.old.items)) }
{
    while let Some(last) = found.pop() {
        all.put(last.name, trail.len())?;
        trail.push(last)?;
    }
    Ok(())
}

// Puts the variables of a goal before the other goals.
fn push(goals: &mut Vec<Variables>, variables: Variables) -> Result<(), NoMemory>
    ensures { OnOk result (goals.new.items ≡ goals.old.items ++ variables ∷ []) }
{
    goals.push(variables)?;
    Ok(())
}

// The answers among occurrences, the last of which is the first.
fn chosen(
    alloc: Global,
    names: &Names,
    variables: &Variables,
    mut trail: Vec<Occurrence>,
) -> Result<Vec<Occurrence>, NoMemory>
    ensures { IfOk result (λ found. found.items ≡ chosen names.now (status variables.now) (reverse trail.items)) }
{
    let mut found = Vec::new(alloc);
    while let Some(first) = trail.pop() {
        if is_chosen(names, variables, &first, trail.len()) {
            found.push(first)?;
        }
    }
    Ok(found)
}

// Whether an occurrence before so many others is an answer.
fn is_chosen(names: &Names, variables: &Variables, one: &Occurrence, place: usize) -> bool
    ensures { result ≡ is_chosen names.now (status variables.now) one.now place }
{
    let is_first = match variables.place(one.name) {
        Some(first) => first == place,
        None => false,
    };
    !begins_with_underscore(names, one.name) && is_first && variables.shows(one.name)
}

// Whether the text of a name begins with `_`.
fn begins_with_underscore(names: &Names, name: Name) -> bool
    ensures { result ≡ begins_with_underscore (text_at names.now name) }
{
    match names.text(name) {
        Some([first, ..]) => *first == b'_',
        _ => false,
    }
}
