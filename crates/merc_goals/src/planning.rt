//! What is to be done to write down the entries of a goal, from its last entry to its first.
ghost use Rattle.std.specs.Prelude.{◌≡◌, ◌+◌, [], ◌∷◌, ◌++◌, map, OnOk};
ghost use Rattle.merc_tree.specs.Term.{span_of};
ghost use Rattle.merc_tree.specs.Shape.{shape_of};
ghost use Rattle.merc_goals.specs.Numbers.{Fits};
ghost use Rattle.merc_goals.specs.Roles.{role_of};
ghost use Rattle.merc_goals.specs.Plans.{plan, name_plan, unapplied_plan, one_plan, two_plan, chain_form, chain_plan, alternatives_plan, else_plan, conditional_plan, some_plan, all_plan, call_plan, plain_plan};

use crate::goal::Form;
use crate::links::{Both, chain, condition_sides, listed_variables, sides};
use crate::numbers::{Numbered, left_of, right_of};
use crate::roles::{ChainKind, Role, role_of};
use merc_base::{Name, NoMemory, Span};
use merc_operands::{Operands, operands_of};
use merc_tree::{Shape, TermRef};
use std::alloc::Global;

// One thing to do. The last of a list of tasks comes first.
#[derive(Drop)]
pub(crate) enum Task<'a> {
    // to plan the goal that a term is
    Read(Numbered<'a>),
    // to put an entry behind those of its sub-goals, which are all from this index on
    Put {
        form: Form<'a>,
        at: usize,
        span: Span,
        start: usize,
    },
}

// Plans the goal that a term is.
pub(crate) fn plan<'a>(
    alloc: Global,
    tasks: &mut Vec<Task<'a>>,
    whole: &Numbered<'a>,
    start: usize,
) -> Result<(), NoMemory>
    ensures { OnOk result (tasks.new.items ≡ tasks.old.items ++ plan start whole.now) }
{
    match operands_of(&whole.term) {
        Operands::Zero(name) => plan_name(tasks, whole, name, start),
        Operands::One(name, only) => plan_one(tasks, whole, name, only, start),
        Operands::Two(name, left, right) => {
            let right = right_of(whole.at, &left, right);
            let left = left_of(whole.at, left);
            plan_two(alloc, tasks, whole, name, Both { left, right }, start)
        }
        Operands::Many(_) | Operands::Qualified => put_call(tasks, whole, start),
        Operands::NotApplied => plan_unapplied(tasks, whole, start),
    }
}

// A name alone.
fn plan_name<'a>(
    tasks: &mut Vec<Task<'a>>,
    whole: &Numbered<'a>,
    name: Name,
    start: usize,
) -> Result<(), NoMemory>
    ensures { OnOk result (tasks.new.items ≡ tasks.old.items ++ name_plan start whole.now name) }
{
    if name == Name::TRUE {
        put_plain(tasks, Form::Truth, whole.term.span(), start)
    } else if name == Name::FAIL || name == Name::FALSE {
        put_plain(tasks, Form::Failure, whole.term.span(), start)
    } else {
        put_call(tasks, whole, start)
    }
}

// A variable or a literal.
fn plan_unapplied<'a>(
    tasks: &mut Vec<Task<'a>>,
    whole: &Numbered<'a>,
    start: usize,
) -> Result<(), NoMemory>
    ensures { OnOk result (tasks.new.items ≡ tasks.old.items ++ unapplied_plan start (shape_of whole.now.term) (span_of whole.now.term)) }
{
    let span = whole.term.span();
    match whole.term.shape() {
        Shape::Variable(_) => put_plain(tasks, Form::OutsideProfile, span, start),
        _ => put_plain(tasks, Form::WrongForm, span, start),
    }
}

// A name with one argument.
fn plan_one<'a>(
    tasks: &mut Vec<Task<'a>>,
    whole: &Numbered<'a>,
    name: Name,
    only: TermRef<'a>,
    start: usize,
) -> Result<(), NoMemory>
    requires { Fits (whole.now.at + 2) only }
    ensures { OnOk result (tasks.new.items ≡ tasks.old.items ++ one_plan start whole.now name only.entry) }
{
    if name == Name::NOT || name == Name::NOT_PROVABLE {
        let goal = left_of(whole.at, only);
        put_plain(tasks, Form::Negated, whole.term.span(), start)?;
        read(tasks, goal)
    } else if name == Name::IF {
        put_plain(tasks, Form::WrongForm, whole.term.span(), start)
    } else {
        put_call(tasks, whole, start)
    }
}

// A name with two arguments.
fn plan_two<'a>(
    alloc: Global,
    tasks: &mut Vec<Task<'a>>,
    whole: &Numbered<'a>,
    name: Name,
    sides: Both<'a>,
    start: usize,
) -> Result<(), NoMemory>
    ensures { OnOk result (tasks.new.items ≡ tasks.old.items ++ two_plan start whole.now (role_of name) name sides.entry) }
{
    let span = whole.term.span();
    match role_of(name) {
        Role::Conjunction => plan_chain(alloc, tasks, ChainKind::Conjuncts, whole, start),
        Role::Parallel => plan_chain(alloc, tasks, ChainKind::ParallelConjuncts, whole, start),
        Role::Disjunction => plan_alternatives(alloc, tasks, whole, sides, start),
        Role::Else => plan_else(tasks, sides, span, start),
        Role::Misplaced => put_plain(tasks, Form::WrongForm, span, start),
        Role::Existential => plan_some(alloc, tasks, sides, span, start),
        Role::Universal => plan_all(alloc, tasks, sides, span, start),
        Role::Equation => {
            let form = Form::Equal(sides.left.term, sides.right.term);
            put(tasks, form, whole.at, span, start)
        }
        Role::Inequation => {
            put_plain(tasks, Form::Negated, span, start)?;
            let form = Form::Equal(sides.left.term, sides.right.term);
            put(tasks, form, whole.at, span, start)
        }
        Role::Comparison => {
            let form = Form::Compared(name, sides.left.term, sides.right.term);
            put(tasks, form, whole.at, span, start)
        }
        Role::Unsupported => put_plain(tasks, Form::OutsideProfile, span, start),
        Role::Call => put_call(tasks, whole, start),
    }
}

// A chain of `,` `&` or `;`, which is one list.
fn plan_chain<'a>(
    alloc: Global,
    tasks: &mut Vec<Task<'a>>,
    kind: ChainKind,
    whole: &Numbered<'a>,
    start: usize,
) -> Result<(), NoMemory>
    ensures { OnOk result (tasks.new.items ≡ tasks.old.items ++ chain_plan start kind whole.now) }
{
    let members = chain(alloc, kind, whole)?;
    let form = chain_form(kind, members.len());
    put_plain(tasks, form, whole.term.span(), start)?;
    read_all(tasks, &members)
}

// A chain with so many members.
fn chain_form<'a>(kind: ChainKind, members: usize) -> Form<'a>
    ensures { result ≡ chain_form kind members }
{
    match kind {
        ChainKind::Conjuncts => Form::Conjunction(members),
        ChainKind::ParallelConjuncts => Form::Parallel(members),
        ChainKind::Disjuncts => Form::Disjunction(members),
    }
}

// `C -> T ; E`, or `A ; B`.
fn plan_alternatives<'a>(
    alloc: Global,
    tasks: &mut Vec<Task<'a>>,
    whole: &Numbered<'a>,
    both: Both<'a>,
    start: usize,
) -> Result<(), NoMemory>
    ensures { OnOk result (tasks.new.items ≡ tasks.old.items ++ alternatives_plan start whole.now both.entry) }
{
    match sides(Name::ARROW, &both.left) {
        Some(parts) => { plan_conditional(tasks, parts, both.right, whole.term.span(), start) }
        None => plan_chain(alloc, tasks, ChainKind::Disjuncts, whole, start),
    }
}

// `if C then T else E`, where the first side is the part before the `else`.
fn plan_else<'a>(
    tasks: &mut Vec<Task<'a>>,
    both: Both<'a>,
    span: Span,
    start: usize,
) -> Result<(), NoMemory>
    ensures { OnOk result (tasks.new.items ≡ tasks.old.items ++ else_plan start both.entry span) }
{
    match condition_sides(&both.left) {
        Some(parts) => plan_conditional(tasks, parts, both.right, span, start),
        None => put_plain(tasks, Form::WrongForm, span, start),
    }
}

// A condition with its then part, and an else part.
fn plan_conditional<'a>(
    tasks: &mut Vec<Task<'a>>,
    parts: Both<'a>,
    else_part: Numbered<'a>,
    span: Span,
    start: usize,
) -> Result<(), NoMemory>
    ensures { OnOk result (tasks.new.items ≡ tasks.old.items ++ conditional_plan start parts.entry else_part.entry span) }
{
    put_plain(tasks, Form::Conditional, span, start)?;
    read(tasks, parts.left)?;
    read(tasks, parts.right)?;
    read(tasks, else_part)
}

// `some [X, ..] G`.
fn plan_some<'a>(
    alloc: Global,
    tasks: &mut Vec<Task<'a>>,
    both: Both<'a>,
    span: Span,
    start: usize,
) -> Result<(), NoMemory>
    ensures { OnOk result (tasks.new.items ≡ tasks.old.items ++ some_plan start both.entry span) }
{
    match listed_variables(alloc, &both.left.term)? {
        Some(variables) => {
            put_plain(tasks, Form::Quantified(variables), span, start)?;
            read(tasks, both.right)
        }
        None => put_plain(tasks, Form::WrongForm, span, start),
    }
}

// `all [X, ..] G`, which is `not some [X, ..] not G`.
fn plan_all<'a>(
    alloc: Global,
    tasks: &mut Vec<Task<'a>>,
    both: Both<'a>,
    span: Span,
    start: usize,
) -> Result<(), NoMemory>
    ensures { OnOk result (tasks.new.items ≡ tasks.old.items ++ all_plan start both.entry span) }
{
    match listed_variables(alloc, &both.left.term)? {
        Some(variables) => {
            put_plain(tasks, Form::Negated, span, start)?;
            put_plain(tasks, Form::Quantified(variables), span, start)?;
            put_plain(tasks, Form::Negated, span, start)?;
            read(tasks, both.right)
        }
        None => put_plain(tasks, Form::WrongForm, span, start),
    }
}

// A call of what the term names.
fn put_call<'a>(
    tasks: &mut Vec<Task<'a>>,
    whole: &Numbered<'a>,
    start: usize,
) -> Result<(), NoMemory>
    ensures { OnOk result (tasks.new.items ≡ tasks.old.items ++ call_plan start whole.now) }
{
    let form = Form::Called(whole.term.copy());
    put(tasks, form, whole.at, whole.term.span(), start)
}

// An entry of a form that needs no number.
fn put_plain<'a>(
    tasks: &mut Vec<Task<'a>>,
    form: Form<'a>,
    span: Span,
    start: usize,
) -> Result<(), NoMemory>
    ensures { OnOk result (tasks.new.items ≡ tasks.old.items ++ plain_plan start form.entry span) }
{
    put(tasks, form, 0, span, start)
}

fn put<'a>(
    tasks: &mut Vec<Task<'a>>,
    form: Form<'a>,
    at: usize,
    span: Span,
    start: usize,
) -> Result<(), NoMemory>
    ensures { OnOk result (tasks.new.items ≡ tasks.old.items ++ Task.Put form.entry at span start ∷ []) }
{
    tasks.push(Task::Put {
        form,
        at,
        span,
        start,
    })?;
    Ok(())
}

fn read<'a>(tasks: &mut Vec<Task<'a>>, numbered: Numbered<'a>) -> Result<(), NoMemory>
    ensures { OnOk result (tasks.new.items ≡ tasks.old.items ++ Task.Read numbered.entry ∷ []) }
{
    tasks.push(Task::Read(numbered))?;
    Ok(())
}

// To plan all of these, the last one first.
fn read_all<'a>(tasks: &mut Vec<Task<'a>>, members: &[Numbered<'a>]) -> Result<(), NoMemory>
    ensures { OnOk result (tasks.new.items ≡ tasks.old.items ++ map (λ n. Task.Read n) members.now) }
{
    for member in members {
        tasks.push(Task::Read(member.copy()))?;
    }
    Ok(())
}
