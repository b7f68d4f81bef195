//! The code of goals that hold no others.
ghost use Rattle.std.specs.Prelude.{◌≡◌, ◌∷◌, IfOk, OnOk};
ghost use Rattle.merc_code.specs.declared.instruction.Instruction.{Instruction};
ghost use Rattle.merc_gen.specs.Generated.{basic_code, build_code, split_code};

use crate::suffix::Suffix;
use merc_base::{NoMemory, Sequence};
use merc_code::Instruction;
use merc_goal_tree::{Symbol, Var, Vars};
use merc_graded_tree::{BasicGoal, Procedure};
use std::alloc::Global;

/// Puts the goal's code before the code that follows it.
///
/// # Errors
///
/// `NoMemory` where memory was refused.
pub(crate) fn put_basic(alloc: Global, goal: &BasicGoal, code: &mut Suffix) -> Result<(), NoMemory>
    ensures { OnOk result (code.new ≡ basic_code goal.now code.old) }
{
    match goal {
        BasicGoal::True => Ok(()),
        BasicGoal::Fail => code.put_first(Instruction::Fail),
        BasicGoal::Assign(to, from) => code.put_first(Instruction::Copy(*to, *from)),
        BasicGoal::Test(one, other) => code.put_first(Instruction::Test(*one, *other)),
        BasicGoal::Build(whole, symbol, arguments) => {
            put_build(alloc, *whole, *symbol, arguments, code)
        }
        BasicGoal::Split(whole, symbol, arguments) => {
            put_split(alloc, *whole, *symbol, arguments, code)
        }
        BasicGoal::Arithmetic(operation, result, one, other) => {
            code.put_first(Instruction::Arithmetic(*operation, *result, *one, *other))
        }
        BasicGoal::Compare(comparison, one, other) => {
            code.put_first(Instruction::Compare(*comparison, *one, *other))
        }
        BasicGoal::Raise(text) => code.put_first(Instruction::Raise(*text)),
        BasicGoal::Call(procedure, arguments) => put_call(alloc, *procedure, arguments, code),
        BasicGoal::Wait(variable, _) => code.put_first(Instruction::Wait(*variable)),
        BasicGoal::Signal(variable, _) => code.put_first(Instruction::Signal(*variable)),
    }
}

fn put_call(
    alloc: Global,
    procedure: Procedure,
    arguments: &Vars,
    code: &mut Suffix,
) -> Result<(), NoMemory>
    ensures { OnOk result (code.new ≡ Instruction.Call procedure arguments.now ∷ code.old) }
{
    code.put_first(Instruction::Call(procedure, arguments.try_clone(alloc)?))
}

fn put_build(
    alloc: Global,
    whole: Var,
    symbol: Symbol,
    arguments: &Vars,
    code: &mut Suffix,
) -> Result<(), NoMemory>
    ensures { OnOk result (code.new ≡ build_code whole symbol arguments.now ∷ code.old) }
{
    code.put_first(build(alloc, whole, symbol, arguments)?)
}

fn build(
    alloc: Global,
    whole: Var,
    symbol: Symbol,
    arguments: &Vars,
) -> Result<Instruction, NoMemory>
    ensures { IfOk result (λ instruction. instruction ≡ build_code whole symbol arguments.now) }
{
    if !arguments.as_slice().is_empty() {
        return Ok(Instruction::Build(whole, symbol, arguments.try_clone(alloc)?));
    }
    Ok(match symbol {
        Symbol::Integer(number) => Instruction::Integer(whole, number),
        Symbol::Text(text) => Instruction::Text(whole, text),
        Symbol::Constructor(_, _) => Instruction::Build(whole, symbol, Sequence::new(alloc)),
    })
}

fn put_split(
    alloc: Global,
    whole: Var,
    symbol: Symbol,
    arguments: &Vars,
    code: &mut Suffix,
) -> Result<(), NoMemory>
    ensures { OnOk result (code.new ≡ split_code whole symbol arguments.now ∷ code.old) }
{
    code.put_first(split(alloc, whole, symbol, arguments)?)
}

fn split(
    alloc: Global,
    whole: Var,
    symbol: Symbol,
    arguments: &Vars,
) -> Result<Instruction, NoMemory>
    ensures { IfOk result (λ instruction. instruction ≡ split_code whole symbol arguments.now) }
{
    if !arguments.as_slice().is_empty() {
        return Ok(Instruction::Split(whole, symbol, arguments.try_clone(alloc)?));
    }
    Ok(match symbol {
        Symbol::Integer(_) | Symbol::Text(_) => Instruction::Literal(whole, symbol),
        Symbol::Constructor(_, _) => Instruction::Split(whole, symbol, Sequence::new(alloc)),
    })
}
