//! Declared types that are alike but for their type variables.
ghost use Rattle.std.specs.Prelude.{◌≡◌, ◌<◌, true, length, IfOk, OnOk};
ghost use Rattle.std.specs.Option.{IfSome};
ghost use Rattle.merc_type_table.specs.Table.{is_closed, type_at};
ghost use Rattle.merc_type_matching.specs.Matched.{AreMatched};
ghost use Rattle.merc_type_matching.specs.Matching.{AddsPair, IsMet, IsSplitIf, IsVariableIf, MatchesIf};

use crate::linked::LinkedNames;
use merc_base::{Name, NoMemory, Sequence};
use merc_type_table::{TypeNode, TypeNumber, TypeTable};
use std::alloc::Global;

/// A type variable of one type, and one of another that stands where it does.
#[derive(Clone, Copy)]
pub struct NamePair {
    /// The one of the first type.
    pub one: Name,
    /// The one of the other type.
    pub other: Name,
}

/// Two types by their numbers.
#[derive(Clone, Copy, PartialEq, Eq, PartialOrd, Ord)]
pub struct NumberPair {
    /// The first one.
    pub one: TypeNumber,
    /// The other one.
    pub other: TypeNumber,
}

// Pairs in the order in which they came, none of which follows from the ones before.
#[derive(Drop)]
pub(crate) struct IndependentPairs {
    pairs: Sequence<NamePair>,
    // The names of each pair.
    linked: LinkedNames,
}

impl IndependentPairs {
    // Puts a pair behind the others if it does not follow from them.
    fn add(&mut self, one: Name, other: Name) -> Result<(), NoMemory>
        requires { IsMet self.old }
        ensures { OnOk result (AddsPair self.old self.new one other) }
    {
        if self.linked.link(one, other)? {
            self.pairs.push(NamePair { one, other })?;
        }
        Ok(())
    }
}

/// The type variables that stand where the other type has one, in pairs, None where the types differ in more than those. A
/// pair that follows from those before is left out, so that there are fewer pairs than type variables. With n parts of the
/// types, of which p are type variables, this takes time of the order of n + p log² n.
///
/// # Errors
///
/// `NoMemory` where memory was refused.
pub(crate) fn pairs_between(
    alloc: Global,
    table: &TypeTable,
    whole: NumberPair,
) -> Result<Option<Sequence<NamePair>>, NoMemory>
    requires one { whole.one < length table.now }
    requires other { whole.other < length table.now }
    ensures { IfOk result (λ found. IfSome found (λ pairs. AreMatched pairs (type_at table.now whole.one) (type_at table.now whole.other))) }
{
    let mut found = IndependentPairs {
        pairs: Sequence::new(alloc),
        linked: LinkedNames::new(alloc),
    };
    let mut parts = Vec::new(alloc);
    parts.push(whole)?;
    while let Some(part) = parts.pop() {
        if !match_part(table, part.one, part.other, &mut found, &mut parts)? {
            return Ok(None);
        }
    }
    Ok(Some(found.pairs))
}

// Puts the arguments of two types to those that are left, or two type variables to the pairs. False where the types differ.
fn match_part(
    table: &TypeTable,
    one: TypeNumber,
    other: TypeNumber,
    found: &mut IndependentPairs,
    parts: &mut Vec<NumberPair>,
) -> Result<bool, NoMemory>
    requires one { one < length table.now }
    requires other { other < length table.now }
    requires met { IsMet found.old }
    ensures { IfOk result (λ same. MatchesIf table.now same (record { one = one; other = other }) found.old found.new parts.old.items parts.new.items) }
{
    if is_closed_alike(table, one, other) {
        return Ok(true);
    }
    match table.node(one) {
        TypeNode::Variable(name) => match_variable(table, name, other, found),
        TypeNode::With { first, rest } => match_arguments(table, first, rest, other, parts),
        TypeNode::Int | TypeNode::Text | TypeNode::Name(_) => Ok(false),
    }
}

// Whether two types are the same, without type variables.
fn is_closed_alike(table: &TypeTable, one: TypeNumber, other: TypeNumber) -> bool
    requires { one < length table.now }
    ensures { result ≡ true → (one ≡ other) × (is_closed (type_at table.now one) ≡ true) }
{
    one == other && table.is_closed(one)
}

// Puts a type variable and another type to the pairs. False where the type is no type variable.
fn match_variable(
    table: &TypeTable,
    name: Name,
    number: TypeNumber,
    found: &mut IndependentPairs,
) -> Result<bool, NoMemory>
    requires there { number < length table.now }
    requires met { IsMet found.old }
    ensures { IfOk result (λ same. IsVariableIf table.now same name number found.old found.new) }
{
    match table.node(number) {
        TypeNode::Variable(other) => {
            found.add(name, other)?;
            Ok(true)
        }
        _ => Ok(false),
    }
}

// Puts the first argument and the rest of a type, each with that of another type, to those that are left. False where that
// has no argument.
fn match_arguments(
    table: &TypeTable,
    first: TypeNumber,
    rest: TypeNumber,
    number: TypeNumber,
    parts: &mut Vec<NumberPair>,
) -> Result<bool, NoMemory>
    requires { number < length table.now }
    ensures { IfOk result (λ same. IsSplitIf table.now same first rest number parts.old.items parts.new.items) }
{
    match table.node(number) {
        TypeNode::With {
            first: other_first,
            rest: other_rest,
        } => {
            parts.push(NumberPair {
                one: rest,
                other: other_rest,
            })?;
            parts.push(NumberPair {
                one: first,
                other: other_first,
            })?;
            Ok(true)
        }
        _ => Ok(false),
    }
}
