//! What is known of types while the parts of a goal are gone through.
ghost use Rattle.std.specs.Prelude.{◌≡◌, ◌<◌, ◌≤◌, true, List, length, slice_get, IfOk, OnOk, None, Some};
ghost use Rattle.std.specs.Option.{IfSome};
ghost use Rattle.std.specs.Ordering.{nat_cmp};
ghost use Rattle.std.specs.BTreeMap.{get};
ghost use Rattle.merc_tree.specs.Types.{TypeExpr, IntType, TextType, TypeApplication, replaced, types_of};
ghost use Rattle.merc_type_table.specs.Table.{is_closed, made, type_at, IsBefore, IsComplete};
ghost use Rattle.merc_type_graph.specs.Changes.{AllWithin, Decides};
ghost use Rattle.merc_type_matching.specs.Kept.{AreKept};
ghost use Rattle.merc_type_matching.specs.Matched.{AreMatched};
ghost use Rattle.merc_type_check.specs.Progress.{begun, AllStand, Fits, Instances, IsFresh, IsNewIf, IsSound, Keeps, Nothing, Offers, Places, Stands, Step, Takes, Types, Yields};

use crate::typings::Typing;
use merc_base::{Name, NoMemory, Sequence};
use merc_goal_tree::Var;
use merc_type_graph::{Place, TypeGraph};
use merc_type_matching::{ListedTypes, Matchings, NamePair, NumberPair, UsedVariable};
use merc_type_table::{TypeNode, TypeNumber, TypeTable};
use std::alloc::Global;
use std::collections::BTreeMap;

/// A declared type, and the number of the part of the goal that uses it: its type variables stand for what they do there.
#[derive(Clone, Copy)]
pub(crate) struct UsedType {
    pub(crate) number: TypeNumber,
    pub(crate) user: usize,
}

/// What is known of types: equations between the types at places, and the places of variables and type variables.
#[derive(Drop)]
pub(crate) struct Checker<'a> {
    // The declared types of the module.
    table: &'a TypeTable,
    listed: &'a ListedTypes,
    graph: TypeGraph<'a>,
    // The places of the types of variables that were met.
    variables: BTreeMap<Var, Place>,
    // The types of those that were met once, or with one declared type: they have no place.
    waiting: BTreeMap<Var, UsedType>,
    // Whether variables may go without a place.
    may_wait: bool,
    // The places of what type variables stand for, where they were needed.
    instances: BTreeMap<UsedVariable, Place>,
    // What was found where declared types were matched.
    matchings: Matchings,
    // The number of the part of the goal that is gone through, counted from 1.
    part: usize,
}

impl<'a> Checker<'a> {
    /// Nothing is known. It takes no memory.
    pub(crate) fn new(
        alloc: Global,
        listed: &'a ListedTypes,
        may_wait: bool,
        matchings: Matchings,
    ) -> Checker<'a>
        requires { AreKept listed.now matchings }
        ensures sound { IsSound result }
        ensures free { (places types : Types) (instance : Instances) → Fits result places types instance }
        ensures table { result.graph.table ≡ listed.now }
        ensures mode { result.may_wait ≡ may_wait }
        ensures first { result.part ≡ 0 }
    {
        let table = listed.types();
        Checker {
            table,
            listed,
            graph: TypeGraph::new(alloc, table),
            variables: BTreeMap::new(alloc),
            waiting: BTreeMap::new(alloc),
            may_wait,
            instances: BTreeMap::new(alloc),
            matchings,
            part: 0,
        }
    }

    /// Begins with a part of the goal. Type variables of the declarations that it uses may stand for anything.
    pub(crate) fn begin(&mut self, number: usize)
        requires { self.old.part < number }
        ensures same { self.new ≡ begun self.old number }
        ensures fresh { IsSound self.old → IsFresh self.new }
    {
        self.part = number;
    }

    /// The number of the part of the goal that is gone through.
    pub(crate) fn part_number(&self) -> usize
        ensures { result ≡ self.now.part }
    {
        self.part
    }

    /// Whether a variable was not met. It is said only where variables may go without a place.
    pub(crate) fn is_new(&self, variable: Var) -> bool
        ensures { IsNewIf result self.now variable }
    {
        self.may_wait
            && !self.variables.contains_key(&variable)
            && !self.waiting.contains_key(&variable)
    }

    /// The part of the goal that gave a variable the declared type of this number, where it has no place.
    pub(crate) fn giver(&self, variable: Var, number: TypeNumber) -> Option<usize>
        ensures { IfSome result (λ user. get nat_cmp self.now.waiting variable ≡ Some (record { number = number; user = user })) }
    {
        match self.waiting.get(&variable).copied() {
            Some(used) => {
                if used.number == number {
                    Some(used.user)
                } else {
                    None
                }
            }
            None => None,
        }
    }

    /// Gives a new variable a declared type, and no place.
    pub(crate) fn wait(&mut self, variable: Var, used: UsedType) -> Result<(), NoMemory>
        requires sound { IsSound self.old }
        requires new { IsNewIf true self.old variable }
        requires there { used.number < length self.old.graph.table }
        requires begun { used.user ≤ self.old.part }
        ensures { OnOk result (Step self.old self.new (λ types instance. types variable ≡ replaced (instance used.user) (type_at self.old.graph.table used.number))) }
    {
        self.waiting.insert(variable, used)?;
        Ok(())
    }

    /// The declared type that a variable waits with.
    pub(crate) fn waits_with(&self, variable: Var) -> Option<UsedType>
        ensures { result ≡ get nat_cmp self.now.waiting variable }
    {
        self.waiting.get(&variable).copied()
    }

    /// The type variables of a declared type, each once and beside itself, None where they were not listed.
    pub(crate) fn variables_of(&self, number: TypeNumber) -> Option<&'a [NamePair]>
        requires { IsSound self.now }
        ensures { IfSome result (λ pairs. AreMatched pairs.now (type_at self.now.graph.table number) (type_at self.now.graph.table number)) }
    {
        self.listed.variables_of(number)
    }

    /// Pairs of type variables that stand at one place in two declared types, but for pairs that follow from others. None
    /// where the types differ in more than type variables. The pairs are to be given back: then they are at hand the next
    /// time.
    pub(crate) fn take_matching(
        &mut self,
        alloc: Global,
        one: TypeNumber,
        other: TypeNumber,
    ) -> Result<Option<Sequence<NamePair>>, NoMemory>
        requires sound { IsSound self.old }
        requires one { one < length self.old.graph.table }
        requires other { other < length self.old.graph.table }
        ensures same { OnOk result (Step self.old self.new Nothing) }
        ensures matched { IfOk result (λ found. IfSome found (λ pairs. AreMatched pairs (type_at self.old.graph.table one) (type_at self.old.graph.table other))) }
    {
        self.matchings
            .take(alloc, self.table, NumberPair { one, other })
    }

    /// Keeps pairs of type variables of two declared types.
    pub(crate) fn keep_matching(
        &mut self,
        one: TypeNumber,
        other: TypeNumber,
        pairs: Sequence<NamePair>,
    ) -> Result<(), NoMemory>
        requires sound { IsSound self.old }
        requires matched { AreMatched pairs (type_at self.old.graph.table one) (type_at self.old.graph.table other) }
        ensures { OnOk result (Step self.old self.new Nothing) }
    {
        self.matchings.keep(NumberPair { one, other }, pairs)?;
        Ok(())
    }

    /// The place of a variable's type.
    pub(crate) fn variable(&mut self, alloc: Global, variable: Var) -> Result<Place, NoMemory>
        requires { IsSound self.old }
        ensures { IfOk result (λ place. Places self.old self.new place (λ types instance. types variable)) }
    {
        if let Some(place) = self.variables.get(&variable).copied() {
            return Ok(place);
        }
        let place = self.new_place(alloc, variable)?;
        self.variables.insert(variable, place)?;
        Ok(place)
    }

    // A place for the type of a variable that has none, which waits no longer.
    fn new_place(&mut self, alloc: Global, variable: Var) -> Result<Place, NoMemory>
        requires sound { IsSound self.old }
        requires none { get nat_cmp self.old.variables variable ≡ None }
        ensures { IfOk result (λ place. Offers self.old self.new variable place) }
    {
        match self.waiting.remove(&variable) {
            Some(used) => self.declared(alloc, used.user, used.number),
            None => Ok(self.graph.add_unknown()?),
        }
    }

    /// The place of what a type variable stands for.
    pub(crate) fn type_variable(&mut self, user: usize, name: Name) -> Result<Place, NoMemory>
        requires sound { IsSound self.old }
        requires begun { user ≤ self.old.part }
        ensures placed { IfOk result (λ place. Places self.old self.new place (λ types instance. instance user name)) }
        ensures kept { OnOk result (Keeps self.old self.new) }
    {
        let variable = UsedVariable::new(user, name);
        match self.instances.get(&variable).copied() {
            Some(place) => Ok(place),
            None => {
                let place = self.graph.add_unknown()?;
                self.instances.insert(variable, place)?;
                Ok(place)
            }
        }
    }

    /// Asks that a type variable stands for the type at a place. False where it cannot.
    pub(crate) fn stands_for(
        &mut self,
        user: usize,
        name: Name,
        place: Place,
    ) -> Result<bool, NoMemory>
        requires sound { IsSound self.old }
        requires begun { user ≤ self.old.part }
        requires there { place < length self.old.graph.entries }
        ensures { IfOk result (λ done. (Meant : Types → Instances → TypeExpr) → Stands self.old place Meant → Takes done self.old self.new (λ types instance. Meant types instance ≡ instance user name)) }
    {
        let variable = UsedVariable::new(user, name);
        match self.instances.get(&variable).copied() {
            Some(other) => self.make_equal(place, other),
            None => {
                self.instances.insert(variable, place)?;
                Ok(true)
            }
        }
    }

    /// The number of the type `int`.
    pub(crate) fn int(&self) -> TypeNumber
        requires { IsSound self.now }
        ensures { slice_get self.now.graph.table result ≡ Some IntType }
    {
        self.table.int()
    }

    /// The number of the type `string`.
    pub(crate) fn text(&self) -> TypeNumber
        requires { IsSound self.now }
        ensures { slice_get self.now.graph.table result ≡ Some TextType }
    {
        self.table.text()
    }

    /// Whether a declared type has no type variables.
    pub(crate) fn is_closed(&self, number: TypeNumber) -> bool
        requires sound { IsSound self.now }
        requires declared { number < length self.now.graph.table }
        ensures { result ≡ is_closed (type_at self.now.graph.table number) }
    {
        self.table.is_closed(number)
    }

    /// What a declared type is made of.
    pub(crate) fn node(&self, number: TypeNumber) -> TypeNode
        requires sound { IsSound self.now }
        requires declared { number < length self.now.graph.table }
        ensures is { type_at self.now.graph.table number ≡ made self.now.graph.table result }
        ensures before { IsBefore number result }
        ensures complete { IsComplete self.now.graph.table result }
    {
        self.table.node(number)
    }

    /// A place for a declared type, in which type variables stand for themselves.
    pub(crate) fn whole_place(&mut self, number: TypeNumber) -> Result<Place, NoMemory>
        requires sound { IsSound self.old }
        requires declared { number < length self.old.graph.table }
        ensures placed { IfOk result (λ place. Places self.old self.new place (λ types instance. type_at self.old.graph.table number)) }
        ensures kept { OnOk result (Keeps self.old self.new) }
    {
        self.graph.add_whole(number)
    }

    /// A place for a type's name over the types at these places.
    pub(crate) fn applied(&mut self, name: Name, arguments: &[Place]) -> Result<Place, NoMemory>
        requires sound { IsSound self.old }
        requires within { AllWithin (length self.old.graph.entries) arguments.now }
        ensures placed { IfOk result (λ place. (Meant : Types → Instances → List TypeExpr) → AllStand self.old arguments.now Meant → Places self.old self.new place (λ types instance. TypeApplication name (types_of (Meant types instance)))) }
        ensures kept { OnOk result (Keeps self.old self.new) }
    {
        self.graph.add_applied(name, arguments)
    }

    /// Makes the types at two places equal. False where they cannot be.
    pub(crate) fn make_equal(&mut self, one: Place, other: Place) -> Result<bool, NoMemory>
        requires sound { IsSound self.old }
        requires one { one < length self.old.graph.entries }
        requires other { other < length self.old.graph.entries }
        ensures { IfOk result (λ done. (One Other : Types → Instances → TypeExpr) → Stands self.old one One → Stands self.old other Other → Takes done self.old self.new (λ types instance. One types instance ≡ Other types instance)) }
    {
        self.graph.make_equal(one, other)
    }

    /// Makes the type at a place a declared type, in which type variables stand for themselves. False where it cannot be.
    pub(crate) fn make_whole(&mut self, place: Place, whole: TypeNumber) -> Result<bool, NoMemory>
        requires sound { IsSound self.old }
        requires there { place < length self.old.graph.entries }
        requires declared { whole < length self.old.graph.table }
        ensures { IfOk result (λ done. (Meant : Types → Instances → TypeExpr) → Stands self.old place Meant → Takes done self.old self.new (λ types instance. Meant types instance ≡ type_at self.old.graph.table whole)) }
    {
        self.graph.make_whole(place, whole)
    }

    /// Whether types solve the equations.
    pub(crate) fn is_solvable(&self, alloc: Global) -> Result<bool, NoMemory>
        ensures { IfOk result (λ solvable. Decides solvable self.now.graph.entries) }
    {
        let solvable = self.graph.is_solvable(alloc)?;
        Ok(solvable)
    }

    /// What was found where declared types were matched.
    pub(crate) fn into_matchings(self) -> Matchings
        ensures { result ≡ self.entry.matchings }
    {
        self.matchings
    }

    /// The equations with the places of variables, None where no types solve them.
    pub(crate) fn into_typing(self, alloc: Global) -> Result<Option<Typing<'a>>, NoMemory>
        ensures { IfOk result (λ found. Yields self.entry found) }
    {
        if !self.is_solvable(alloc)? {
            return Ok(None);
        }
        Ok(Some(Typing {
            graph: self.graph,
            variables: self.variables,
        }))
    }
}
