//! What goals ask of the types of their variables.
ghost use Rattle.std.specs.Prelude.{◌≡◌, ◌<◌, ◌≤◌, true, List, length, map, slice_get, IfOk, Some};
ghost use Rattle.std.specs.Option.{IfSome};
ghost use Rattle.std.specs.Ordering.{nat_cmp};
ghost use Rattle.std.specs.BTreeMap.{get};
ghost use Rattle.std.specs.List.{AllByRecursion};
ghost use Rattle.merc_tree.specs.Types.{TypeExpr, IntType, TextType, replaced};
ghost use Rattle.merc_type_table.specs.Table.{type_at};
ghost use Rattle.merc_type_check.specs.TypeNumbers.{AreDeclared, AreNumbers};
ghost use Rattle.merc_type_matching.specs.Listed.{AreWithin};
ghost use Rattle.merc_type_check.specs.Progress.{GoalTakes, IsFresh, IsSound, Takes};
ghost use Rattle.merc_type_matching.specs.Matched.{AgreeOn};
ghost use Rattle.merc_type_check.specs.Serving.{IsClosedBut, IsGiven, Serves};
ghost use Rattle.merc_type_check.specs.Typing.{AreArguments, HasSymbol, HaveTypes, HasConstructor, IsCalled, IsTypedGoal, IsTypedPart};
ghost use Rattle.merc_base.specs.declared.place.Span.{Span};
ghost use Rattle.merc_tree.specs.declared.declarations.Module.{Module};

use crate::checker::{Checker, UsedType};
use crate::declared::DeclaredTypes;
use merc_base::NoMemory;
use merc_goal_tree::{Predicate, Root, SimpleGoal, Symbol, Var};
use merc_name_resolution::Known;
use merc_tree::{Constructor, TypeDef, TypeExprs};
use merc_type_matching::NamePair;
use merc_type_table::TypeNumber;
use std::alloc::Global;

impl<'a> Checker<'a> {
    /// Asks for what makes a part of a goal typed, with which was begun. False where that cannot be, here and in the calls
    /// below.
    pub(crate) fn take_part(
        &mut self,
        alloc: Global,
        known: &Known<'_>,
        declared: &DeclaredTypes,
        part: &Root,
    ) -> Result<bool, NoMemory>
        requires sound { IsSound self.old }
        requires declared { AreDeclared known.now declared.now }
        requires table { declared.now.table ≡ self.old.graph.table }
        requires fresh { IsFresh self.old }
        ensures { IfOk result (λ done. (span : Span) → GoalTakes done self.old self.new (λ types. IsTypedPart known.now types (part.now, span))) }
    {
        match part {
            Root::Simple(goal) => self.take_goal(alloc, known, declared, goal),
            _ => Ok(true),
        }
    }

    // Asks for what makes a goal typed.
    fn take_goal(
        &mut self,
        alloc: Global,
        known: &Known<'_>,
        declared: &DeclaredTypes,
        goal: &SimpleGoal,
    ) -> Result<bool, NoMemory>
        requires sound { IsSound self.old }
        requires declared { AreDeclared known.now declared.now }
        requires table { declared.now.table ≡ self.old.graph.table }
        requires fresh { IsFresh self.old }
        ensures { IfOk result (λ done. GoalTakes done self.old self.new (λ types. IsTypedGoal known.now types goal.now)) }
    {
        match goal {
            SimpleGoal::True | SimpleGoal::Fail => Ok(true),
            SimpleGoal::Same(one, other) => self.are_alike(alloc, *one, *other),
            SimpleGoal::Shape(variable, symbol, arguments) => {
                self.take_symbol(
                    alloc,
                    known,
                    declared,
                    *variable,
                    symbol,
                    arguments.as_slice(),
                )
            }
            SimpleGoal::Arithmetic(_, result, left, right) => {
                self.are_all_ints(alloc, *result, *left, *right)
            }
            SimpleGoal::Compare(_, left, right) => self.are_ints(alloc, *left, *right),
            SimpleGoal::Raise(text) => self.is_text(alloc, *text),
            SimpleGoal::Call(predicate, arguments) => {
                self.take_call(alloc, known, declared, *predicate, arguments.as_slice())
            }
        }
    }

    // Asks that a variable has the type of a symbol over these arguments.
    fn take_symbol(
        &mut self,
        alloc: Global,
        known: &Known<'_>,
        declared: &DeclaredTypes,
        variable: Var,
        symbol: &Symbol,
        arguments: &[Var],
    ) -> Result<bool, NoMemory>
        requires sound { IsSound self.old }
        requires declared { AreDeclared known.now declared.now }
        requires table { declared.now.table ≡ self.old.graph.table }
        requires fresh { IsFresh self.old }
        ensures { IfOk result (λ done. GoalTakes done self.old self.new (λ types. HasSymbol known.now types variable symbol.now arguments.now)) }
    {
        match symbol {
            Symbol::Constructor(name, arity) => match known.constructor(*name, *arity) {
                Some((type_def, constructor)) => {
                    let numbers = declared.of_constructor(*name, *arity);
                    self.take_constructor(
                        alloc,
                        self.part_number(),
                        variable,
                        type_def,
                        constructor,
                        numbers,
                        arguments,
                    )
                }
                None => Ok(false),
            },
            Symbol::Integer(_) => self.is_int(alloc, variable),
            Symbol::Text(_) => self.is_text(alloc, variable),
        }
    }

    // Asks that a variable has a declared type, and the arguments those of its constructor.
    fn take_constructor(
        &mut self,
        alloc: Global,
        user: usize,
        variable: Var,
        declared: &TypeDef,
        constructor: &Constructor,
        numbers: &[TypeNumber],
        arguments: &[Var],
    ) -> Result<bool, NoMemory>
        requires sound { IsSound self.old }
        requires numbers { AreNumbers self.old.graph.table numbers.now constructor.now.args }
        requires begun { user ≤ self.old.part }
        ensures { IfOk result (λ done. (known : Module) → Takes done self.old self.new (λ types instance. HasConstructor known types (instance user) variable declared.now constructor.now arguments.now)) }
    {
        let place = self.variable(alloc, variable)?;
        let whole = self.whole(alloc, user, declared)?;
        let done = self.make_equal(place, whole)?;
        if !done {
            return Ok(false);
        }
        self.have_types(alloc, user, arguments, &constructor.args, numbers)
    }

    // Asks that the arguments of a call have the types that the predicate declares.
    fn take_call(
        &mut self,
        alloc: Global,
        known: &Known<'_>,
        declared: &DeclaredTypes,
        predicate: Predicate,
        arguments: &[Var],
    ) -> Result<bool, NoMemory>
        requires sound { IsSound self.old }
        requires declared { AreDeclared known.now declared.now }
        requires table { declared.now.table ≡ self.old.graph.table }
        requires fresh { IsFresh self.old }
        ensures { IfOk result (λ done. GoalTakes done self.old self.new (λ types. IsCalled known.now types (slice_get known.now.preds predicate) arguments.now)) }
    {
        match known.predicate(predicate.number()) {
            Some(pred) => {
                let numbers = declared.of_predicate(predicate.number());
                let user = self.serving_part(arguments, numbers);
                self.have_types(alloc, user, arguments, &pred.args, numbers)
            }
            None => Ok(false),
        }
    }

    // The part of the goal whose type variables serve for a call. Where one declared type alone of the call has type
    // variables, and an argument waits with it since another part, it is that part; else the one that is gone through.
    fn serving_part(&self, variables: &[Var], numbers: &[TypeNumber]) -> usize
        requires sound { IsSound self.now }
        requires within { AreWithin self.now.graph.table numbers.now }
        ensures { (declared : List TypeExpr) → AreNumbers self.now.graph.table numbers.now declared → Serves self.now result variables.now declared }
    {
        match self.given(variables, numbers) {
            Some((number, user)) => {
                if self.is_open_alone(numbers, number) {
                    user
                } else {
                    self.part_number()
                }
            }
            None => self.part_number(),
        }
    }

    // The declared type that a variable waits with, where it is the one that the call gives it too, and the part that gave it.
    fn given(&self, variables: &[Var], numbers: &[TypeNumber]) -> Option<(TypeNumber, usize)>
        ensures { IfSome result (λ found. IsGiven self.now variables.now numbers.now found.0 found.1) }
    {
        for (index, variable) in variables.iter().enumerate() {
            if let Some(number) = numbers.get(index) {
                if let Some(user) = self.giver(*variable, *number) {
                    return Some((*number, user));
                }
            }
        }
        None
    }

    // Whether no declared type but this one has type variables.
    fn is_open_alone(&self, numbers: &[TypeNumber], only: TypeNumber) -> bool
        requires sound { IsSound self.now }
        requires within { AreWithin self.now.graph.table numbers.now }
        ensures { result ≡ true → AllByRecursion (IsClosedBut self.now.graph.table only) numbers.now }
    {
        for number in numbers {
            if *number != only && !self.is_closed(*number) {
                return false;
            }
        }
        true
    }

    // Asks that variables have these declared types, as a part of the goal uses them.
    fn have_types(
        &mut self,
        alloc: Global,
        user: usize,
        variables: &[Var],
        declared: &TypeExprs,
        numbers: &[TypeNumber],
    ) -> Result<bool, NoMemory>
        requires sound { IsSound self.old }
        requires numbers { AreNumbers self.old.graph.table numbers.now declared.now }
        requires begun { user ≤ self.old.part }
        ensures { IfOk result (λ done. (known : Module) → Takes done self.old self.new (λ types instance. HaveTypes known types (instance user) variables.now declared.now)) }
    {
        if variables.len() != declared.len() {
            return Ok(false);
        }
        for (index, variable) in variables.iter().enumerate() {
            let done = self.has_type(alloc, user, *variable, numbers[index])?;
            if !done {
                return Ok(false);
            }
        }
        Ok(true)
    }

    /// Asks that the first variables have these declared types, in which type variables stand for themselves.
    pub(crate) fn take_head(
        &mut self,
        alloc: Global,
        numbers: &[TypeNumber],
    ) -> Result<bool, NoMemory>
        requires sound { IsSound self.old }
        requires numbers { AreWithin self.old.graph.table numbers.now }
        ensures { IfOk result (λ done. (known : Module) → Takes done self.old self.new (λ types instance. AreArguments known types 0 (map (type_at self.old.graph.table) numbers.now))) }
    {
        for (index, number) in numbers.iter().enumerate() {
            let place = self.variable(alloc, Var::new(index))?;
            let done = self.make_whole(place, *number)?;
            if !done {
                return Ok(false);
            }
        }
        Ok(true)
    }

    // Asks that a variable has a declared type, whose number this is, as a part of the goal uses it. Nothing is built where
    // it is all that is known of the variable.
    fn has_type(
        &mut self,
        alloc: Global,
        user: usize,
        variable: Var,
        number: TypeNumber,
    ) -> Result<bool, NoMemory>
        requires sound { IsSound self.old }
        requires number { number < length self.old.graph.table }
        requires begun { user ≤ self.old.part }
        ensures { IfOk result (λ done. Takes done self.old self.new (λ types instance. types variable ≡ replaced (instance user) (type_at self.old.graph.table number))) }
    {
        if self.is_closed(number) {
            let place = self.variable(alloc, variable)?;
            return self.make_whole(place, number);
        }
        if self.is_new(variable) {
            self.wait(variable, UsedType { number, user })?;
            return Ok(true);
        }
        match self.waits_with(variable) {
            Some(used) => {
                if used.number == number {
                    self.has_same_type(alloc, user, variable, used)
                } else {
                    self.has_like_type(alloc, user, variable, used, number)
                }
            }
            None => self.has_open_type(alloc, user, variable, number),
        }
    }

    // Asks that a variable has the declared type that it waits with, as this part of the goal uses it.
    fn has_same_type(
        &mut self,
        alloc: Global,
        user: usize,
        variable: Var,
        used: UsedType,
    ) -> Result<bool, NoMemory>
        requires sound { IsSound self.old }
        requires begun { user ≤ self.old.part }
        requires waits { get nat_cmp self.old.waiting variable ≡ Some used }
        ensures { IfOk result (λ done. Takes done self.old self.new (λ types instance. types variable ≡ replaced (instance user) (type_at self.old.graph.table used.number))) }
    {
        if used.user == user {
            return Ok(true);
        }
        match self.variables_of(used.number) {
            Some(pairs) => self.stand_alike(pairs, used.user, user),
            None => self.has_open_type(alloc, user, variable, used.number),
        }
    }

    // Asks that a variable has another declared type than the one that it waits with. Nothing is built where they are alike
    // but for type variables.
    fn has_like_type(
        &mut self,
        alloc: Global,
        user: usize,
        variable: Var,
        used: UsedType,
        number: TypeNumber,
    ) -> Result<bool, NoMemory>
        requires sound { IsSound self.old }
        requires number { number < length self.old.graph.table }
        requires begun { user ≤ self.old.part }
        requires waits { get nat_cmp self.old.waiting variable ≡ Some used }
        ensures { IfOk result (λ done. Takes done self.old self.new (λ types instance. types variable ≡ replaced (instance user) (type_at self.old.graph.table number))) }
    {
        match self.take_matching(alloc, used.number, number)? {
            Some(pairs) => {
                let done = self.stand_alike(pairs.as_slice(), used.user, user)?;
                if !done {
                    return Ok(false);
                }
                self.keep_matching(used.number, number, pairs)?;
                Ok(true)
            }
            None => self.has_open_type(alloc, user, variable, number),
        }
    }

    // Asks that a variable has a declared type, which is built.
    fn has_open_type(
        &mut self,
        alloc: Global,
        user: usize,
        variable: Var,
        number: TypeNumber,
    ) -> Result<bool, NoMemory>
        requires sound { IsSound self.old }
        requires number { number < length self.old.graph.table }
        requires begun { user ≤ self.old.part }
        ensures { IfOk result (λ done. Takes done self.old self.new (λ types instance. types variable ≡ replaced (instance user) (type_at self.old.graph.table number))) }
    {
        let place = self.variable(alloc, variable)?;
        let other = self.declared(alloc, user, number)?;
        self.make_equal(place, other)
    }

    // Asks that pairs of type variables stand for the same, one in this part of the goal, and the other in that.
    fn stand_alike(
        &mut self,
        pairs: &[NamePair],
        one: usize,
        other: usize,
    ) -> Result<bool, NoMemory>
        requires sound { IsSound self.old }
        requires one { one ≤ self.old.part }
        requires other { other ≤ self.old.part }
        ensures { IfOk result (λ done. Takes done self.old self.new (λ types instance. AgreeOn (instance one) (instance other) pairs.now)) }
    {
        for pair in pairs {
            let done = self.stands_alike(*pair, one, other)?;
            if !done {
                return Ok(false);
            }
        }
        Ok(true)
    }

    // Asks that the type variables of a pair stand for the same, one in this part of the goal, and the other in that.
    fn stands_alike(&mut self, pair: NamePair, one: usize, other: usize) -> Result<bool, NoMemory>
        requires sound { IsSound self.old }
        requires one { one ≤ self.old.part }
        requires other { other ≤ self.old.part }
        ensures { IfOk result (λ done. Takes done self.old self.new (λ types instance. instance one pair.one ≡ instance other pair.other)) }
    {
        let place = self.type_variable(one, pair.one)?;
        self.stands_for(other, pair.other, place)
    }

    // Asks that two variables have one type.
    fn are_alike(&mut self, alloc: Global, one: Var, other: Var) -> Result<bool, NoMemory>
        requires { IsSound self.old }
        ensures { IfOk result (λ done. Takes done self.old self.new (λ types instance. types one ≡ types other)) }
    {
        match self.waits_with(one) {
            Some(used) => self.leads(alloc, one, used, other),
            None => self.is_alike(alloc, one, other),
        }
    }

    // Asks that two variables have one type, of which the first does not wait.
    fn is_alike(&mut self, alloc: Global, one: Var, other: Var) -> Result<bool, NoMemory>
        requires { IsSound self.old }
        ensures { IfOk result (λ done. Takes done self.old self.new (λ types instance. types one ≡ types other)) }
    {
        match self.waits_with(other) {
            Some(used) => self.leads(alloc, other, used, one),
            None => self.have_one_place(alloc, one, other),
        }
    }

    // Asks that a variable has the type of another one, which waits. Nothing is built where it is new, or waits with the same
    // declared type.
    fn leads(
        &mut self,
        alloc: Global,
        leader: Var,
        used: UsedType,
        variable: Var,
    ) -> Result<bool, NoMemory>
        requires sound { IsSound self.old }
        requires waits { get nat_cmp self.old.waiting leader ≡ Some used }
        ensures { IfOk result (λ done. Takes done self.old self.new (λ types instance. types leader ≡ types variable)) }
    {
        if self.needs_no_place(variable, used.number) {
            self.has_type(alloc, used.user, variable, used.number)
        } else {
            self.have_one_place(alloc, leader, variable)
        }
    }

    // Whether a variable was not met, or waits with this declared type.
    fn needs_no_place(&self, variable: Var, number: TypeNumber) -> bool {
        self.is_new(variable) || self.giver(variable, number).is_some()
    }

    // Asks that two variables have one type, of which each has its place.
    fn have_one_place(&mut self, alloc: Global, one: Var, other: Var) -> Result<bool, NoMemory>
        requires { IsSound self.old }
        ensures { IfOk result (λ done. Takes done self.old self.new (λ types instance. types one ≡ types other)) }
    {
        let place = self.variable(alloc, one)?;
        let other_place = self.variable(alloc, other)?;
        self.make_equal(place, other_place)
    }

    // Asks that two variables are integers.
    fn are_ints(&mut self, alloc: Global, left: Var, right: Var) -> Result<bool, NoMemory>
        requires { IsSound self.old }
        ensures { IfOk result (λ done. Takes done self.old self.new (λ types instance. (types left ≡ IntType) × (types right ≡ IntType))) }
    {
        let done = self.is_int(alloc, left)?;
        if !done {
            return Ok(false);
        }
        self.is_int(alloc, right)
    }

    // Asks that three variables are integers.
    fn are_all_ints(
        &mut self,
        alloc: Global,
        outcome: Var,
        left: Var,
        right: Var,
    ) -> Result<bool, NoMemory>
        requires { IsSound self.old }
        ensures { IfOk result (λ done. Takes done self.old self.new (λ types instance. (types outcome ≡ IntType) × (types left ≡ IntType) × (types right ≡ IntType))) }
    {
        let done = self.is_int(alloc, outcome)?;
        if !done {
            return Ok(false);
        }
        self.are_ints(alloc, left, right)
    }

    fn is_int(&mut self, alloc: Global, variable: Var) -> Result<bool, NoMemory>
        requires { IsSound self.old }
        ensures { IfOk result (λ done. Takes done self.old self.new (λ types instance. types variable ≡ IntType)) }
    {
        let place = self.variable(alloc, variable)?;
        let number = self.int();
        self.make_whole(place, number)
    }

    fn is_text(&mut self, alloc: Global, variable: Var) -> Result<bool, NoMemory>
        requires { IsSound self.old }
        ensures { IfOk result (λ done. Takes done self.old self.new (λ types instance. types variable ≡ TextType)) }
    {
        let place = self.variable(alloc, variable)?;
        let number = self.text();
        self.make_whole(place, number)
    }
}
