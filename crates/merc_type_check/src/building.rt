//! Declared types as equations.
ghost use Rattle.std.specs.Prelude.{◌≡◌, ℕ, ◌<◌, ◌≤◌, length, map, reverse, IfOk, OnOk};
ghost use Rattle.merc_tree.specs.Types.{TypeApplication, TypeExpr, no_types, replaced, types_of};
ghost use Rattle.merc_type_table.specs.Table.{type_at};
ghost use Rattle.merc_type_graph.specs.Changes.{AllWithin};
ghost use Rattle.merc_type_check.specs.Building.{frames_weight, AreBuilt, Finds, Finishes, HasMore, IsFilled, IsSplit, IsUnderWay};
ghost use Rattle.merc_type_check.specs.Progress.{IsSound, Keeps, Places};
ghost use Rattle.merc_type_check.specs.declared.checker.Checker.{Checker as CheckerValue};

use crate::checker::Checker;
use merc_base::{Name, NoMemory};
use merc_tree::TypeDef;
use merc_type_graph::Place;
use merc_type_table::{TypeNode, TypeNumber};
use std::alloc::Global;
use std::collections::BTreeMap;

// A declared type: the places of its first arguments, and its name over the others.
#[derive(Drop)]
pub(crate) struct Frame {
    pub(crate) number: TypeNumber,
    pub(crate) rest: TypeNumber,
    pub(crate) places: Vec<Place>,
}

impl<'a> Checker<'a> {
    /// A place for a declared type, in which type variables are what they stand for in the part of the goal that uses it.
    /// Each part of it that holds a type variable has one place, however often it occurs, and each greatest part without one
    /// has one place too.
    pub(crate) fn declared(
        &mut self,
        alloc: Global,
        user: usize,
        number: TypeNumber,
    ) -> Result<Place, NoMemory>
        requires sound { IsSound self.old }
        requires there { number < length self.old.graph.table }
        requires begun { user ≤ self.old.part }
        ensures placed { IfOk result (λ place. Places self.old self.new place (λ types instance. replaced (instance user) (type_at self.old.graph.table number))) }
        ensures kept { OnOk result (Keeps self.old self.new) }
    {
        let mut built = BTreeMap::new(alloc);
        if let Some(place) = self.part(user, number, &mut built)? {
            return Ok(place);
        }
        let mut top = Frame {
            number,
            rest: number,
            places: Vec::new(alloc),
        };
        let mut below = Vec::new(alloc);
        loop {
            top = match self.node(top.rest) {
                TypeNode::With { first, rest } => {
                    self.argument(alloc, user, top, first, rest, &mut below, &mut built)?
                }
                TypeNode::Name(name) => {
                    let place = self.finish(&top, name, &mut built)?;
                    match below.pop() {
                        Some(frame) => with_place(frame, place)?,
                        None => return Ok(place),
                    }
                }
                TypeNode::Variable(_) | TypeNode::Int | TypeNode::Text => unreachable!(),
            };
        }
    }

    // The place of a part of a declared type, None where its arguments have to be built first.
    fn part(
        &mut self,
        user: usize,
        number: TypeNumber,
        built: &mut BTreeMap<TypeNumber, Place>,
    ) -> Result<Option<Place>, NoMemory>
        requires sound { IsSound self.old }
        requires there { number < length self.old.graph.table }
        requires built { AreBuilt user self.old.graph.table self.old built.old }
        requires begun { user ≤ self.old.part }
        ensures found { IfOk result (λ found. Finds user self.old self.new built.new number found) }
        ensures kept { OnOk result (Keeps self.old self.new) }
    {
        if let Some(place) = built.get(&number).copied() {
            return Ok(Some(place));
        }
        if self.is_closed(number) {
            let place = self.whole_place(number)?;
            built.insert(number, place)?;
            return Ok(Some(place));
        }
        match self.node(number) {
            TypeNode::Variable(name) => {
                let place = self.type_variable(user, name)?;
                built.insert(number, place)?;
                Ok(Some(place))
            }
            _ => Ok(None),
        }
    }

    // Puts the place of one more argument into a frame, or puts the frame below and begins with the argument.
    fn argument(
        &mut self,
        alloc: Global,
        user: usize,
        frame: Frame,
        first: TypeNumber,
        rest: TypeNumber,
        below: &mut Vec<Frame>,
        built: &mut BTreeMap<TypeNumber, Place>,
    ) -> Result<Frame, NoMemory>
        requires sound { IsSound self.old }
        requires built { AreBuilt user self.old.graph.table self.old built.old }
        requires begun { user ≤ self.old.part }
        requires split { IsSplit self.old.graph.table frame.rest first rest }
        ensures under_way { IfOk result (λ top. (start : CheckerValue) (whole : TypeExpr) → IsUnderWay user start self.old built.old frame (reverse below.old.items) whole → IsUnderWay user start self.new built.new top (reverse below.new.items) whole) }
        ensures less { IfOk result (λ top. frames_weight self.old.graph.table top (reverse below.new.items) < frames_weight self.old.graph.table frame (reverse below.old.items)) }
        ensures kept { OnOk result (Keeps self.old self.new) }
    {
        let mut places = frame.places;
        match self.part(user, first, built)? {
            Some(place) => {
                places.push(place)?;
                Ok(Frame {
                    number: frame.number,
                    rest,
                    places,
                })
            }
            None => {
                below.push(Frame {
                    number: frame.number,
                    rest,
                    places,
                })?;
                Ok(Frame {
                    number: first,
                    rest: first,
                    places: Vec::new(alloc),
                })
            }
        }
    }

    // The place of a type whose arguments have places.
    fn finish(
        &mut self,
        frame: &Frame,
        name: Name,
        built: &mut BTreeMap<TypeNumber, Place>,
    ) -> Result<Place, NoMemory>
        requires sound { IsSound self.old }
        requires within { AllWithin (length self.old.graph.entries) frame.now.places.items }
        ensures finished { IfOk result (λ place. (user : ℕ) → AreBuilt user self.old.graph.table self.old built.old → IsFilled user self.old frame.now.places.items (TypeApplication name no_types) (type_at self.old.graph.table frame.now.number) → Finishes user self.old self.new built.new frame.now.number place) }
        ensures kept { OnOk result (Keeps self.old self.new) }
    {
        let place = self.applied(name, &frame.places)?;
        built.insert(frame.number, place)?;
        Ok(place)
    }

    /// A place for a declared type over what its parameters stand for in the part of the goal that uses it.
    pub(crate) fn whole(
        &mut self,
        alloc: Global,
        user: usize,
        declared: &TypeDef,
    ) -> Result<Place, NoMemory>
        requires sound { IsSound self.old }
        requires begun { user ≤ self.old.part }
        ensures { IfOk result (λ place. Places self.old self.new place (λ types instance. TypeApplication declared.now.name (types_of (map (instance user) declared.now.params)))) }
    {
        let params = declared.params.as_slice();
        let mut places = Vec::new(alloc);
        for name in params {
            places.push(self.type_variable(user, *name)?)?;
        }
        self.applied(declared.name, &places)
    }
}

// Puts the place of one more argument into a frame.
fn with_place(frame: Frame, place: Place) -> Result<Frame, NoMemory>
    ensures { IfOk result (λ full. HasMore frame full place) }
{
    let mut places = frame.places;
    places.push(place)?;
    Ok(Frame {
        number: frame.number,
        rest: frame.rest,
        places,
    })
}
