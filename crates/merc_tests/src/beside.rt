//! Calls of which no run of the program shows that they succeed, each once with ample memory: bodies that always answer that
//! memory was refused would meet their clauses. And `write_text`, of a value with shared parts.
ghost use Rattle.std.specs.Prelude.{◌≡◌, length, IfOk};

use merc_base::{Name, Names, NoMemory, Span, Text};
use merc_goal_tree::{Node, NodeRef, Nodes, Predicate, SimpleGoal, Vars};
use merc_heap::Heap;
use merc_items::read_module;
use merc_name_resolution::Known;
use merc_segments::thaw;
use merc_term_text::write_term;
use merc_terms::read_goal_text;
use merc_tree::{Module, TypeExpr, TypeExprs, TypeShape};
use merc_type_check::{DeclaredTypes, typing};
use merc_type_expr::{Subst, unify};
use merc_value::{Block, Word, equal, write_text};
use std::alloc::Global;
use std::test::Fail;

// `[P | quoted]`, where P is a pair of the list `[-7]` with itself.
fn shared_list(alloc: Global, pair: Name, quoted: Name) -> Result<Block, NoMemory>
    ensures { IfOk result (λ block. length block.roots ≡ 1) }
{
    let mut block = Block::new(alloc);
    block.cell(Name::CONS, &[Word::Int(-7), Word::Atom(Name::NIL)])?;
    block.cell(pair, &[Word::Cell(0), Word::Cell(0)])?;
    block.cell(Name::CONS, &[Word::Cell(1), Word::Text(quoted)])?;
    block.add_root(Word::Cell(2))?;
    Ok(block)
}

// Puts the text of that list behind a text, with one name that is written plain and one in quotes.
fn put_shared_list(alloc: Global, names: &mut Names, into: &mut Text) -> Result<(), NoMemory> {
    let pair = names.intern(b"pair")?;
    let quoted = names.intern(b"it's")?;
    let block = shared_list(alloc, pair, quoted)?;
    let written = write_text(alloc, &block, 0, names, into);
    // (a call, here and below, since it costs much to prove what is dropped)
    drop(block);
    written
}

#[test]
fn writes_a_shared_list(rt: HostRuntime) {
    let alloc = rt.alloc();
    let expected = b"[pair([-7], [-7]) | \"it's\"]";
    let mut names = Names::new(alloc);
    let mut text = Text::new(alloc);
    let is_written = put_shared_list(alloc, &mut names, &mut text).is_ok();
    let is_right = text.bytes() == expected.as_slice();
    drop(text);
    drop(names);
    assert!(rt; is_written);
    assert!(rt; is_right);
}

// A pair of one value with itself, and the number 2.
fn shared_pair(alloc: Global) -> Result<Block, NoMemory>
    ensures { IfOk result (λ block. length block.roots ≡ 2) }
{
    let mut block = Block::new(alloc);
    block.cell(Name::MAYBE, &[Word::Int(1)])?;
    block.cell(Name::COMMA, &[Word::Cell(0), Word::Cell(0)])?;
    block.add_root(Word::Cell(1))?;
    block.add_root(Word::Int(2))?;
    Ok(block)
}

// The same pair, of two cells.
fn pair_apart(alloc: Global) -> Result<Block, NoMemory>
    ensures { IfOk result (λ block. length block.roots ≡ 1) }
{
    let mut block = Block::new(alloc);
    block.cell(Name::MAYBE, &[Word::Int(1)])?;
    block.cell(Name::MAYBE, &[Word::Int(1)])?;
    block.cell(Name::COMMA, &[Word::Cell(1), Word::Cell(0)])?;
    block.add_root(Word::Cell(2))?;
    Ok(block)
}

#[test]
fn compares_values(rt: HostRuntime) -> Result<(), Fail> {
    let alloc = rt.alloc();
    let shared = shared_pair(alloc)?;
    let apart = pair_apart(alloc)?;
    let are_equal = equal(&shared, 0, &apart, 0);
    drop(apart);
    drop(shared);
    assert!(rt; are_equal?);
    Ok(())
}

// Whether a text reads as a term, which is then put behind another text.
fn writes_back(alloc: Global, written: &[u8], names: &mut Names, into: &mut Text) -> bool {
    match read_goal_text(alloc, written, names) {
        Ok(term) => {
            let is_written = write_term(alloc, &term, names, into).is_ok();
            drop(term);
            is_written
        }
        Err(_) => false,
    }
}

#[test]
fn writes_a_term_as_it_was_read(rt: HostRuntime) {
    let alloc = rt.alloc();
    let written = b"p(X, [a, 'B' | Y]) :- X = - (1), \"it\" = Y ; not q.r(-1)";
    let mut names = Names::new(alloc);
    let mut text = Text::new(alloc);
    let is_written = writes_back(alloc, written, &mut names, &mut text);
    let is_same = text.bytes() == written.as_slice();
    drop(text);
    drop(names);
    assert!(rt; is_written);
    assert!(rt; is_same);
}

// `list(T)`, where T is a type variable of this name or `int`.
fn list_type(alloc: Global, variable: Option<Name>) -> Result<TypeExpr, NoMemory> {
    let mut types = TypeExprs::new(alloc);
    match variable {
        Some(name) => types.push_variable(name)?,
        None => types.push_int()?,
    }
    types.apply(Name::LIST, types.len())?;
    match types.into_only() {
        Some(only) => Ok(only),
        None => Err(NoMemory),
    }
}

// The shape of the type that the unification of two types binds a variable to.
fn bound_shape(
    alloc: Global,
    one: &TypeExpr,
    other: &TypeExpr,
    variable: Name,
) -> Option<TypeShape> {
    let free = Subst::new(alloc);
    let found = unify(alloc, one, other, &free);
    drop(free);
    match found {
        Ok(Some(found)) => {
            let shape = match found.get(variable) {
                Some(bound) => Some(bound.shape()),
                None => None,
            };
            drop(found);
            shape
        }
        _ => None,
    }
}

#[test]
fn unifies_types(rt: HostRuntime) -> Result<(), Fail> {
    let alloc = rt.alloc();
    let open = list_type(alloc, Some(Name::MODE))?;
    let closed = list_type(alloc, None)?;
    let found = bound_shape(alloc, &open, &closed, Name::MODE);
    drop(closed);
    drop(open);
    assert!(rt; found == Some(TypeShape::Int));
    Ok(())
}

const SPAN: Span = Span {
    first: 0,
    past: 1,
    line: 1,
};

// Puts `not p, true` behind the goals.
fn put_conjunction(alloc: Global, nodes: &mut Nodes) -> Result<(), NoMemory> {
    nodes.push(SimpleGoal::Call(Predicate::new(0), Vars::new(alloc)), SPAN)?;
    nodes.negate(SPAN)?;
    nodes.push(SimpleGoal::True, SPAN)?;
    if nodes.len() >= 2 {
        nodes.conjoin(2, SPAN)?;
    }
    Ok(())
}

#[test]
fn joins_goals(rt: HostRuntime) {
    let alloc = rt.alloc();
    let mut nodes = Nodes::new(alloc);
    let is_put = put_conjunction(alloc, &mut nodes).is_ok();
    let only = nodes.into_only().expect(&rt, "one goal");
    let count = only.as_ref().part_count();
    drop(only);
    assert!(rt; is_put && count == 4);
}

// How many words a block gives a heap.
fn thawed_count(block: &Block, heap: &mut Heap) -> Result<usize, NoMemory> {
    let words = thaw(block, heap)?;
    Ok(words.len())
}

#[test]
fn thaws_a_block(rt: HostRuntime) -> Result<(), Fail> {
    let alloc = rt.alloc();
    let block = shared_pair(alloc)?;
    let mut heap = Heap::new(alloc);
    let count = thawed_count(&block, &mut heap);
    drop(heap);
    drop(block);
    assert!(rt; count? == 2);
    Ok(())
}

// A module with one predicate of its own.
fn small_module(alloc: Global) -> Result<Module, Fail> {
    let text = Text::of(alloc, b":- module m.\n:- pred p is det.\np.\n")?;
    let mut names = Names::new(alloc);
    let found = read_module(alloc, &text, &mut names);
    drop(names);
    drop(text);
    match found {
        Ok(module) => Ok(module),
        Err(_) => Err(Fail::new("no module")),
    }
}

#[test]
fn reads_a_module(rt: HostRuntime) -> Result<(), Fail> {
    let module = small_module(rt.alloc())?;
    let own = module.own;
    drop(module);
    assert!(rt; own == 1);
    Ok(())
}

// The goal `true`.
fn true_goal(alloc: Global) -> Result<Node, NoMemory> {
    let mut nodes = Nodes::new(alloc);
    nodes.push(SimpleGoal::True, SPAN)?;
    match nodes.into_only() {
        Some(only) => Ok(only),
        None => Err(NoMemory),
    }
}

// Whether a goal has types in a module whose names are known.
fn is_typed_in(alloc: Global, known: &Known<'_>, goal: &NodeRef<'_>) -> Result<bool, NoMemory> {
    let declared = DeclaredTypes::of(alloc, known)?;
    let is_typed = matches!(typing(alloc, known, &declared, None, goal), Ok(Some(_)));
    drop(declared);
    Ok(is_typed)
}

// Whether `true` has types in a module.
fn is_true_typed(alloc: Global, module: &Module) -> Result<bool, NoMemory> {
    let goal = true_goal(alloc)?;
    let is_typed = has_types(alloc, module, &goal.as_ref());
    drop(goal);
    is_typed
}

// Whether a goal has types in a module.
fn has_types(alloc: Global, module: &Module, goal: &NodeRef<'_>) -> Result<bool, NoMemory> {
    let known = Known::of(alloc, module)?;
    let is_typed = is_typed_in(alloc, &known, goal);
    drop(known);
    is_typed
}

#[test]
fn finds_types(rt: HostRuntime) -> Result<(), Fail> {
    let module = small_module(rt.alloc())?;
    let is_typed = is_true_typed(rt.alloc(), &module);
    drop(module);
    assert!(rt; is_typed?);
    Ok(())
}
