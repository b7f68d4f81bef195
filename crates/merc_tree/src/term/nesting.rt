//! How deep a term is nested.
ghost use Rattle.std.specs.Prelude.{◌≡◌, ◌<◌, IfOk};
ghost use Rattle.merc_tree.specs.Nesting.{is_chain, nesting};
ghost use Rattle.merc_tree.specs.Nodes.{term_of, IsTerm};
ghost use Rattle.merc_tree.specs.Parts.{chain_name_of, deepest_part, goes_on_part, part_of_root};

use super::{Node, Shape};
use merc_base::{Name, NoMemory};
use std::alloc::Global;

// What the nesting of a term that holds this one asks of it.
#[derive(Clone, Copy)]
struct Part {
    nesting: usize,
    // the name whose chain the term is, if it is one
    chain: Option<Name>,
}

// The nesting of the term that these nodes are.
pub(super) fn nesting_of(nodes: &[Node], alloc: Global) -> Result<usize, NoMemory>
    requires { IsTerm nodes.now }
    ensures { IfOk result (λ depth. depth ≡ nesting (term_of nodes.now)) }
{
    let mut parts: Vec<Part> = Vec::new(alloc);
    for node in nodes {
        let kept = parts.len().saturating_sub(node.shape.arity());
        let part = root_part(&node.shape, &parts[kept..]);
        parts.truncate(kept);
        parts.push(part)?;
    }
    Ok(parts[0].nesting)
}

// A root of this shape with these arguments.
fn root_part(shape: &Shape, arguments: &[Part]) -> Part
    requires { deepest_part arguments.now < 18446744073709551615 }
    ensures { result ≡ part_of_root shape.now arguments.now }
{
    if let Some(name) = chain_name(shape) {
        if let [first, last] = arguments {
            let end = if goes_on(last, name) {
                last.nesting
            } else {
                last.nesting + 1
            };
            return Part {
                nesting: end.max(first.nesting + 1),
                chain: Some(name),
            };
        }
    }
    Part {
        nesting: deepest(arguments) + 1,
        chain: None,
    }
}

// The name that a root of this shape and with two arguments goes on the chain of.
fn chain_name(shape: &Shape) -> Option<Name>
    ensures { result ≡ chain_name_of shape.now }
{
    match shape {
        Shape::Application {
            name,
            qualifier,
            ..
        } => {
            if qualifier.is_none() && is_chain(*name) {
                Some(*name)
            } else {
                None
            }
        }
        _ => None,
    }
}

// Whether chains of this name to the right count once.
fn is_chain(name: Name) -> bool
    ensures { result ≡ is_chain name }
{
    name == Name::COMMA
        || name == Name::SEMICOLON
        || name == Name::AMPERSAND
        || name == Name::ELSE
        || name == Name::CONS
}

// Whether a term is a chain of this name.
fn goes_on(part: &Part, name: Name) -> bool
    ensures { result ≡ goes_on_part name part.now }
{
    match part.chain {
        Some(chain) => chain == name,
        None => false,
    }
}

// The nesting of the deepest of these, 0 where there is none.
fn deepest(parts: &[Part]) -> usize
    ensures { result ≡ deepest_part parts.now }
{
    let mut deepest = 0;
    for part in parts {
        deepest = part.nesting.max(deepest);
    }
    deepest
}
