//! Terms, as they are read from a text.
ghost use Rattle.std.specs.Prelude.{◌≡◌, ◌≢◌, ◌≤◌, ◌<◌, ◌-◌, ◌^◌, ◌↔◌, [], ◌∷◌, ◌++◌, length, map, take, slice_get, IfOk, OnOk, OnErr, MatchOption, IsTrue};
ghost use Rattle.std.specs.List.{slice_index_or, slice_range};
ghost use Rattle.merc_tree.specs.Nodes.{with_root, arity_of, shapes};
ghost use Rattle.merc_tree.specs.Term.{Variable, Integer, Text, applied, enclosed, bare, span_of};
ghost use Rattle.merc_tree.specs.Shape.{shape_of, arguments_of};
ghost use Rattle.merc_tree.specs.Nesting.{nesting};
ghost use Rattle.merc_tree.specs.Postfix.{shapes_of};
ghost use Rattle.merc_tree.specs.PlacedParts.{placed_parts};

mod nesting;

use merc_base::{Name, NoMemory, Span};
use std::alloc::Global;
use std::marker::Model;

/// What a term is at its root.
#[derive(Clone, Copy, PartialEq, Eq)]
pub enum Shape {
    Variable(Name),
    Integer(i64),
    Text(Name),
    /// A name with so many arguments. A qualifier stands before its `.`.
    Application {
        name: Name,
        qualifier: Option<Name>,
        arity: usize,
    },
}

// The root of a term, which stands behind the nodes of its arguments. `size` counts the nodes of the whole term.
#[derive(Clone, Copy)]
struct Node {
    shape: Shape,
    span: Span,
    size: usize,
}

/// Terms in order. They lie in one list of nodes, arguments before the term that they belong to, so that they are
/// dropped, copied and compared without recursion. As a stack they serve to build terms: the last ones become the
/// arguments of the next.
#[derive(Drop)]
pub struct Terms {
    nodes: Vec<Node>,
    // where the nodes of each term start
    starts: Vec<usize>,
}

impl Model for Terms {
    ghost use Rattle.std.specs.Prelude.{◌≡◌, List, []};
    ghost use Rattle.merc_tree.specs.Term.{Term};

    ghost Value = { List Term };

    ghost use Rattle.merc_tree.specs.TermCode.{terms_code};

    ghost coded = { terms_code };

    ghost use Rattle.merc_tree.specs.Nodes.{built, AreTerms, starts_from};

    ghost view = { λ t. built t.nodes.items [] };

    ghost invariant = { λ t. AreTerms t.nodes.items × (t.starts.items ≡ starts_from 0 (built t.nodes.items [])) };
}

impl Terms {
    /// No terms. It takes no memory before one is pushed.
    pub fn new(alloc: Global) -> Terms
        ensures { result ≡ [] }
    {
        Terms {
            nodes: Vec::new(alloc),
            starts: Vec::new(alloc),
        }
    }

    /// The number of terms.
    pub fn len(&self) -> usize
        ensures { result ≡ length self.now }
    {
        self.starts.len()
    }

    /// Puts a variable behind the others. Where memory is refused nothing changes, here and in the calls below.
    pub fn push_variable(&mut self, name: Name, span: Span) -> Result<(), NoMemory>
        ensures ok { OnOk result (self.new ≡ self.old ++ Variable name span ∷ []) }
        ensures err { OnErr result (self.new ≡ self.old) }
    {
        self.push_root(Shape::Variable(name), span)
    }

    /// Puts an integer behind the others.
    pub fn push_integer(&mut self, value: i64, span: Span) -> Result<(), NoMemory>
        ensures ok { OnOk result (self.new ≡ self.old ++ Integer value span ∷ []) }
        ensures err { OnErr result (self.new ≡ self.old) }
    {
        self.push_root(Shape::Integer(value), span)
    }

    /// Puts a text behind the others.
    pub fn push_text(&mut self, text: Name, span: Span) -> Result<(), NoMemory>
        ensures ok { OnOk result (self.new ≡ self.old ++ Text text span ∷ []) }
        ensures err { OnErr result (self.new ≡ self.old) }
    {
        self.push_root(Shape::Text(text), span)
    }

    /// Makes the last `arity` terms the arguments of one application.
    pub fn apply(
        &mut self,
        name: Name,
        qualifier: Option<Name>,
        arity: usize,
        span: Span,
    ) -> Result<(), NoMemory>
        requires { arity ≤ length self.old }
        ensures ok { OnOk result (self.new ≡ applied name qualifier arity span self.old) }
        ensures err { OnErr result (self.new ≡ self.old) }
    {
        self.push_root(
            Shape::Application {
                name,
                qualifier,
                arity,
            },
            span,
        )
    }

    /// Gives the last term another span. No terms stay none.
    pub fn enclose(&mut self, span: Span)
        ensures { self.new ≡ enclosed span self.old }
    {
        let count = self.nodes.len();
        if count > 0 {
            self.nodes[count - 1].span = span;
        }
    }

    /// The term at an index, None past the last.
    pub fn get(&self, index: usize) -> Option<TermRef<'_>>
        ensures { result ≡ slice_get self.now index }
    {
        if index >= self.starts.len() {
            return None;
        }
        let start = start_of(&self.starts, index, self.nodes.len());
        let end = start_of(&self.starts, index + 1, self.nodes.len());
        Some(TermRef {
            nodes: nodes_between(&self.nodes, start, end),
        })
    }

    /// The only term, None where there is none or more than one. It takes no memory.
    pub fn into_only(self) -> Option<Term>
        ensures { MatchOption result (length self ≢ 1) (λ term. self ≡ term ∷ []) }
    {
        if self.starts.len() != 1 {
            return None;
        }
        Some(Term { nodes: self.nodes })
    }

    // Puts a root behind the others, for which the last terms are the arguments.
    fn push_root(&mut self, shape: Shape, span: Span) -> Result<(), NoMemory>
        requires { arity_of shape ≤ length self.old }
        ensures ok { OnOk result (self.new ≡ with_root shape span self.old) }
        ensures err { OnErr result (self.new ≡ self.old) }
    {
        let kept = self.starts.len() - shape.arity();
        let start = start_of(&self.starts, kept, self.nodes.len());
        let size = self.nodes.len() - start + 1;
        self.starts.reserve(1)?;
        self.nodes.push(Node { shape, span, size })?;
        self.starts.truncate(kept);
        self.starts.push(start).unwrap();
        Ok(())
    }
}

impl Shape {
    // The number of arguments, 0 for a variable or a literal.
    fn arity(&self) -> usize
        ensures { result ≡ arity_of self.now }
    {
        match self {
            Shape::Variable(_) | Shape::Integer(_) | Shape::Text(_) => 0,
            Shape::Application { arity, .. } => *arity,
        }
    }
}

// Where the term of this number starts, or the end where there are not so many.
fn start_of(starts: &[usize], number: usize, end: usize) -> usize
    ensures { result ≡ slice_index_or starts.now number end }
{
    if number < starts.len() {
        starts[number]
    } else {
        end
    }
}

// The nodes from one index to another.
fn nodes_between(nodes: &[Node], start: usize, end: usize) -> &[Node]
    requires order { start ≤ end }
    requires within { end ≤ length nodes.now }
    ensures { result.now ≡ slice_range nodes.now start end }
{
    &nodes[start..end]
}

/// A term.
#[derive(Drop)]
pub struct Term {
    nodes: Vec<Node>,
}

impl Model for Term {
    ghost use Rattle.merc_tree.specs.Term.{Term};

    ghost Value = { Term };

    ghost use Rattle.merc_tree.specs.TermCode.{term_code};

    ghost coded = { term_code };

    ghost use Rattle.merc_tree.specs.Nodes.{term_of, IsTerm};

    ghost view = { λ t. term_of t.nodes.items };

    ghost invariant = { λ t. IsTerm t.nodes.items };
}

impl Term {
    /// The term, to be looked at.
    pub fn as_ref(&self) -> TermRef<'_>
        ensures { result ≡ self.now }
    {
        TermRef { nodes: &self.nodes }
    }

    /// A copy.
    ///
    /// # Errors
    ///
    /// `NoMemory` where memory was refused.
    pub fn try_clone(&self, alloc: Global) -> Result<Term, NoMemory>
        ensures { IfOk result (λ copy. copy ≡ self.now) }
    {
        self.as_ref().to_term(alloc)
    }
}

/// A term that lies in a list of terms.
#[derive(Drop)]
pub struct TermRef<'a> {
    nodes: &'a [Node],
}

impl<'a> Model for TermRef<'a> {
    ghost use Rattle.merc_tree.specs.Term.{Term};

    ghost Value = { Term };

    ghost use Rattle.merc_tree.specs.TermCode.{term_code};

    ghost coded = { term_code };

    ghost use Rattle.merc_tree.specs.Nodes.{term_of, IsTerm};

    ghost view = { λ t. term_of t.nodes.now };

    ghost invariant = { λ t. IsTerm t.nodes.now };
}

impl<'a> TermRef<'a> {
    /// A second reference to the term. Nothing of the term is copied.
    pub fn copy(&self) -> TermRef<'a>
        ensures { result ≡ self.now }
    {
        TermRef { nodes: self.nodes }
    }

    /// What the term is at its root.
    pub fn shape(&self) -> Shape
        ensures { result ≡ shape_of self.now }
    {
        last_node(self.nodes).shape
    }

    /// Where the term stands in its text.
    pub fn span(&self) -> Span
        ensures { result ≡ span_of self.now }
    {
        last_node(self.nodes).span
    }

    /// The arguments, none for a variable or a literal.
    pub fn arguments(&self) -> Arguments<'a>
        ensures { result ≡ arguments_of self.now }
    {
        let root = last_node(self.nodes);
        Arguments {
            nodes: nodes_between(self.nodes, 0, self.nodes.len() - 1),
            count: root.shape.arity(),
        }
    }

    /// The number of the term's parts, itself among them.
    pub fn part_count(&self) -> usize
        ensures count { result ≡ length (shapes_of self.now) }
        ensures small { result < 2 ^ 57 }
    {
        self.nodes.len()
    }

    /// The shape of the part at an index, None past the last. The parts of its arguments stand before the term itself.
    pub fn part_shape(&self, index: usize) -> Option<Shape>
        ensures { result ≡ slice_get (shapes_of self.now) index }
    {
        shape_at(self.nodes, index)
    }

    /// The shape and the place of the part at an index, None past the last.
    pub fn placed_part(&self, index: usize) -> Option<(Shape, Span)>
        ensures { result ≡ slice_get (placed_parts self.now) index }
    {
        placed_at(self.nodes, index)
    }

    /// How deep the term is nested: 1 for a variable, a literal and a plain name, and for an application 1 more than
    /// its deepest argument. A chain to the right of `,`, `;`, `&`, `else` or of list cells counts once.
    ///
    /// # Errors
    ///
    /// `NoMemory` where memory was refused.
    pub fn nesting(&self, alloc: Global) -> Result<usize, NoMemory>
        ensures { IfOk result (λ depth. depth ≡ nesting self.now) }
    {
        nesting::nesting_of(self.nodes, alloc)
    }

    /// Whether both are the same term, spans aside.
    pub fn is_same(&self, other: &TermRef<'_>) -> bool
        ensures { IsTrue result ↔ (bare self.now ≡ bare other.now) }
    {
        have_same_shapes(self.nodes, other.nodes)
    }

    /// A copy of its own.
    ///
    /// # Errors
    ///
    /// `NoMemory` where memory was refused.
    pub fn to_term(&self, alloc: Global) -> Result<Term, NoMemory>
        ensures { IfOk result (λ term. term ≡ self.now) }
    {
        let nodes = Vec::from_slice(alloc, self.nodes)?;
        Ok(Term { nodes })
    }
}

// The last of these nodes.
fn last_node(nodes: &[Node]) -> Node
    requires { 0 < length nodes.now }
    ensures { nodes.now ≡ take (length nodes.now - 1) nodes.now ++ result ∷ [] }
{
    nodes[nodes.len() - 1]
}

// The shape of the node at an index.
fn shape_at(nodes: &[Node], index: usize) -> Option<Shape>
    ensures { result ≡ slice_get (shapes nodes.now) index }
{
    nodes.get(index).map(|node| node.shape)
}

// The shape and the place of the node at an index.
fn placed_at(nodes: &[Node], index: usize) -> Option<(Shape, Span)>
    ensures { result ≡ slice_get (map (λ node. (node.shape, node.span)) nodes.now) index }
{
    nodes.get(index).map(|node| (node.shape, node.span))
}

// Whether nodes have the same shapes, in order.
fn have_same_shapes(nodes: &[Node], others: &[Node]) -> bool
    ensures { IsTrue result ↔ (shapes nodes.now ≡ shapes others.now) }
{
    let mut others = others;
    for node in nodes {
        let [other, rest @ ..] = others else {
            return false;
        };
        if node.shape != other.shape {
            return false;
        }
        others = rest;
    }
    others.is_empty()
}

/// Arguments of a term, to be taken from the last to the first.
#[derive(Drop)]
pub struct Arguments<'a> {
    nodes: &'a [Node],
    count: usize,
}

impl<'a> Model for Arguments<'a> {
    ghost use Rattle.std.specs.Prelude.{◌≡◌, List, [], length};
    ghost use Rattle.merc_tree.specs.Term.{Term};

    ghost Value = { List Term };

    ghost use Rattle.merc_tree.specs.TermCode.{terms_code};

    ghost coded = { terms_code };

    ghost use Rattle.merc_tree.specs.Nodes.{built, AreTerms};

    ghost view = { λ a. built a.nodes.now [] };

    ghost invariant = { λ a. AreTerms a.nodes.now × (a.count ≡ length (built a.nodes.now [])) };
}

impl<'a> Arguments<'a> {
    /// How many are left.
    pub fn len(&self) -> usize
        ensures { result ≡ length self.now }
    {
        self.count
    }

    /// Takes the last argument.
    pub fn take_last(&mut self) -> Option<TermRef<'a>>
        ensures { MatchOption result ((self.old ≡ []) × (self.new ≡ [])) (λ last. self.old ≡ self.new ++ last ∷ []) }
    {
        if self.count == 0 {
            return None;
        }
        let nodes = self.nodes;
        let start = nodes.len() - last_node(nodes).size;
        self.nodes = nodes_between(nodes, 0, start);
        self.count -= 1;
        Some(TermRef {
            nodes: nodes_between(nodes, start, nodes.len()),
        })
    }
}
