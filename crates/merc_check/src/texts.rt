//! The check of texts.
ghost use Rattle.std.specs.Prelude.{◌≡◌, ◌≤◌, ◌++◌, ℕ, List, length, IfErr, IfOk};
ghost use Rattle.std.specs.List.{IsDistinct};
ghost use Rattle.std.specs.Str.{bytes_eq};
ghost use Rattle.merc_base.specs.Names.{HoldsFixed};
ghost use Rattle.merc_terms.specs.Items.{IsRefusal};
ghost use Rattle.merc_grading.specs.Fitting.{AreToldApart};
ghost use Rattle.merc_check.specs.Accepted.{AcceptsClauses, AcceptsGoal, AreGraded, IsGradedGoal, RefusesClauses, RefusesGoal, query_answers, query_names};
ghost use Rattle.merc_check.specs.Checked.{IsAccepted, IsGoal, Refuses, RefusesQuery};

use crate::checking::{AskedGoal, check_clauses, check_goal};
use merc_base::{Fault, Name, Names, Sequence, Text};
use merc_goal_tree::Vars;
use merc_graded_tree::Nodes;
use merc_items::module_of_items;
use merc_name_resolution::Known;
use merc_terms::{read_goal_text, read_text};
use merc_tree::{Module, Term, TermRef, Terms};
use std::alloc::Global;
use std::marker::Model;

/// A module that is accepted.
#[derive(Drop)]
pub struct Checked {
    items: Terms,
    module: Module,
    trees: Nodes,
}

impl Model for Checked {
    ghost use Rattle.merc_check.specs.Checked.{CheckedModule};

    ghost Value = { CheckedModule };

    ghost use Rattle.std.specs.Coded.{codes};
    ghost use Rattle.merc_tree.specs.TermCode.{term_code};
    ghost use Rattle.merc_tree.specs.TypeTerms.{type_code};
    ghost use Rattle.merc_graded_tree.specs.LabelCode.{node_code};

    ghost coded = { Prim.hlevel (codes, term_code, type_code, node_code) };

    ghost use Rattle.merc_grading.specs.Fitting.{AreToldApart};

    ghost view = { λ c. record { items = c.items; «module» = c.module; trees = c.trees } };

    ghost invariant = { λ c. AreToldApart c.module.types };
}

impl Checked {
    /// The items of its text, in order.
    pub fn items(&self) -> &Terms
        ensures { result.now ≡ self.now.items }
    {
        &self.items
    }

    /// The module, with the items of the library units that it imports.
    pub fn module(&self) -> &Module
        ensures { result.now ≡ self.now.module }
    {
        &self.module
    }

    /// The goals of each predicate in each of its modes, both in their order, as they run: with their switches, and with
    /// the category of each part.
    pub fn trees(&self) -> &Nodes
        ensures { result.now ≡ self.now.trees }
    {
        &self.trees
    }
}

/// Checks a module. Names that the text and the library spell are added behind those in the table, also where the text
/// is refused. As every table does, it holds the fixed names first, and each text once. The text has at most 300,000,000
/// bytes.
///
/// # Errors
///
/// `Refused` says the first rule that the text breaks: a fault of its tokens, terms and items comes first (see
/// `merc_items`), then the form of its goals (rules 3 and 15) and their limits (rule 16), then unknown predicates and
/// constructors (rule 7), then types that do not agree (rule 8), then modes (rules 10, 11 and 12), then categories
/// (rules 13 and 14). `NoMemory` says that memory was refused.
pub fn check(alloc: Global, text: &Text, names: &mut Names) -> Result<Checked, Fault>
    requires length { length text.now ≤ 300000000 }
    requires fixed { HoldsFixed names.old }
    requires distinct { IsDistinct bytes_eq names.old }
    ensures accepted { IfOk result (λ checked. IsAccepted names.old names.new text.now checked.items checked.module) }
    ensures graded { IfOk result (λ checked. AreGraded names.new checked.module checked.trees) }
    ensures refused { IfErr result (λ fault. IsRefusal (Refuses names.old text.now) fault) }
    ensures grows { (more : List (List ℕ)) × (names.new ≡ names.old ++ more) }
{
    let items = read_text(alloc, text.bytes(), names)?;
    let module = match module_of_items(alloc, &items, names) {
        Ok(module) => module,
        Err(fault) => {
            // (a call, here and below, since it costs much to prove what is dropped)
            drop(items);
            return Err(fault);
        }
    };
    match trees_of(alloc, &module, names) {
        Ok(trees) => Ok(Checked {
            items,
            module,
            trees,
        }),
        Err(fault) => {
            drop(items);
            drop(module);
            Err(fault)
        }
    }
}

// The trees of a module's procedures.
fn trees_of(alloc: Global, module: &Module, names: &Names) -> Result<Nodes, Fault>
    requires { AreToldApart «module».now.types }
    ensures accepted { IfOk result (λ trees. AcceptsClauses names.now «module».now) }
    ensures graded { IfOk result (λ trees. AreGraded names.now «module».now trees) }
    ensures refused { IfErr result (λ fault. IsRefusal (RefusesClauses names.now «module».now) fault) }
{
    let known = Known::of(alloc, module)?;
    let trees = check_clauses(alloc, &known, names);
    drop(known);
    trees
}

/// A goal that is accepted over a module.
#[derive(Drop)]
pub struct Query {
    /// The goal as it is written.
    pub goal: Term,
    /// Its tree, alone in its list, as it runs: with its switches, and with the category of each part.
    pub trees: Nodes,
    /// Its answer variables in order, by their numbers in the tree.
    pub answers: Vars,
    /// Their names, in the same order.
    pub names: Sequence<Name>,
}

/// Checks a goal that is asked over a module, whose names are in the table. Names that the goal spells are added behind
/// them, also where it is refused.
///
/// # Errors
///
/// `Refused` says the first rule that the goal breaks: its text is too long, or has a fault in its tokens or its term;
/// then as for the clauses of a module. `NoMemory` says that memory was refused.
pub fn check_query(
    alloc: Global,
    checked: &Checked,
    text: &Text,
    names: &mut Names,
) -> Result<Query, Fault>
    ensures accepted { IfOk result (λ query. IsGoal names.old names.new checked.now.module text.now query.goal) }
    ensures graded { IfOk result (λ query. IsGradedGoal names.new checked.now.module query.goal query.trees) }
    ensures answers { IfOk result (λ query. query.answers ≡ query_answers names.new checked.now.module query.goal) }
    ensures names { IfOk result (λ query. query.names ≡ query_names names.new query.goal) }
    ensures refused { IfErr result (λ fault. IsRefusal (RefusesQuery names.old checked.now.module text.now) fault) }
    ensures grows { (more : List (List ℕ)) × (names.new ≡ names.old ++ more) }
{
    let goal = read_goal_text(alloc, text.bytes(), names)?;
    match asked_over(alloc, &checked.module, &goal.as_ref(), names) {
        Ok(asked) => Ok(Query {
            goal,
            trees: asked.trees,
            answers: asked.answers,
            names: asked.names,
        }),
        Err(fault) => {
            drop(goal);
            Err(fault)
        }
    }
}

// A goal that is asked over a module, as it runs.
fn asked_over(
    alloc: Global,
    module: &Module,
    goal: &TermRef<'_>,
    names: &Names,
) -> Result<AskedGoal, Fault>
    requires { AreToldApart «module».now.types }
    ensures accepted { IfOk result (λ asked. AcceptsGoal names.now «module».now goal.now) }
    ensures graded { IfOk result (λ asked. IsGradedGoal names.now «module».now goal.now asked.trees) }
    ensures answers { IfOk result (λ asked. asked.answers ≡ query_answers names.now «module».now goal.now) }
    ensures names { IfOk result (λ asked. asked.names ≡ query_names names.now goal.now) }
    ensures refused { IfErr result (λ fault. IsRefusal (RefusesGoal names.now «module».now goal.now) fault) }
{
    let known = Known::of(alloc, module)?;
    let asked = check_goal(alloc, &known, goal, names);
    drop(known);
    asked
}
