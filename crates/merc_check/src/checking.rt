//! The check of clauses and of goals.
ghost use Rattle.std.specs.Prelude.{◌≡◌, ℕ, List, [], ◌∷◌, None, length, map, IfErr, IfOk};
ghost use Rattle.merc_tree.specs.Term.{Term, span_of};
ghost use Rattle.merc_tree.specs.declared.declarations.Clause.{Clause};
ghost use Rattle.merc_terms.specs.Items.{IsRefusal};
ghost use Rattle.merc_goal_tree.specs.Nodes.{Node};
ghost use Rattle.merc_graded_tree.specs.Nodes.{Node as OrderedNode};
ghost use Rattle.merc_flat.specs.Flat.{clause_node, clauses_fault};
ghost use Rattle.merc_type_check.specs.Checked.{Tells, head_of};
ghost use Rattle.merc_type_matching.specs.Kept.{AreKept};
ghost use Rattle.merc_type_check.specs.TypeNumbers.{AreDeclared};
ghost use Rattle.merc_bodies.specs.Bodies.{asked_body, body_of};
ghost use Rattle.merc_order.specs.Bound.{nothing};
ghost use Rattle.merc_order.specs.Procedures.{modes_of, order_fault, procedure_trees, query_from, IsQuery};
ghost use Rattle.merc_modes.specs.Told.{IsTold, fault_in};
ghost use Rattle.merc_grading.specs.Faults.{Body, all_finished, category_fault, finished, procedures_of, query_category_fault};
ghost use Rattle.merc_grading.specs.Fitting.{AreToldApart};
ghost use Rattle.merc_order_laws.specs.HeadTypes.{declared_arguments};
ghost use Rattle.merc_order_laws.specs.ProcedureBodies.{AreBodiesOf, IsAskedBody};
ghost use Rattle.merc_check.specs.Accepted.{AcceptsClauses, AcceptsGoal, AreGraded, IsGradedGoal, RefusesClauses, RefusesGoal, query_answers, query_names, type_mismatch};
ghost use Rattle.merc_check.specs.Forms.{IsFlatForm, answers_of};
ghost use Rattle.merc_check.specs.Untyped.{FindsUntyped};

use merc_base::{Detail, Fault, Name, Names, NoMemory, Refusal, Rule, Sequence, Span};
use merc_bodies::{Asked, asked_body, bodies};
use merc_categories::{check_categories, check_query_categories};
use merc_flat::{flatten, flatten_query};
use merc_goal_tree::{NodeRef, Nodes, Predicate, Var, Vars};
use merc_graded_tree::Nodes as OrderedNodes;
use merc_modes::{order, order_query};
use merc_name_resolution::{Callee, Known};
use merc_scopes::Occurrence;
use merc_tree::{Clause, Shape, TermRef};
use merc_type_check::{DeclaredTypes, is_typed};
use merc_type_matching::Matchings;
use std::alloc::Global;

/// The trees of a module's procedures: the goals of each predicate in each of its modes, in the order in which they run,
/// with their switches and categories. The module's types are told apart by their names and numbers of parameters.
///
/// # Errors
///
/// `Refused` says what is wrong with the first clause that has a fault, of the first kind that any clause has: the form
/// of its goals (rules 3 and 15), their variables and conjuncts (rule 16); an unknown predicate or constructor (rule 7);
/// types that do not agree (rule 8); goals without an order, or variables that are unbound or bound where they may not be
/// (rules 10, 11 and 12); a declared category that does not allow the inferred one, or a parallel conjunct that may fail
/// or answer twice (rules 13 and 14). `NoMemory` says that memory was refused.
pub(crate) fn check_clauses(
    alloc: Global,
    known: &Known<'_>,
    names: &Names,
) -> Result<OrderedNodes, Fault>
    requires { AreToldApart known.now.types }
    ensures accepted { IfOk result (λ trees. AcceptsClauses names.now known.now) }
    ensures graded { IfOk result (λ trees. AreGraded names.now known.now trees) }
    ensures refused { IfErr result (λ fault. IsRefusal (RefusesClauses names.now known.now) fault) }
{
    let forms = flatten(alloc, known, names)?;
    let trees = check_forms(alloc, known, &forms);
    // (a call, here and below, since it costs much to prove what is dropped)
    drop(forms);
    trees
}

// The trees of the procedures. The forms are those of the clauses, in order.
fn check_forms(alloc: Global, known: &Known<'_>, forms: &Nodes) -> Result<OrderedNodes, Fault>
    requires apart { AreToldApart known.now.types }
    requires forms { (form : Clause → Node) × (forms.now ≡ map form known.now.clauses) }
    ensures accepted { IfOk result (λ trees. (names : List (List ℕ)) → clauses_fault names known.now ≡ None → forms.now ≡ map (clause_node names known.now) known.now.clauses → AcceptsClauses names known.now) }
    ensures graded { IfOk result (λ trees. (names : List (List ℕ)) → forms.now ≡ map (clause_node names known.now) known.now.clauses → AreGraded names known.now trees) }
    ensures refused { IfErr result (λ fault. (names : List (List ℕ)) → clauses_fault names known.now ≡ None → forms.now ≡ map (clause_node names known.now) known.now.clauses → IsRefusal (RefusesClauses names known.now) fault) }
{
    if let Some(span) = untyped_clause(alloc, known, forms)? {
        return Err(Fault::Refused(type_mismatch(span)));
    }
    let ordered = check_order(alloc, known, forms)?;
    let trees = check_procedures(alloc, known, &ordered);
    drop(ordered);
    trees
}

// The trees of the procedures, each in an order. The forms are those of the clauses, in order.
fn check_order(alloc: Global, known: &Known<'_>, forms: &Nodes) -> Result<OrderedNodes, Fault>
    requires { (form : Clause → Node) × (forms.now ≡ map form known.now.clauses) }
    ensures told { (form : Clause → Node) → forms.now ≡ map form known.now.clauses → IsTold (order_fault known.now.preds (map (body_of form known.now.clauses) known.now.preds)) result }
    ensures trees { IfOk result (λ trees. (form : Clause → Node) → forms.now ≡ map form known.now.clauses → trees ≡ procedure_trees (modes_of known.now.preds) known.now.preds (map (body_of form known.now.clauses) known.now.preds)) }
{
    let module = known.module();
    let preds = module.preds.as_slice();
    let bodies = bodies(alloc, preds, module.clauses.as_slice(), forms)?;
    order(alloc, preds, &bodies)
}

// The trees of the procedures with their switches and categories.
fn check_procedures(
    alloc: Global,
    known: &Known<'_>,
    ordered: &OrderedNodes,
) -> Result<OrderedNodes, Fault>
    requires apart { AreToldApart known.now.types }
    requires count { length ordered.now ≡ length (procedures_of known.now.preds) }
    ensures told { (form : Clause → Node) (bodies : List Body) → ordered.now ≡ procedure_trees (modes_of known.now.preds) known.now.preds (map (body_of form known.now.clauses) known.now.preds) → AreBodiesOf known.now form (procedures_of known.now.preds) bodies → IsTold (category_fault known.now.types known.now.preds bodies) result }
    ensures graded { IfOk result (λ trees. (form : Clause → Node) (bodies : List Body) → ordered.now ≡ procedure_trees (modes_of known.now.preds) known.now.preds (map (body_of form known.now.clauses) known.now.preds) → AreBodiesOf known.now form (procedures_of known.now.preds) bodies → trees ≡ all_finished known.now.types known.now.preds (procedures_of known.now.preds) bodies) }
{
    check_categories(alloc, known, ordered)
}

/// A goal that is asked, as it runs.
#[derive(Drop)]
pub(crate) struct AskedGoal {
    /// Its tree, alone in its list: with its switches and categories.
    pub(crate) trees: OrderedNodes,
    /// Its answer variables, by their numbers in the tree.
    pub(crate) answers: Vars,
    /// Their names.
    pub(crate) names: Sequence<Name>,
}

// The tree of a goal that is asked, alone in its list, in an order but without switches and categories; and its answer
// variables, by their numbers in the tree.
#[derive(Drop)]
struct OrderedGoal {
    trees: OrderedNodes,
    answers: Vars,
}

/// The tree of a goal that is asked over a module.
///
/// # Errors
///
/// As for the clauses of a module.
pub(crate) fn check_goal(
    alloc: Global,
    known: &Known<'_>,
    goal: &TermRef<'_>,
    names: &Names,
) -> Result<AskedGoal, Fault>
    requires { AreToldApart known.now.types }
    ensures accepted { IfOk result (λ asked. AcceptsGoal names.now known.now goal.now) }
    ensures graded { IfOk result (λ asked. IsGradedGoal names.now known.now goal.now asked.trees) }
    ensures answers { IfOk result (λ asked. asked.answers ≡ query_answers names.now known.now goal.now) }
    ensures names { IfOk result (λ asked. asked.names ≡ query_names names.now goal.now) }
    ensures refused { IfErr result (λ fault. IsRefusal (RefusesGoal names.now known.now goal.now) fault) }
{
    let query = flatten_query(alloc, known, goal, names)?;
    let asked = match query.form.get(0) {
        Some(form) => check_form(alloc, known, &form, query.answers.as_slice(), goal.span()),
        None => unreachable!(),
    };
    drop(query);
    asked
}

// The tree of a goal that is asked, of this form and with these answer variables. Where it has no types, this is its span.
fn check_form(
    alloc: Global,
    known: &Known<'_>,
    form: &NodeRef<'_>,
    answers: &[Occurrence],
    span: Span,
) -> Result<AskedGoal, Fault>
    requires { AreToldApart known.now.types }
    ensures accepted { IfOk result (λ asked. (names : List (List ℕ)) (goal : Term) → IsFlatForm names known.now goal form.now answers.now → AcceptsGoal names known.now goal) }
    ensures graded { IfOk result (λ asked. (body : Body) → IsAskedBody known.now (answers_of form.now answers.now) (asked_body form.now) body → asked.trees ≡ finished known.now.types known.now.preds nothing body ∷ []) }
    ensures answers { IfOk result (λ asked. asked.answers ≡ answers_of form.now answers.now) }
    ensures names { IfOk result (λ asked. asked.names ≡ map (λ variable. variable.name) answers.now) }
    ensures refused { IfErr result (λ fault. (names : List (List ℕ)) (goal : Term) → IsFlatForm names known.now goal form.now answers.now → span ≡ span_of goal → IsRefusal (RefusesGoal names known.now goal) fault) }
{
    if !is_typed_goal(alloc, known, form)? {
        return Err(Fault::Refused(type_mismatch(span)));
    }
    let ordered = check_query_order(alloc, known, form, answers)?;
    with_categories(alloc, known, ordered, answers)
}

// Whether a goal that is asked, of this form, is typed.
fn is_typed_goal(alloc: Global, known: &Known<'_>, form: &NodeRef<'_>) -> Result<bool, NoMemory>
    ensures { IfOk result (λ typed. Tells typed known.now [] form.now) }
{
    let declared = DeclaredTypes::of(alloc, known)?;
    let mut matchings = Matchings::new(alloc);
    let typed = is_typed(alloc, known, &declared, &mut matchings, None, form);
    drop(matchings);
    drop(declared);
    typed
}

// The goal with its switches and categories, and with the names of its answer variables. There is one tree.
fn with_categories(
    alloc: Global,
    known: &Known<'_>,
    ordered: OrderedGoal,
    variables: &[Occurrence],
) -> Result<AskedGoal, Fault>
    requires apart { AreToldApart known.now.types }
    requires one { length ordered.trees ≡ 1 }
    ensures graded { IfOk result (λ asked. (answers : List ℕ) (goal : Node) (tree : OrderedNode) (body : Body) → ordered.trees ≡ tree ∷ [] → IsQuery (modes_of known.now.preds) answers goal tree → IsAskedBody known.now answers goal body → asked.trees ≡ finished known.now.types known.now.preds nothing body ∷ []) }
    ensures told { (answers : List ℕ) (goal : Node) (tree : OrderedNode) (body : Body) → ordered.trees ≡ tree ∷ [] → IsQuery (modes_of known.now.preds) answers goal tree → IsAskedBody known.now answers goal body → IsTold (query_category_fault known.now.types known.now.preds body) result }
    ensures answers { IfOk result (λ asked. asked.answers ≡ ordered.answers) }
    ensures names { IfOk result (λ asked. asked.names ≡ map (λ variable. variable.name) variables.now) }
{
    let trees = check_query_tree(alloc, known, &ordered.trees)?;
    match names_of(alloc, variables) {
        Ok(names) => Ok(AskedGoal {
            trees,
            answers: ordered.answers,
            names,
        }),
        Err(refused) => {
            drop(trees);
            drop(ordered);
            Err(refused.into())
        }
    }
}

// The tree of a goal that is asked, of this form and with these answer variables, in an order.
fn check_query_order(
    alloc: Global,
    known: &Known<'_>,
    form: &NodeRef<'_>,
    answers: &[Occurrence],
) -> Result<OrderedGoal, Fault>
    ensures told { IsTold (fault_in (query_from (modes_of known.now.preds) (answers_of form.now answers.now) (asked_body form.now))) result }
    ensures tree { IfOk result (λ asked. (tree : OrderedNode) × (asked.trees ≡ tree ∷ []) × IsQuery (modes_of known.now.preds) (answers_of form.now answers.now) (asked_body form.now) tree) }
    ensures answers { IfOk result (λ asked. asked.answers ≡ answers_of form.now answers.now) }
{
    let asked = body_with_answers(alloc, form, answers)?;
    let preds = known.module().preds.as_slice();
    match order_query(alloc, preds, asked.answers.as_slice(), &asked.goal.as_ref()) {
        Ok(trees) => Ok(OrderedGoal {
            trees,
            answers: asked.answers,
        }),
        Err(fault) => {
            drop(asked);
            Err(fault)
        }
    }
}

// The tree of a goal that is asked, with its switches and categories. There is one tree.
fn check_query_tree(
    alloc: Global,
    known: &Known<'_>,
    ordered: &OrderedNodes,
) -> Result<OrderedNodes, Fault>
    requires apart { AreToldApart known.now.types }
    requires one { length ordered.now ≡ 1 }
    ensures graded { IfOk result (λ trees. (answers : List ℕ) (goal : Node) (tree : OrderedNode) (body : Body) → ordered.now ≡ tree ∷ [] → IsQuery (modes_of known.now.preds) answers goal tree → IsAskedBody known.now answers goal body → trees ≡ finished known.now.types known.now.preds nothing body ∷ []) }
    ensures told { (answers : List ℕ) (goal : Node) (tree : OrderedNode) (body : Body) → ordered.now ≡ tree ∷ [] → IsQuery (modes_of known.now.preds) answers goal tree → IsAskedBody known.now answers goal body → IsTold (query_category_fault known.now.types known.now.preds body) result }
{
    let tree = match ordered.get(0) {
        Some(tree) => tree,
        None => unreachable!(),
    };
    check_query_categories(alloc, known, &tree)
}

// The body of a goal that is asked, of this form and with these answer variables.
fn body_with_answers(
    alloc: Global,
    form: &NodeRef<'_>,
    answers: &[Occurrence],
) -> Result<Asked, NoMemory>
    ensures goal { IfOk result (λ asked. asked.goal ≡ asked_body form.now) }
    ensures answers { IfOk result (λ asked. asked.answers ≡ answers_of form.now answers.now) }
{
    let variables = numbers_of(alloc, answers)?;
    asked_body(alloc, form, &variables)
}

// The names of variables.
fn names_of(alloc: Global, variables: &[Occurrence]) -> Result<Sequence<Name>, NoMemory>
    ensures { IfOk result (λ names. names ≡ map (λ variable. variable.name) variables.now) }
{
    let names = variables
        .iter()
        .map(|variable| variable.name)
        .collect(alloc)?;
    Ok(Sequence::from_vec(names))
}

// The numbers of variables.
fn numbers_of(alloc: Global, variables: &[Occurrence]) -> Result<Vec<Var>, NoMemory>
    ensures { IfOk result (λ numbers. numbers.items ≡ map (λ variable. variable.at) variables.now) }
{
    let mut numbers = Vec::new(alloc);
    for variable in variables {
        numbers.push(Var::new(variable.at))?;
    }
    Ok(numbers)
}

fn type_mismatch(span: Span) -> Refusal
    ensures { result ≡ type_mismatch span }
{
    Refusal {
        rule: Rule::TypeMismatch,
        place: span.start(),
        detail: Detail::Plain,
    }
}

// The span of the first clause that is not typed, None where all are. The forms are those of the clauses, in order.
fn untyped_clause(alloc: Global, known: &Known<'_>, forms: &Nodes) -> Result<Option<Span>, NoMemory>
    requires { length forms.now ≡ length known.now.clauses }
    ensures { IfOk result (λ found. (form : Clause → Node) → forms.now ≡ map form known.now.clauses → FindsUntyped known.now form found) }
{
    let declared = DeclaredTypes::of(alloc, known)?;
    let mut matchings = Matchings::new(alloc);
    let found = first_untyped(alloc, known, &declared, &mut matchings, forms);
    drop(matchings);
    drop(declared);
    found
}

// The same by the numbers of the declared types, with what is known of pairs of them.
fn first_untyped(
    alloc: Global,
    known: &Known<'_>,
    declared: &DeclaredTypes,
    matchings: &mut Matchings,
    forms: &Nodes,
) -> Result<Option<Span>, NoMemory>
    requires declared { AreDeclared known.now declared.now }
    requires kept { AreKept declared.now.table matchings.old }
    requires count { length forms.now ≡ length known.now.clauses }
    ensures { IfOk result (λ found. (form : Clause → Node) → forms.now ≡ map form known.now.clauses → FindsUntyped known.now form found) }
{
    for (index, clause) in known.module().clauses.as_slice().iter().enumerate() {
        let form = match forms.get(index) {
            Some(form) => form,
            None => unreachable!(),
        };
        if !is_typed_clause(alloc, known, declared, matchings, clause, &form)? {
            return Ok(Some(clause.span));
        }
    }
    Ok(None)
}

// Whether a clause of this form is typed. Where its head is that of no predicate, its arguments have any types.
fn is_typed_clause(
    alloc: Global,
    known: &Known<'_>,
    declared: &DeclaredTypes,
    matchings: &mut Matchings,
    clause: &Clause,
    form: &NodeRef<'_>,
) -> Result<bool, NoMemory>
    requires declared { AreDeclared known.now declared.now }
    requires kept { AreKept declared.now.table matchings.old }
    ensures typed { IfOk result (λ typed. Tells typed known.now (declared_arguments known.now clause.now.head) form.now) }
    ensures kept { AreKept declared.now.table matchings.new }
{
    let predicate = predicate_of(known, &clause.head.as_ref());
    is_typed(alloc, known, declared, matchings, predicate, form)
}

// The predicate whose head this is, None where there is none.
fn predicate_of(known: &Known<'_>, head: &TermRef<'_>) -> Option<Predicate>
    ensures { head_of known.now result ≡ declared_arguments known.now head.now }
{
    match head.shape() {
        Shape::Application { name, arity, .. } => match known.callee(name, None, arity) {
            Callee::Predicate(predicate) => Some(predicate),
            Callee::Error => None,
        },
        Shape::Variable(_) | Shape::Integer(_) | Shape::Text(_) => None,
    }
}
