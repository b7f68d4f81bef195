//! How a term is written, by its root.
ghost use Rattle.std.specs.Prelude.{◌≡◌};
ghost use Rattle.merc_term_text.specs.Written.{form_priority, is_comma_form, is_enclosed, term_form};
ghost use Rattle.merc_term_text.specs.Walking.{meant, arity_form, rest_form, operator_form};

use merc_base::Name;
use merc_terms::{Operator, infix, prefix};
use merc_tree::{Shape, TermRef};

/// How a term is written.
#[derive(Clone, Copy)]
pub(crate) enum Form {
    /// A list cell, as a list in brackets.
    List,
    /// An infix operator between its operands.
    Infix(Operator),
    /// A prefix operator before its operand.
    Prefix(Operator),
    /// A prefix operator before its variables and its goal.
    Quantifier(Operator),
    /// A variable, a literal, or a name with its arguments in parentheses.
    Plain,
}

impl Form {
    // The priority at which the form is read.
    fn priority(&self) -> u32
        ensures { result ≡ form_priority (meant self.now) }
    {
        match self {
            Form::List | Form::Plain => 0,
            Form::Infix(operator) => operator.priority,
            Form::Prefix(operator) => operator.priority,
            Form::Quantifier(operator) => operator.priority,
        }
    }

    // Whether the form is a chain of commas.
    fn is_comma(&self) -> bool
        ensures { result ≡ is_comma_form (meant self.now) }
    {
        match self {
            Form::Infix(operator) => operator.name == Name::COMMA,
            Form::List | Form::Prefix(_) | Form::Quantifier(_) | Form::Plain => false,
        }
    }

    /// Whether it stands in parentheses where terms of at most this priority may stand, commas being operators or not.
    pub(crate) fn is_enclosed(&self, max: u32, commas: bool) -> bool
        ensures { result ≡ is_enclosed max commas (meant self.now) }
    {
        max < self.priority() || (self.is_comma() && !commas)
    }
}

/// The form of a term.
pub(crate) fn form_of(term: &TermRef<'_>) -> Form
    ensures { meant result ≡ term_form term.now }
{
    match term.shape() {
        Shape::Application {
            name,
            qualifier,
            arity,
        } => {
            if qualifier.is_some() {
                Form::Plain
            } else {
                application_form(name, arity)
            }
        }
        Shape::Variable(_) | Shape::Integer(_) | Shape::Text(_) => Form::Plain,
    }
}

// The form of a name without a qualifier, with so many arguments.
fn application_form(name: Name, arity: usize) -> Form
    ensures { meant result ≡ arity_form name arity }
{
    if arity != 2 {
        return prefix_form(name, arity);
    }
    if name == Name::CONS {
        return Form::List;
    }
    match infix(name) {
        Some(operator) => Form::Infix(operator),
        None => prefix_form(name, arity),
    }
}

// The form of a name without a qualifier, with so many arguments, where it is neither a list nor an infix operator.
fn prefix_form(name: Name, arity: usize) -> Form
    ensures { meant result ≡ rest_form name arity }
{
    match prefix(name) {
        Some(operator) => operator_form(operator, arity),
        None => Form::Plain,
    }
}

// The form of a prefix operator's name with so many arguments.
fn operator_form(operator: Operator, arity: usize) -> Form
    ensures { meant result ≡ operator_form operator arity }
{
    if operator.fixity.takes_two() {
        if arity == 2 {
            Form::Quantifier(operator)
        } else {
            Form::Plain
        }
    } else if arity == 1 {
        Form::Prefix(operator)
    } else {
        Form::Plain
    }
}
