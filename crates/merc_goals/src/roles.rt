//! What a name with two arguments is in a goal.
ghost use Rattle.std.specs.Prelude.{◌≡◌};
ghost use Rattle.merc_goals.specs.Roles.{role_of, literal_role_of};

use merc_base::Name;

// What a name with two arguments is in a goal.
#[derive(Clone, Copy)]
pub(crate) enum Role {
    // `,`
    Conjunction,
    // `&`
    Parallel,
    // `;`
    Disjunction,
    // `else`
    Else,
    // `->` and `then` where they stand alone
    Misplaced,
    // `some`
    Existential,
    // `all`
    Universal,
    // `=`
    Equation,
    // `\=`
    Inequation,
    // `<`, `>`, `=<`, `>=`
    Comparison,
    // `=>`, `<=>`, `is`, `==`, `::`
    Unsupported,
    // any other name
    Call,
}

// A chain of one operator, which is one list however it is put in parentheses.
#[derive(Clone, Copy)]
pub(crate) enum ChainKind {
    // `,`
    Conjuncts,
    // `&`
    ParallelConjuncts,
    // `;`
    Disjuncts,
}

pub(crate) fn role_of(name: Name) -> Role
    ensures { result ≡ role_of name }
{
    if name == Name::COMMA {
        Role::Conjunction
    } else if name == Name::AMPERSAND {
        Role::Parallel
    } else if name == Name::SEMICOLON {
        Role::Disjunction
    } else if name == Name::ELSE {
        Role::Else
    } else if name == Name::ARROW || name == Name::THEN {
        Role::Misplaced
    } else if name == Name::SOME {
        Role::Existential
    } else if name == Name::ALL {
        Role::Universal
    } else {
        literal_role_of(name)
    }
}

// What a name with two arguments is that has no sub-goals.
fn literal_role_of(name: Name) -> Role
    ensures { result ≡ literal_role_of name }
{
    if name == Name::EQUAL {
        Role::Equation
    } else if name == Name::NOT_EQUAL {
        Role::Inequation
    } else if name == Name::LESS
        || name == Name::GREATER
        || name == Name::AT_MOST
        || name == Name::AT_LEAST
    {
        Role::Comparison
    } else if name == Name::IMPLIES
        || name == Name::EQUIVALENT
        || name == Name::IS
        || name == Name::EQUAL_EQUAL
        || name == Name::COLON_COLON
    {
        Role::Unsupported
    } else {
        Role::Call
    }
}
