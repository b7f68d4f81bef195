//! Refusals: the rule that a text breaks, the place of it, and the words for both.
ghost use Rattle.std.specs.Prelude.{◌≡◌, Some, IfOk};
ghost use Rattle.std.specs.Fmt.{DisplaysOnOk};
ghost use Rattle.merc_base.specs.FirstFault.{comes_first};
ghost use Rattle.merc_base.specs.Refusal.{rule_number, rule_text, construct_word, limit_word, detail_text, refusal_text};

use crate::{Category, NoMemory, Place};
use std::alloc::{AllocError, AllocFailed};
use std::fmt;

/// The rules that a program and a goal must keep, by number from 1.
#[derive(Clone, Copy)]
pub enum Rule {
    /// 1: each token is well formed.
    BadToken = 1,
    /// 2: a term stands wherever one is wanted.
    NoTerm = 2,
    /// 3: each item is a declaration, a clause or a goal of a known form.
    WrongForm = 3,
    /// 4: each type that is named is declared.
    UnknownType = 4,
    /// 5: nothing is declared twice.
    DeclaredTwice = 5,
    /// 6: each clause has a declaration, and each declaration has clauses.
    Undeclared = 6,
    /// 7: each predicate and constructor that is named is declared.
    UnknownName = 7,
    /// 8: types agree.
    TypeMismatch = 8,
    /// 9: modes and category are declared.
    MissingMode = 9,
    /// 10: conjuncts can be put in an order in which each has its inputs.
    NeverReady = 10,
    /// 11: a negated goal and a condition bind no outer variable.
    BindsOuter = 11,
    /// 12: outputs are bound, and all arms bind the same.
    UnboundOutput = 12,
    /// 13: the declared category allows the inferred one.
    WrongCategory = 13,
    /// 14: each parallel conjunct has a category that is allowed there.
    ParallelCategory = 14,
    /// 15: the text keeps to the supported part of the language.
    OutsideProfile = 15,
    /// 16: no limit of the compiler is passed.
    LimitPassed = 16,
}

impl Rule {
    /// The number of the rule, 1 to 16.
    pub fn number(self) -> u8
        ensures { result ≡ rule_number self }
    {
        self as u8
    }

    /// What is said where the rule is broken, or the front of it where a detail follows.
    pub fn text(self) -> &'static str
        ensures { result.now ≡ rule_text self }
    {
        match self {
            Rule::BadToken => "bad token",
            Rule::NoTerm => "no term can be read here",
            Rule::WrongForm => "not a declaration, clause or goal of this form",
            Rule::UnknownType => "unknown type",
            Rule::DeclaredTwice => "declared twice",
            Rule::Undeclared => "a clause and its declaration do not go together",
            Rule::UnknownName => "unknown predicate or constructor",
            Rule::TypeMismatch => "types do not agree",
            Rule::MissingMode => "mode or category is missing",
            Rule::NeverReady => "conjunct is never ready",
            Rule::BindsOuter => "a negated goal or condition binds an outer variable",
            Rule::UnboundOutput => "outputs are unbound or arms differ",
            Rule::WrongCategory => "declared",
            Rule::ParallelCategory => "parallel conjunct",
            Rule::OutsideProfile => "outside the profile",
            Rule::LimitPassed => "limit",
        }
    }
}

/// What stands outside the supported part of the language.
#[derive(Clone, Copy)]
pub enum Construct {
    Character,
    Float,
    IntegerSuffix,
    Declaration,
    Import,
    ModeName,
    Category,
    Type,
    Function,
    GrammarRule,
    Goal,
}

impl Construct {
    /// The words for it.
    pub fn word(self) -> &'static str
        ensures { result.now ≡ construct_word self }
    {
        match self {
            Construct::Character => "character",
            Construct::Float => "float",
            Construct::IntegerSuffix => "integer suffix",
            Construct::Declaration => "declaration",
            Construct::Import => "import",
            Construct::ModeName => "mode name",
            Construct::Category => "category",
            Construct::Type => "type",
            Construct::Function => "function",
            Construct::GrammarRule => "grammar rule",
            Construct::Goal => "goal",
        }
    }
}

/// What the compiler limits.
#[derive(Clone, Copy)]
pub enum LimitName {
    /// The bytes of the goal's text.
    GoalText,
    /// The bytes of a name.
    Name,
    /// The size of an integer.
    Integer,
    /// How deep constructs stand in each other.
    Nesting,
    /// The arguments of a predicate or a constructor.
    Arity,
    /// The variables of a clause or a goal.
    Variables,
    /// The conjuncts of a parallel conjunction.
    Conjuncts,
    /// The modes of a predicate.
    Modes,
}

impl LimitName {
    /// The words for it.
    pub fn word(self) -> &'static str
        ensures { result.now ≡ limit_word self }
    {
        match self {
            LimitName::GoalText => "goal text",
            LimitName::Name => "name",
            LimitName::Integer => "integer",
            LimitName::Nesting => "nesting",
            LimitName::Arity => "arity",
            LimitName::Variables => "variables",
            LimitName::Conjuncts => "conjuncts",
            LimitName::Modes => "modes",
        }
    }
}

/// What a refusal says beside its rule.
#[derive(Clone, Copy)]
pub enum Detail {
    /// Nothing.
    Plain,
    /// What stands outside the supported part of the language.
    Word(Construct),
    /// Which limit is passed.
    Limit(LimitName),
    /// Two conjuncts of a parallel conjunction, by number from 1: the first needs the second.
    Pair(u32, u32),
    /// The declared category, and the inferred one.
    Categories(Category, Category),
    /// A conjunct of a parallel conjunction, by number from 1, and its category.
    Conjunct(u32, Category),
}

impl Detail {
    /// The number of a conjunct as a detail has it; `NoMemory` where it is 2 ^ 32 or more, which the limits on a text rule
    /// out.
    pub fn conjunct_number(number: usize) -> Result<u32, NoMemory>
        ensures { IfOk result (λ same. same ≡ number) }
    {
        match u32::try_from(number) {
            Ok(same) => Ok(same),
            Err(_) => Err(NoMemory),
        }
    }
}

/// A rule that a text breaks, and where.
#[derive(Clone, Copy)]
pub struct Refusal {
    pub rule: Rule,
    pub place: Place,
    pub detail: Detail,
}

impl Refusal {
    /// Whether it comes before the other: it stands at the lesser byte, or at the same byte and is of no greater rule.
    pub fn comes_first(&self, other: &Refusal) -> bool
        ensures { result ≡ comes_first self.now other.now }
    {
        self.place.byte < other.place.byte
            || (self.place.byte == other.place.byte && self.rule.number() <= other.rule.number())
    }
}

/// Writes the rule's number and text, without the place.
impl fmt::Display for Refusal {
    ghost output = { λ refusal. Some (refusal_text refusal) };

    fn fmt<W: fmt::Write>(&self, f: &mut fmt::Formatter<W>) -> fmt::Result {
        let number = self.rule.number();
        write!(f, "rule {number}: ")?;
        write_detail(self.rule, self.detail, f)
    }
}

// Writes the text of a refusal behind its number.
fn write_detail<W: fmt::Write>(rule: Rule, detail: Detail, f: &mut fmt::Formatter<W>) -> fmt::Result
    ensures { DisplaysOnOk W.write_str_gives f.old result (Some (detail_text rule detail)) f.new }
{
    match detail {
        Detail::Plain => f.write_str(rule.text()),
        Detail::Word(construct) => {
            let word = construct.word();
            write!(f, "outside the profile: {word}")
        }
        Detail::Limit(limit) => {
            let word = limit.word();
            write!(f, "limit: {word}")
        }
        Detail::Pair(one, other) => write!(f, "parallel conjunct {one} needs conjunct {other}"),
        Detail::Categories(declared, inferred) => {
            write!(f, "declared {declared}, inferred {inferred}")
        }
        Detail::Conjunct(number, category) => {
            write!(f, "parallel conjunct {number} is {category}")
        }
    }
}

/// Why a text gave nothing.
#[derive(Clone, Copy)]
pub enum Fault {
    /// The text breaks a rule.
    Refused(Refusal),
    /// Memory was refused.
    NoMemory,
}

impl From<NoMemory> for Fault {
    ghost use Rattle.std.specs.Prelude.{◌≡◌};
    ghost use Rattle.merc_base.specs.declared.refusal.Fault.TheVariants.{NoMemory as fault_no_memory};

    ghost from_gives = { λ _ fault. fault ≡ fault_no_memory };

    fn from(_: NoMemory) -> Self {
        Fault::NoMemory
    }
}

impl From<AllocError> for Fault {
    ghost use Rattle.std.specs.Prelude.{◌≡◌};
    ghost use Rattle.merc_base.specs.declared.refusal.Fault.TheVariants.{NoMemory as fault_no_memory};

    ghost from_gives = { λ _ fault. fault ≡ fault_no_memory };

    fn from(_: AllocError) -> Self {
        Fault::NoMemory
    }
}

impl<T: Drop> From<AllocFailed<T>> for Fault {
    ghost use Rattle.std.specs.Prelude.{◌≡◌};
    ghost use Rattle.merc_base.specs.declared.refusal.Fault.TheVariants.{NoMemory as fault_no_memory};

    ghost from_gives = { λ _ fault. fault ≡ fault_no_memory };

    fn from(_: AllocFailed<T>) -> Self {
        Fault::NoMemory
    }
}
