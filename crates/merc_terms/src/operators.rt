//! The operator table.
ghost use Rattle.std.specs.Prelude.{◌≡◌, ◌==◌, ◌&&◌, not, map, find};
ghost use Rattle.std.specs.Option.{option_map};
ghost use Rattle.merc_terms.specs.OperatorRows.{operator_of};
ghost use Rattle.merc_terms.specs.Operators.{operators, is_infix, begins_y, ends_y, takes_two, infix_named, prefix_named, first_most, last_most};

use merc_base::Name;

/// How an operator takes its operands: `x` stands for a term below the operator's priority, `y` for one of at most
/// that priority.
#[derive(Clone, Copy)]
pub enum Fixity {
    /// Infix, both operands below.
    Xfx,
    /// Infix, a chain of which goes on to the right.
    Xfy,
    /// Infix, a chain of which goes on to the left.
    Yfx,
    /// Prefix, the operand below.
    Fx,
    /// Prefix, the operand at most as high.
    Fy,
    /// Prefix with two operands, the first below.
    Fxy,
}

/// A row of the operator table. A lower priority binds tighter.
#[derive(Clone, Copy)]
pub struct Operator {
    pub name: Name,
    /// 1 to 1200.
    pub priority: u32,
    pub fixity: Fixity,
}

impl Fixity {
    fn is_infix(&self) -> bool
        ensures { result ≡ is_infix self.now }
    {
        match self {
            Fixity::Xfx | Fixity::Xfy | Fixity::Yfx => true,
            Fixity::Fx | Fixity::Fy | Fixity::Fxy => false,
        }
    }

    // Whether the first of two operands may have the operator's priority.
    fn begins_y(&self) -> bool
        ensures { result ≡ begins_y self.now }
    {
        match self {
            Fixity::Yfx => true,
            Fixity::Xfx | Fixity::Xfy | Fixity::Fx | Fixity::Fy | Fixity::Fxy => false,
        }
    }

    // Whether the last operand may have the operator's priority.
    fn ends_y(&self) -> bool
        ensures { result ≡ ends_y self.now }
    {
        match self {
            Fixity::Xfy | Fixity::Fy | Fixity::Fxy => true,
            Fixity::Xfx | Fixity::Yfx | Fixity::Fx => false,
        }
    }

    /// Whether a prefix operator takes two operands.
    pub fn takes_two(&self) -> bool
        ensures { result ≡ takes_two self.now }
    {
        match self {
            Fixity::Fxy => true,
            Fixity::Xfx | Fixity::Xfy | Fixity::Yfx | Fixity::Fx | Fixity::Fy => false,
        }
    }
}

impl Operator {
    /// The greatest priority of the first of two operands.
    pub fn first_most(&self) -> u32
        ensures { result ≡ first_most self.now }
    {
        if self.fixity.begins_y() {
            self.priority
        } else {
            self.priority.saturating_sub(1)
        }
    }

    /// The greatest priority of the last operand, which is the only one where there is one.
    pub fn last_most(&self) -> u32
        ensures { result ≡ last_most self.now }
    {
        if self.fixity.ends_y() {
            self.priority
        } else {
            self.priority.saturating_sub(1)
        }
    }
}

// The operators by priority, fixity and name, the loosest first.
const ROWS: [(u32, Fixity, Name); 41] = [
    (1200, Fixity::Xfx, Name::COLON_MINUS),
    (1200, Fixity::Fx, Name::COLON_MINUS),
    (1200, Fixity::Xfx, Name::GRAMMAR_ARROW),
    (1199, Fixity::Fx, Name::MODULE),
    (1199, Fixity::Fx, Name::END_MODULE),
    (1199, Fixity::Fx, Name::IMPORT_MODULE),
    (1199, Fixity::Fx, Name::MODE),
    (1180, Fixity::Fx, Name::TYPE),
    (1179, Fixity::Xfy, Name::TYPE_ARROW),
    (1175, Fixity::Xfx, Name::COLON_COLON),
    (1175, Fixity::Xfx, Name::EQUAL_EQUAL),
    (1170, Fixity::Xfy, Name::ELSE),
    (1160, Fixity::Fx, Name::IF),
    (1150, Fixity::Xfx, Name::THEN),
    (1100, Fixity::Xfy, Name::SEMICOLON),
    (1050, Fixity::Xfy, Name::ARROW),
    (1025, Fixity::Xfy, Name::AMPERSAND),
    (1000, Fixity::Xfy, Name::COMMA),
    (950, Fixity::Fxy, Name::SOME),
    (950, Fixity::Fxy, Name::ALL),
    (920, Fixity::Xfy, Name::IMPLIES),
    (920, Fixity::Xfy, Name::EQUIVALENT),
    (900, Fixity::Fy, Name::NOT),
    (900, Fixity::Fy, Name::NOT_PROVABLE),
    (800, Fixity::Fx, Name::PRED),
    (800, Fixity::Fx, Name::FUNC),
    (701, Fixity::Xfx, Name::IS),
    (700, Fixity::Xfx, Name::EQUAL),
    (700, Fixity::Xfx, Name::NOT_EQUAL),
    (700, Fixity::Xfx, Name::LESS),
    (700, Fixity::Xfx, Name::GREATER),
    (700, Fixity::Xfx, Name::AT_MOST),
    (700, Fixity::Xfx, Name::AT_LEAST),
    (500, Fixity::Yfx, Name::PLUS),
    (500, Fixity::Yfx, Name::MINUS),
    (400, Fixity::Yfx, Name::STAR),
    (400, Fixity::Yfx, Name::SLASH_SLASH),
    (400, Fixity::Yfx, Name::DIV),
    (400, Fixity::Xfx, Name::MOD),
    (400, Fixity::Xfx, Name::REM),
    (200, Fixity::Fx, Name::MINUS),
];

fn operator_of(row: &(u32, Fixity, Name)) -> Operator
    ensures { result ≡ operator_of row.now }
{
    let (priority, fixity, name) = *row;
    Operator {
        name,
        priority,
        fixity,
    }
}

/// The infix operator of this name.
pub fn infix(name: Name) -> Option<Operator>
    ensures { result ≡ infix_named name }
{
    infix_in(&ROWS, name)
}

// The infix operator of this name, among the rows of the whole table.
fn infix_in(rows: &[(u32, Fixity, Name)], name: Name) -> Option<Operator>
    requires { map operator_of rows.now ≡ operators }
    ensures { result ≡ infix_named name }
{
    first_infix(rows, name)
}

fn first_infix(rows: &[(u32, Fixity, Name)], name: Name) -> Option<Operator>
    ensures { result ≡ option_map operator_of (find (λ row. (row.2 == name) && is_infix row.1) rows.now) }
{
    rows.iter()
        .find(|row| row.2 == name && row.1.is_infix())
        .map(operator_of)
}

/// The prefix operator of this name.
pub fn prefix(name: Name) -> Option<Operator>
    ensures { result ≡ prefix_named name }
{
    prefix_in(&ROWS, name)
}

// The prefix operator of this name, among the rows of the whole table.
fn prefix_in(rows: &[(u32, Fixity, Name)], name: Name) -> Option<Operator>
    requires { map operator_of rows.now ≡ operators }
    ensures { result ≡ prefix_named name }
{
    first_prefix(rows, name)
}

fn first_prefix(rows: &[(u32, Fixity, Name)], name: Name) -> Option<Operator>
    ensures { result ≡ option_map operator_of (find (λ row. (row.2 == name) && not (is_infix row.1)) rows.now) }
{
    rows.iter()
        .find(|row| row.2 == name && !row.1.is_infix())
        .map(operator_of)
}
