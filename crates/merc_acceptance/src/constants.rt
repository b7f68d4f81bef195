//! That each constant of a name has its text, which no clause can say.
use crate::tally::Tally;
use merc_base::{Name, Names};
use std::io;

// How many constants there are. Their numbers begin with 0.
const COUNT: u64 = 98;

/// Counts the constants that have their texts as cases that passed, and tells each other one.
pub(crate) fn run<R: Print + AllocGlobal>(rt: &R, tally: &mut Tally) -> io::Result<()> {
    let names = Names::new(rt.alloc());
    count_all(rt, &names, tally)
}

fn count_all<R: Print>(rt: &R, names: &Names, tally: &mut Tally) -> io::Result<()> {
    for number in 0..COUNT {
        count_one(rt, names, Name::new(number), tally)?;
    }
    Ok(())
}

// Counts one constant, and tells it where it has another text.
fn count_one<R: Print>(rt: &R, names: &Names, name: Name, tally: &mut Tally) -> io::Result<()> {
    let text = text_due(name);
    let passed = names.text(name) == Some(text.as_bytes());
    tally.count(passed);
    if !passed {
        println!(rt; "constants: {text}")?;
    }
    Ok(())
}

// The text that a constant has to have. One arm each costs less to prove than a table of pairs in memory.
fn text_due(name: Name) -> &'static str {
    match name {
        Name::DIVISION_BY_ZERO => "division by zero",
        Name::NIL => "[]",
        Name::CONS => "[|]",
        Name::BRACES => "{}",
        Name::BANG => "!",
        Name::BANG_DOT => "!.",
        Name::BANG_COLON => "!:",
        Name::PRAGMA => "pragma",
        Name::MEMO => "memo",
        Name::SLASH => "/",
        Name::COLON_MINUS => ":-",
        Name::GRAMMAR_ARROW => "-->",
        Name::MODULE => "module",
        Name::END_MODULE => "end_module",
        Name::IMPORT_MODULE => "import_module",
        Name::MODE => "mode",
        Name::TYPE => "type",
        Name::TYPE_ARROW => "--->",
        Name::COLON_COLON => "::",
        Name::EQUAL_EQUAL => "==",
        Name::ELSE => "else",
        Name::IF => "if",
        Name::THEN => "then",
        Name::SEMICOLON => ";",
        Name::ARROW => "->",
        Name::AMPERSAND => "&",
        Name::COMMA => ",",
        Name::SOME => "some",
        Name::ALL => "all",
        Name::IMPLIES => "=>",
        Name::EQUIVALENT => "<=>",
        Name::NOT => "not",
        Name::NOT_PROVABLE => "\\+",
        Name::PRED => "pred",
        Name::FUNC => "func",
        Name::IS => "is",
        Name::EQUAL => "=",
        Name::NOT_EQUAL => "\\=",
        Name::LESS => "<",
        Name::GREATER => ">",
        Name::AT_MOST => "=<",
        Name::AT_LEAST => ">=",
        Name::PLUS => "+",
        Name::MINUS => "-",
        Name::STAR => "*",
        Name::SLASH_SLASH => "//",
        Name::DIV => "div",
        Name::MOD => "mod",
        Name::REM => "rem",
        Name::INTERFACE => "interface",
        Name::IMPLEMENTATION => "implementation",
        Name::TRUE => "true",
        Name::FAIL => "fail",
        Name::FALSE => "false",
        Name::ERROR => "error",
        Name::IN => "in",
        Name::OUT => "out",
        Name::INT => "int",
        Name::STRING => "string",
        Name::LIST => "list",
        Name::BOOL => "bool",
        Name::MAYBE => "maybe",
        Name::REQUIRE => "require",
        Name::DET => "det",
        Name::SEMIDET => "semidet",
        Name::MULTI => "multi",
        Name::NONDET => "nondet",
        Name::ERRONEOUS => "erroneous",
        Name::FAILURE => "failure",
        Name::CC_MULTI => "cc_multi",
        Name::CC_NONDET => "cc_nondet",
        Name::CHAR => "char",
        Name::FLOAT => "float",
        Name::UINT => "uint",
        Name::INT8 => "int8",
        Name::INT16 => "int16",
        Name::INT32 => "int32",
        Name::INT64 => "int64",
        Name::UINT8 => "uint8",
        Name::UINT16 => "uint16",
        Name::UINT32 => "uint32",
        Name::UINT64 => "uint64",
        Name::NO => "no",
        Name::YES => "yes",
        Name::APPEND => "append",
        Name::MEMBER => "member",
        Name::LENGTH => "length",
        Name::REVERSE => "reverse",
        Name::LIST_REVERSE_ONTO => "list_reverse_onto",
        Name::T => "T",
        Name::A => "A",
        Name::M => "M",
        Name::N => "N",
        Name::X => "X",
        Name::XS => "Xs",
        Name::YS => "Ys",
        Name::ZS => "Zs",
        Name::UNDERSCORE => "_",
        _ => "no constant has this number",
    }
}
