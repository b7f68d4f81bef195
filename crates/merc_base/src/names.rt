//! Names: texts that are kept once and compared by number.
ghost use Rattle.std.specs.Prelude.{◌≡◌, ◌+◌, Some, false, map, find, length, slice_get, MatchOption, IfOk, OnOk, OnErr};
ghost use Rattle.std.specs.List.{IsDistinct, enumerate_from};
ghost use Rattle.std.specs.Option.{option_copied, option_map};
ghost use Rattle.std.specs.Str.{bytes_eq};
ghost use Rattle.merc_base.specs.Names.{fixed_names, HoldsFixed};
ghost use Rattle.merc_base.specs.Texts.{is_among, with_text};

use crate::{NoMemory, TextTable};
use std::alloc::Global;
use std::marker::Model;

/// A name: the number of its text in a table of names. Names of one table are equal where their texts are.
#[derive(Clone, Copy, PartialEq, Eq, PartialOrd, Ord, Hash)]
pub struct Name(u64);

impl Model for Name {
    ghost use Rattle.std.specs.Prelude.{ℕ};

    ghost Value = { ℕ };

    ghost view = { λ n. n.0 };

    ghost inverse = { λ n. record { 0 = n } };
}

impl Name {
    /// The name of this number. Its text is that which a table has at the number, if it has one there.
    #[inline(always)]
    pub fn new(number: u64) -> Name
        ensures { result ≡ number }
    {
        Name(number)
    }

    /// The number of the name.
    #[inline(always)]
    pub fn number(self) -> u64
        ensures { result ≡ self }
    {
        self.0
    }
}

/// The constants, which every table of names holds from the start.
impl Name {
    /// `division by zero`
    pub const DIVISION_BY_ZERO: Name = Name(0);
    /// `[]`
    pub const NIL: Name = Name(1);
    /// `[|]`
    pub const CONS: Name = Name(2);
    /// `{}`
    pub const BRACES: Name = Name(3);
    /// `!`
    pub const BANG: Name = Name(4);
    /// `!.`
    pub const BANG_DOT: Name = Name(5);
    /// `!:`
    pub const BANG_COLON: Name = Name(6);
    /// `pragma`
    pub const PRAGMA: Name = Name(7);
    /// `memo`
    pub const MEMO: Name = Name(8);
    /// `/`
    pub const SLASH: Name = Name(9);

    /// `:-`
    pub const COLON_MINUS: Name = Name(10);
    /// `-->`
    pub const GRAMMAR_ARROW: Name = Name(11);
    /// `module`
    pub const MODULE: Name = Name(12);
    /// `end_module`
    pub const END_MODULE: Name = Name(13);
    /// `import_module`
    pub const IMPORT_MODULE: Name = Name(14);
    /// `mode`
    pub const MODE: Name = Name(15);
    /// `type`
    pub const TYPE: Name = Name(16);
    /// `--->`
    pub const TYPE_ARROW: Name = Name(17);
    /// `::`
    pub const COLON_COLON: Name = Name(18);
    /// `==`
    pub const EQUAL_EQUAL: Name = Name(19);
    /// `else`
    pub const ELSE: Name = Name(20);
    /// `if`
    pub const IF: Name = Name(21);
    /// `then`
    pub const THEN: Name = Name(22);
    /// `;`
    pub const SEMICOLON: Name = Name(23);
    /// `->`
    pub const ARROW: Name = Name(24);
    /// `&`
    pub const AMPERSAND: Name = Name(25);
    /// `,`
    pub const COMMA: Name = Name(26);
    /// `some`
    pub const SOME: Name = Name(27);
    /// `all`
    pub const ALL: Name = Name(28);
    /// `=>`
    pub const IMPLIES: Name = Name(29);
    /// `<=>`
    pub const EQUIVALENT: Name = Name(30);
    /// `not`
    pub const NOT: Name = Name(31);
    /// `\+`
    pub const NOT_PROVABLE: Name = Name(32);
    /// `pred`
    pub const PRED: Name = Name(33);
    /// `func`
    pub const FUNC: Name = Name(34);
    /// `is`
    pub const IS: Name = Name(35);
    /// `=`
    pub const EQUAL: Name = Name(36);
    /// `\=`
    pub const NOT_EQUAL: Name = Name(37);
    /// `<`
    pub const LESS: Name = Name(38);
    /// `>`
    pub const GREATER: Name = Name(39);
    /// `=<`
    pub const AT_MOST: Name = Name(40);
    /// `>=`
    pub const AT_LEAST: Name = Name(41);
    /// `+`
    pub const PLUS: Name = Name(42);
    /// `-`
    pub const MINUS: Name = Name(43);
    /// `*`
    pub const STAR: Name = Name(44);
    /// `//`
    pub const SLASH_SLASH: Name = Name(45);
    /// `div`
    pub const DIV: Name = Name(46);
    /// `mod`
    pub const MOD: Name = Name(47);
    /// `rem`
    pub const REM: Name = Name(48);

    /// `interface`
    pub const INTERFACE: Name = Name(49);
    /// `implementation`
    pub const IMPLEMENTATION: Name = Name(50);
    /// `true`
    pub const TRUE: Name = Name(51);
    /// `fail`
    pub const FAIL: Name = Name(52);
    /// `false`
    pub const FALSE: Name = Name(53);
    /// `error`
    pub const ERROR: Name = Name(54);
    /// `in`
    pub const IN: Name = Name(55);
    /// `out`
    pub const OUT: Name = Name(56);
    /// `int`
    pub const INT: Name = Name(57);
    /// `string`
    pub const STRING: Name = Name(58);
    /// `list`
    pub const LIST: Name = Name(59);
    /// `bool`
    pub const BOOL: Name = Name(60);
    /// `maybe`
    pub const MAYBE: Name = Name(61);
    /// `require`
    pub const REQUIRE: Name = Name(62);
    /// `det`
    pub const DET: Name = Name(63);
    /// `semidet`
    pub const SEMIDET: Name = Name(64);
    /// `multi`
    pub const MULTI: Name = Name(65);
    /// `nondet`
    pub const NONDET: Name = Name(66);
    /// `erroneous`
    pub const ERRONEOUS: Name = Name(67);
    /// `failure`
    pub const FAILURE: Name = Name(68);
    /// `cc_multi`
    pub const CC_MULTI: Name = Name(69);
    /// `cc_nondet`
    pub const CC_NONDET: Name = Name(70);
    /// `char`
    pub const CHAR: Name = Name(71);
    /// `float`
    pub const FLOAT: Name = Name(72);
    /// `uint`
    pub const UINT: Name = Name(73);
    /// `int8`
    pub const INT8: Name = Name(74);
    /// `int16`
    pub const INT16: Name = Name(75);
    /// `int32`
    pub const INT32: Name = Name(76);
    /// `int64`
    pub const INT64: Name = Name(77);
    /// `uint8`
    pub const UINT8: Name = Name(78);
    /// `uint16`
    pub const UINT16: Name = Name(79);
    /// `uint32`
    pub const UINT32: Name = Name(80);
    /// `uint64`
    pub const UINT64: Name = Name(81);

    // The words of the library units.
    /// `no`
    pub const NO: Name = Name(82);
    /// `yes`
    pub const YES: Name = Name(83);
    /// `append`
    pub const APPEND: Name = Name(84);
    /// `member`
    pub const MEMBER: Name = Name(85);
    /// `length`
    pub const LENGTH: Name = Name(86);
    /// `reverse`
    pub const REVERSE: Name = Name(87);
    /// `list_reverse_onto`
    pub const LIST_REVERSE_ONTO: Name = Name(88);
    /// `T`
    pub const T: Name = Name(89);
    /// `A`
    pub const A: Name = Name(90);
    /// `M`
    pub const M: Name = Name(91);
    /// `N`
    pub const N: Name = Name(92);
    /// `X`
    pub const X: Name = Name(93);
    /// `Xs`
    pub const XS: Name = Name(94);
    /// `Ys`
    pub const YS: Name = Name(95);
    /// `Zs`
    pub const ZS: Name = Name(96);
    /// `_`
    pub const UNDERSCORE: Name = Name(97);
}

// The constants with their texts, in the order of their numbers.
const FIXED: [(u64, &[u8]); 98] = [
    (Name::DIVISION_BY_ZERO.0, b"division by zero"),
    (Name::NIL.0, b"[]"),
    (Name::CONS.0, b"[|]"),
    (Name::BRACES.0, b"{}"),
    (Name::BANG.0, b"!"),
    (Name::BANG_DOT.0, b"!."),
    (Name::BANG_COLON.0, b"!:"),
    (Name::PRAGMA.0, b"pragma"),
    (Name::MEMO.0, b"memo"),
    (Name::SLASH.0, b"/"),
    (Name::COLON_MINUS.0, b":-"),
    (Name::GRAMMAR_ARROW.0, b"-->"),
    (Name::MODULE.0, b"module"),
    (Name::END_MODULE.0, b"end_module"),
    (Name::IMPORT_MODULE.0, b"import_module"),
    (Name::MODE.0, b"mode"),
    (Name::TYPE.0, b"type"),
    (Name::TYPE_ARROW.0, b"--->"),
    (Name::COLON_COLON.0, b"::"),
    (Name::EQUAL_EQUAL.0, b"=="),
    (Name::ELSE.0, b"else"),
    (Name::IF.0, b"if"),
    (Name::THEN.0, b"then"),
    (Name::SEMICOLON.0, b";"),
    (Name::ARROW.0, b"->"),
    (Name::AMPERSAND.0, b"&"),
    (Name::COMMA.0, b","),
    (Name::SOME.0, b"some"),
    (Name::ALL.0, b"all"),
    (Name::IMPLIES.0, b"=>"),
    (Name::EQUIVALENT.0, b"<=>"),
    (Name::NOT.0, b"not"),
    (Name::NOT_PROVABLE.0, b"\\+"),
    (Name::PRED.0, b"pred"),
    (Name::FUNC.0, b"func"),
    (Name::IS.0, b"is"),
    (Name::EQUAL.0, b"="),
    (Name::NOT_EQUAL.0, b"\\="),
    (Name::LESS.0, b"<"),
    (Name::GREATER.0, b">"),
    (Name::AT_MOST.0, b"=<"),
    (Name::AT_LEAST.0, b">="),
    (Name::PLUS.0, b"+"),
    (Name::MINUS.0, b"-"),
    (Name::STAR.0, b"*"),
    (Name::SLASH_SLASH.0, b"//"),
    (Name::DIV.0, b"div"),
    (Name::MOD.0, b"mod"),
    (Name::REM.0, b"rem"),
    (Name::INTERFACE.0, b"interface"),
    (Name::IMPLEMENTATION.0, b"implementation"),
    (Name::TRUE.0, b"true"),
    (Name::FAIL.0, b"fail"),
    (Name::FALSE.0, b"false"),
    (Name::ERROR.0, b"error"),
    (Name::IN.0, b"in"),
    (Name::OUT.0, b"out"),
    (Name::INT.0, b"int"),
    (Name::STRING.0, b"string"),
    (Name::LIST.0, b"list"),
    (Name::BOOL.0, b"bool"),
    (Name::MAYBE.0, b"maybe"),
    (Name::REQUIRE.0, b"require"),
    (Name::DET.0, b"det"),
    (Name::SEMIDET.0, b"semidet"),
    (Name::MULTI.0, b"multi"),
    (Name::NONDET.0, b"nondet"),
    (Name::ERRONEOUS.0, b"erroneous"),
    (Name::FAILURE.0, b"failure"),
    (Name::CC_MULTI.0, b"cc_multi"),
    (Name::CC_NONDET.0, b"cc_nondet"),
    (Name::CHAR.0, b"char"),
    (Name::FLOAT.0, b"float"),
    (Name::UINT.0, b"uint"),
    (Name::INT8.0, b"int8"),
    (Name::INT16.0, b"int16"),
    (Name::INT32.0, b"int32"),
    (Name::INT64.0, b"int64"),
    (Name::UINT8.0, b"uint8"),
    (Name::UINT16.0, b"uint16"),
    (Name::UINT32.0, b"uint32"),
    (Name::UINT64.0, b"uint64"),
    (Name::NO.0, b"no"),
    (Name::YES.0, b"yes"),
    (Name::APPEND.0, b"append"),
    (Name::MEMBER.0, b"member"),
    (Name::LENGTH.0, b"length"),
    (Name::REVERSE.0, b"reverse"),
    (Name::LIST_REVERSE_ONTO.0, b"list_reverse_onto"),
    (Name::T.0, b"T"),
    (Name::A.0, b"A"),
    (Name::M.0, b"M"),
    (Name::N.0, b"N"),
    (Name::X.0, b"X"),
    (Name::XS.0, b"Xs"),
    (Name::YS.0, b"Ys"),
    (Name::ZS.0, b"Zs"),
    (Name::UNDERSCORE.0, b"_"),
];

/// Texts by number, each of them once. It is seen as the list of the texts.
#[derive(Drop)]
pub struct Names {
    added: TextTable,
}

impl Model for Names {
    ghost use Rattle.std.specs.Prelude.{List, ℕ, ◌++◌};
    ghost use Rattle.std.specs.List.{IsDistinct};
    ghost use Rattle.std.specs.Str.{bytes_eq};
    ghost use Rattle.merc_base.specs.Names.{fixed_names};

    ghost Value = { List (List ℕ) };

    ghost view = { λ names. fixed_names ++ names.added };

    ghost invariant = { λ names. IsDistinct bytes_eq (fixed_names ++ names.added) };
}

impl Names {
    /// A table of the constants alone. It takes no memory before another name is wanted.
    pub fn new(alloc: Global) -> Names
        ensures { result ≡ fixed_names }
    {
        Names {
            added: TextTable::new(alloc),
        }
    }

    /// The name of this text, which is added where the table lacks it. A name that was given before keeps its
    /// text. Where memory is refused the table is unchanged.
    pub fn intern(&mut self, text: &[u8]) -> Result<Name, NoMemory>
        ensures known { IfOk result (λ name. slice_get self.new name ≡ Some text.now) }
        ensures ok { OnOk result (self.new ≡ with_text self.old text.now) }
        ensures err { OnErr result (self.new ≡ self.old) }
        ensures distinct { IsDistinct bytes_eq self.new }
        ensures fixed { HoldsFixed self.new }
    {
        let added = &mut self.added;
        if let Some(number) = fixed_number(text) {
            return Ok(Name(number));
        }
        let place = added.add(text)?;
        Ok(Name((FIXED.len() + place) as u64))
    }

    /// The text of a name, or `None` for a name of another table that has no text here.
    pub fn text(&self, name: Name) -> Option<&[u8]>
        ensures value { option_copied result ≡ slice_get self.now name }
        ensures distinct { IsDistinct bytes_eq self.now }
        ensures fixed { HoldsFixed self.now }
    {
        let added = &self.added;
        let number = name.0 as usize;
        if number < FIXED.len() {
            return fixed_text(number);
        }
        added.text(number - FIXED.len())
    }

    /// A number behind those of the table's names: no text has it, and each offset gives another.
    pub fn beyond(&self, offset: u32) -> Name
        ensures { result ≡ length self.now + offset }
    {
        let added = &self.added;
        let count = FIXED.len() + added.len();
        Name(count as u64 + u64::from(offset))
    }
}

// The constants with their texts: the number of each is the place of its text.
fn fixed_table() -> &'static [(u64, &'static [u8])]
    ensures { map (λ entry. (entry.0, entry.1.now)) result.now ≡ enumerate_from 0 fixed_names }
{
    &FIXED
}

// The text of the constant of this number.
fn fixed_text(number: usize) -> Option<&'static [u8]>
    ensures { option_copied result ≡ slice_get fixed_names number }
{
    text_in(fixed_table(), number)
}

// The text at a place of a table.
fn text_in<'a>(table: &[(u64, &'a [u8])], number: usize) -> Option<&'a [u8]>
    ensures { option_copied result ≡ option_map (λ entry. entry.1.now) (slice_get table.now number) }
{
    table.get(number).map(|entry| entry.1)
}

// The number of the constant that has this text.
fn fixed_number(text: &[u8]) -> Option<u64>
    ensures { MatchOption result (is_among text.now fixed_names ≡ false) (λ number. slice_get fixed_names number ≡ Some text.now) }
{
    number_in(fixed_table(), text)
}

// The number that stands beside this text in a table.
fn number_in(table: &[(u64, &[u8])], text: &[u8]) -> Option<u64>
    ensures { result ≡ option_map (λ entry. entry.0) (find (λ entry. bytes_eq text.now entry.1.now) table.now) }
{
    table
        .iter()
        .find(|entry| text == entry.1)
        .map(|entry| entry.0)
}
