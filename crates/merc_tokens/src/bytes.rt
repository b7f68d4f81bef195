//! Classes of bytes, and the longest runs of them.
ghost use Rattle.std.specs.Prelude.{◌≡◌, ◌≤◌, ◌==◌, length, drop};
ghost use Rattle.std.specs.List.{prefix_len};
ghost use Rattle.merc_tokens.specs.Bytes.{is_word, is_letter, is_graphic, digit_of, is_digit_of, start_of, class_test, begins_with, next_is};

// The bytes that graphic names are made of.
const GRAPHIC: &[u8] = b"+-*/\\^<>=~:.?@#&$";

/// What a piece of text may begin with.
#[derive(Clone, Copy)]
pub enum Start {
    Blank,
    Percent,
    Lower,
    /// An upper-case letter or `_`.
    Upper,
    Digit,
    Quote,
    DoubleQuote,
    Semicolon,
    Open,
    Close,
    OpenList,
    CloseList,
    Comma,
    Bar,
    /// A character that the supported part of the language does not have.
    Outside,
    Graphic,
    /// Begins nothing.
    Other,
}

/// What the longest runs of bytes in a text are made of.
#[derive(Clone, Copy)]
pub enum Class {
    /// Letters, digits and `_`.
    Word,
    Graphic,
    /// Whatever stands in a line.
    Line,
    /// Digits of this base and `_`.
    Digits(u8),
}

impl Class {
    fn has(self, byte: u8) -> bool
        ensures { result ≡ class_test self byte }
    {
        match self {
            Class::Word => is_word(byte),
            Class::Graphic => is_graphic(byte),
            Class::Line => byte != b'\n',
            Class::Digits(base) => is_digit_of(base, byte) || byte == b'_',
        }
    }
}

fn is_word(byte: u8) -> bool
    ensures { result ≡ is_word byte }
{
    byte.is_ascii_alphanumeric() || byte == b'_'
}

fn is_letter(byte: u8) -> bool
    ensures { result ≡ is_letter byte }
{
    byte.is_ascii_alphabetic() || byte == b'_'
}

fn is_graphic(byte: u8) -> bool
    ensures { result ≡ is_graphic byte }
{
    GRAPHIC.iter().any(|graphic| byte == *graphic)
}

/// The value of a digit of base 16, and 255 for any other byte.
pub fn digit_of(byte: u8) -> u8
    ensures { result ≡ digit_of byte }
{
    match byte {
        b'0'..=b'9' => byte - b'0',
        b'a'..=b'f' => byte - b'a' + 10,
        b'A'..=b'F' => byte - b'A' + 10,
        _ => 255,
    }
}

/// Whether a byte is a digit of this base, which is at most 16.
pub fn is_digit_of(base: u8, byte: u8) -> bool
    ensures { result ≡ is_digit_of base byte }
{
    digit_of(byte) < base
}

/// What a piece of text may begin with, by its first byte.
pub fn start_of(byte: u8) -> Start
    ensures { result ≡ start_of byte }
{
    match byte {
        b' ' | b'\t' | b'\n' | b'\r' => Start::Blank,
        b'%' => Start::Percent,
        b'a'..=b'z' => Start::Lower,
        b'A'..=b'Z' | b'_' => Start::Upper,
        b'0'..=b'9' => Start::Digit,
        b'\'' => Start::Quote,
        b'"' => Start::DoubleQuote,
        b';' => Start::Semicolon,
        b'(' => Start::Open,
        b')' => Start::Close,
        b'[' => Start::OpenList,
        b']' => Start::CloseList,
        b',' => Start::Comma,
        b'|' => Start::Bar,
        b'!' | b'{' | b'}' | b'`' => Start::Outside,
        byte if is_graphic(byte) => Start::Graphic,
        _ => Start::Other,
    }
}

/// How many bytes of the class a text begins with.
pub fn run_len(text: &[u8], class: Class) -> usize
    ensures bound { result ≤ length text.now }
    ensures count { result ≡ prefix_len (class_test class) text.now }
{
    text.iter().take_while(|byte| class.has(**byte)).count()
}

/// Whether a text begins with this byte.
pub fn next_is(byte: u8, text: &[u8]) -> bool
    ensures { result ≡ next_is byte text.now }
{
    match text {
        [] => false,
        [first, ..] => *first == byte,
    }
}

/// Whether a text begins with a letter or `_`.
pub fn begins_with_letter(text: &[u8]) -> bool
    ensures { result ≡ begins_with is_letter text.now }
{
    match text {
        [] => false,
        [first, ..] => is_letter(*first),
    }
}

/// Whether a text begins with a graphic byte.
pub fn begins_with_graphic(text: &[u8]) -> bool
    ensures { result ≡ begins_with is_graphic text.now }
{
    match text {
        [] => false,
        [first, ..] => is_graphic(*first),
    }
}

/// Whether a text begins with a digit of this base.
pub fn begins_with_digit(base: u8, text: &[u8]) -> bool
    ensures { result ≡ begins_with (is_digit_of base) text.now }
{
    match text {
        [] => false,
        [first, ..] => is_digit_of(base, *first),
    }
}

/// A text without its first bytes.
pub fn behind(text: &[u8], len: usize) -> &[u8]
    requires { len ≤ length text.now }
    ensures { result.now ≡ drop len text.now }
{
    &text[len..]
}
