//! Makes the text of a module of so many predicates.
ghost use Rattle.std.specs.Prelude.{◌≡◌, ◌+◌, ◌*◌, ◌≤◌, ◌++◌, IfOk, OnOk};
ghost use Rattle.std.specs.Fmt.{decimal};
ghost use Rattle.merc_grow.specs.Grown.{clause, declaration, first_called, grown, predicate_limit, second_called, seed};

use merc_base::{NoMemory, Text};
use std::alloc::Global;

/// The text of the module with so many predicates, 1 to 2,000. The form of its lines stands in docs/COMMANDS.md.
///
/// # Errors
///
/// `NoMemory` where memory was refused.
pub fn grown(alloc: Global, count: u64) -> Result<Text, NoMemory>
    requires some { 1 ≤ count }
    requires bound { count ≤ predicate_limit }
    ensures { IfOk result (λ text. text ≡ grown count) }
{
    let mut text = Text::of(alloc, b":- module grown.\n:- import_module int.\n")?;
    for before in 0..count {
        push_declaration(alloc, before + 1, &mut text)?;
        push_clause(alloc, count, before + 1, &mut text)?;
    }
    Ok(text)
}

// Puts the declaration of the predicate of this number behind a text.
fn push_declaration(alloc: Global, number: u64, text: &mut Text) -> Result<(), NoMemory>
    ensures { OnOk result (text.new ≡ text.old ++ declaration number) }
{
    push_numbered(alloc, b":- pred p", number, text)?;
    text.push(b"(int::in, int::out) is det.\n")
}

// Puts the clause of the predicate of this number, of so many, behind a text.
fn push_clause(alloc: Global, count: u64, number: u64, text: &mut Text) -> Result<(), NoMemory>
    requires some { 1 ≤ count }
    requires bound { number ≤ predicate_limit }
    ensures { OnOk result (text.new ≡ text.old ++ clause count number) }
{
    let first = 1 + (7 * number + 3) % count;
    let second = 1 + (5 * number + 1) % count;
    push_numbered(alloc, b"p", number, text)?;
    push_numbered(
        alloc,
        b"(X, Y) :- ( if X =< 0 then Y = ",
        (37 * number + 11) % 1000,
        text,
    )?;
    push_numbered(alloc, b" else ( p", first, text)?;
    push_numbered(alloc, b"(X - 1, A) & p", second, text)?;
    text.push(b"(X - 1, B) ), Y = (A + B) mod 1000000 ).\n")
}

// Puts these words and a number behind a text.
fn push_numbered(alloc: Global, words: &[u8], number: u64, text: &mut Text) -> Result<(), NoMemory>
    ensures { OnOk result (text.new ≡ text.old ++ words.now ++ decimal number) }
{
    text.push(words)?;
    text.push(number.to_string(alloc)?.as_bytes())
}
