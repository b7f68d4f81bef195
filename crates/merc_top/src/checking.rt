//! The lines of a module that is checked.
ghost use Rattle.std.specs.Prelude.{◌≡◌, ◌≤◌, ◌+◌, ◌++◌, codes, drop, length, take, IfOk, OnOk};
ghost use Rattle.std.specs.Fmt.{decimal};
ghost use Rattle.merc_value.specs.Text.{name_text, text_at};
ghost use Rattle.merc_grading.specs.Faults.{with_modes, procedures_of};
ghost use Rattle.merc_grading.specs.Grading.{category_at};
ghost use Rattle.merc_top.specs.Checking.{check_lines, place_text, places_text, procedure_line, procedure_lines};
ghost use Rattle.merc_solving.specs.Lines.{line};

use crate::lines::push_number;
use merc_base::{Category, Name, Names, NoMemory, Sequence, Text};
use merc_graded_tree::{NodeRef, Nodes};
use merc_tree::{Arg, ModeDecl, Module, PredDecl};
use merc_value::{is_plain, quoted, text_of};
use std::alloc::Global;

/// The lines of an accepted module whose procedures have these trees: each procedure of the file, in order, with its
/// declared category and the one that its tree has, and last how many there are. The form of a line stands in
/// docs/COMMANDS.md.
///
/// # Errors
///
/// `NoMemory` where memory was refused.
pub fn check_lines(
    alloc: Global,
    names: &Names,
    module: &Module,
    trees: &Nodes,
) -> Result<Sequence<Text>, NoMemory>
    ensures { IfOk result (λ lines. length (procedures_of «module».now.preds) ≤ length trees.now → lines ≡ check_lines names.now «module».now trees.now) }
{
    let mut lines = Sequence::new(alloc);
    for declared in own_predicates(module) {
        push_modes(alloc, names, declared, trees, &mut lines)?;
    }
    let count = lines.as_slice().len();
    lines.push(procedures_line(alloc, count)?)?;
    Ok(lines)
}

// The last line, for so many procedures.
fn procedures_line(alloc: Global, count: usize) -> Result<Text, NoMemory>
    ensures { IfOk result (λ text. text ≡ line (codes "procedures " ++ decimal count)) }
{
    let mut text = Text::of(alloc, b"procedures ")?;
    push_number(alloc, count as u64, &mut text)?;
    text.push(b"\n")?;
    Ok(text)
}

// The predicates of the file, which stand before those of the library.
fn own_predicates(module: &Module) -> &[PredDecl]
    ensures { result.now ≡ take «module».now.own «module».now.preds }
{
    let all = module.preds.as_slice();
    all.get(..module.own).unwrap_or(all)
}

// Puts the lines of a predicate's modes behind others. So many lines there are, so many procedures were before.
fn push_modes(
    alloc: Global,
    names: &Names,
    declared: &PredDecl,
    trees: &Nodes,
    lines: &mut Sequence<Text>,
) -> Result<(), NoMemory>
    ensures { OnOk result (length lines.old + length declared.now.modes ≤ length trees.now → lines.new ≡ lines.old ++ procedure_lines names.now (with_modes declared.now declared.now.modes) (drop (length lines.old) trees.now)) }
{
    for mode in declared.modes.as_slice() {
        if let Some(tree) = trees.get(lines.as_slice().len()) {
            lines.push(procedure_line(alloc, names, declared, mode, &tree)?)?;
        }
    }
    Ok(())
}

// The line of a predicate's mode with this tree.
fn procedure_line(
    alloc: Global,
    names: &Names,
    declared: &PredDecl,
    mode: &ModeDecl,
    tree: &NodeRef<'_>,
) -> Result<Text, NoMemory>
    ensures { IfOk result (λ line. line ≡ procedure_line names.now (record { predicate = declared.now; mode = mode.now }) tree.now) }
{
    let mut line = Text::new(alloc);
    push_name(alloc, names, declared.name, &mut line)?;
    push_places(mode.args.as_slice(), &mut line)?;
    line.push(b" is ")?;
    line.push(mode.category.as_str().as_bytes())?;
    line.push(b", inferred ")?;
    line.push(category_of(tree).as_str().as_bytes())?;
    line.push(b"\n")?;
    Ok(line)
}

// The category of a goal that has one.
fn category_of(tree: &NodeRef<'_>) -> Category
    ensures { result ≡ category_at tree.now }
{
    match tree.category() {
        Some(category) => category,
        None => Category::Nondet,
    }
}

// Puts a name behind a text, within quotes unless it is plain.
fn push_name(alloc: Global, names: &Names, name: Name, line: &mut Text) -> Result<(), NoMemory>
    ensures { OnOk result (line.new ≡ line.old ++ name_text (text_at names.now name)) }
{
    let text = text_of(names, name);
    if is_plain(text) {
        line.push(text)
    } else {
        line.push(quoted(alloc, b'\'', text)?.bytes())
    }
}

// Puts the places of a mode behind a text, in brackets; nothing where there is none.
fn push_places(places: &[Arg], line: &mut Text) -> Result<(), NoMemory>
    ensures { OnOk result (line.new ≡ line.old ++ places_text places.now) }
{
    let mut before: &[u8] = b"(";
    for place in places {
        line.push(before)?;
        line.push(place_text(*place))?;
        before = b", ";
    }
    if !places.is_empty() {
        line.push(b")")?;
    }
    Ok(())
}

fn place_text(place: Arg) -> &'static [u8]
    ensures { result.now ≡ place_text place }
{
    match place {
        Arg::Input => b"in",
        Arg::Output => b"out",
    }
}
