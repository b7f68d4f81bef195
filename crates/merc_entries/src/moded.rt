//! Whether a predicate is declared together with its mode.
ghost use Rattle.std.specs.Prelude.{◌≡◌};
ghost use Rattle.std.specs.List.{list_all};
ghost use Rattle.merc_item_forms.specs.Forms.{is_moded};
ghost use Rattle.merc_entries.specs.Entries.{has_mode};

use merc_item_forms::is_moded;
use merc_tree::{Arguments, TermRef};

/// Whether a predicate's declaration has its mode with it: each argument has one, or there are no arguments and a
/// category stands behind.
pub fn has_mode(head: &TermRef<'_>, category: &Option<TermRef<'_>>) -> bool
    ensures { result ≡ has_mode head.now category.now }
{
    let arguments = head.arguments();
    if arguments.len() == 0 {
        category.is_some()
    } else {
        are_moded(arguments)
    }
}

fn are_moded(mut arguments: Arguments<'_>) -> bool
    ensures { result ≡ list_all is_moded arguments.entry }
{
    while let Some(last) = arguments.take_last() {
        if !is_moded(&last) {
            return false;
        }
    }
    true
}
