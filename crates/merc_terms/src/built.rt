//! Terms that are being built.
ghost use Rattle.std.specs.Prelude.{◌≡◌, ◌≤◌, ◌<◌, ◌+◌, [], false, length, Some, None, if◌then◌else◌, OnOk, IfOk};
ghost use Rattle.merc_terms.specs.Outcomes.{PassesLimit};
ghost use Rattle.merc_tree.specs.Term.{Variable, Text};
ghost use Rattle.merc_terms.specs.Reader.{fits, integer_of, with_term, with_integer, with_application, with_cells, with_list, with_enclosed};

use merc_base::{LimitName, Name, NoMemory, Span};
use merc_tree::Terms;
use std::alloc::Global;

/// How deep a term may be nested.
const NESTING_LIMIT: usize = 256;

/// The terms so far, and whether an integer among them passes the limit. Such a one stands as 0.
#[derive(Drop)]
pub(crate) struct Built {
    pub(crate) terms: Terms,
    pub(crate) is_great: bool,
}

impl Built {
    pub(crate) fn new(alloc: Global) -> Built
        ensures terms { result.terms ≡ [] }
        ensures great { result.is_great ≡ false }
    {
        Built {
            terms: Terms::new(alloc),
            is_great: false,
        }
    }

    pub(crate) fn push_variable(&mut self, name: Name, span: Span) -> Result<(), NoMemory>
        ensures { OnOk result (self.new ≡ with_term (Variable name span) self.old) }
    {
        self.terms.push_variable(name, span)
    }

    pub(crate) fn push_text(&mut self, name: Name, span: Span) -> Result<(), NoMemory>
        ensures { OnOk result (self.new ≡ with_term (Text name span) self.old) }
    {
        self.terms.push_text(name, span)
    }

    /// Puts an integer of this magnitude behind the others.
    pub(crate) fn push_integer(
        &mut self,
        negative: bool,
        magnitude: u64,
        span: Span,
    ) -> Result<(), NoMemory>
        ensures { OnOk result (self.new ≡ with_integer negative magnitude span self.old) }
    {
        match integer(negative, magnitude) {
            Some(value) => self.terms.push_integer(value, span),
            None => {
                self.is_great = true;
                self.terms.push_integer(0, span)
            }
        }
    }

    /// Makes the last `arity` terms the arguments of one application.
    pub(crate) fn apply(
        &mut self,
        name: Name,
        qualifier: Option<Name>,
        arity: usize,
        span: Span,
    ) -> Result<(), NoMemory>
        requires { arity ≤ length self.old.terms }
        ensures { OnOk result (self.new ≡ with_application name qualifier arity span self.old) }
    {
        self.terms.apply(name, qualifier, arity, span)
    }

    /// Makes the last terms a list: so many items, and what follows its bar.
    pub(crate) fn apply_cells(&mut self, count: usize, span: Span) -> Result<(), NoMemory>
        requires { count + 1 ≤ length self.old.terms }
        ensures { OnOk result (self.new ≡ with_cells count span self.old) }
    {
        let mut left = count;
        while left > 0 {
            self.apply(Name::CONS, None, 2, span)?;
            left -= 1;
        }
        Ok(())
    }

    /// Makes the last terms, so many, the items of a list.
    pub(crate) fn apply_list(&mut self, count: usize, span: Span) -> Result<(), NoMemory>
        requires { count ≤ length self.old.terms }
        ensures { OnOk result (self.new ≡ with_list count span self.old) }
    {
        self.apply(Name::NIL, None, 0, span)?;
        self.apply_cells(count, span)
    }

    /// The limit that the last term passes, that on integers first.
    pub(crate) fn passed_limit(&self, alloc: Global) -> Result<Option<LimitName>, NoMemory>
        requires { 0 < length self.now.terms }
        ensures { IfOk result (PassesLimit self.now) }
    {
        if self.is_great {
            return Ok(Some(LimitName::Integer));
        }
        let last = self.terms.get(self.terms.len() - 1).unwrap();
        if last.nesting(alloc)? > NESTING_LIMIT {
            return Ok(Some(LimitName::Nesting));
        }
        Ok(None)
    }

    /// Gives the last term another span.
    pub(crate) fn enclose(&mut self, span: Span)
        ensures { self.new ≡ with_enclosed span self.old }
    {
        self.terms.enclose(span);
    }
}

// The integer of this magnitude, or `None` where it does not have 64 bits.
fn integer(negative: bool, magnitude: u64) -> Option<i64>
    ensures { result ≡ (if fits negative magnitude then Some (integer_of negative magnitude) else None) }
{
    if negative {
        if magnitude <= 1 << 63 {
            Some(0i64.wrapping_sub_unsigned(magnitude))
        } else {
            None
        }
    } else {
        i64::try_from(magnitude).ok()
    }
}
