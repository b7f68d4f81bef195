//! What is told of goals that have no order.
ghost use Rattle.std.specs.Prelude.{◌≡◌, IfOk};
ghost use Rattle.merc_base.specs.Places.{place_of};
ghost use Rattle.merc_base.specs.declared.refusal.Fault.TheVariants.{Refused};
ghost use Rattle.merc_base.specs.declared.refusal.Detail.TheVariants.{Plain};
ghost use Rattle.merc_order.specs.Faults.{conjunct_fault, needing};

use merc_base::{Detail, Fault, NoMemory, Refusal, Rule, Span};

/// The refusal of a rule without a detail, at the first token of a goal.
pub fn fault_at(rule: Rule, span: Span) -> Fault
    ensures { result ≡ Refused (record { rule = rule; place = place_of span; detail = Plain }) }
{
    Fault::Refused(Refusal {
        rule,
        place: span.start(),
        detail: Detail::Plain,
    })
}

/// The fault inside the conjunct with this number, told at the conjunct. Where it is never ready but would be behind
/// another, that one's number is told.
///
/// # Errors
///
/// `NoMemory` where a number would not fit into 32 bits. The limits on a text keep conjunctions so short that all do.
pub fn conjunct_fault(
    number: usize,
    span: Span,
    other: Option<usize>,
    fault: Refusal,
) -> Result<Refusal, NoMemory>
    ensures { IfOk result (λ told. told ≡ conjunct_fault number span other fault) }
{
    let detail = needing(fault.rule, number, other, fault.detail)?;
    Ok(Refusal {
        rule: fault.rule,
        place: span.start(),
        detail,
    })
}

// The detail of that fault.
fn needing(
    rule: Rule,
    number: usize,
    other: Option<usize>,
    detail: Detail,
) -> Result<Detail, NoMemory>
    ensures { IfOk result (λ told. told ≡ needing rule number other detail) }
{
    match (rule, other) {
        (Rule::NeverReady, Some(other)) => {
            let number = Detail::conjunct_number(number)?;
            Ok(Detail::Pair(number, Detail::conjunct_number(other)?))
        }
        _ => Ok(detail),
    }
}
