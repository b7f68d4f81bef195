//! The call of a ticket.
ghost use Rattle.std.specs.Prelude.{◌≡◌};
ghost use Rattle.merc_join.specs.Answers.{IsDone};
ghost use Rattle.merc_join.specs.Tickets.{ticket_parent, ticket_child, ticket_children, ticket_table, spent_table, spent_view};

use crate::ends::{SpentTicket, Ticket};
use crate::outcomes::Finished;
use crate::rule::Forked;
use crate::steps::done_on;
use merc_script::Outcome;

// The number of children of the ticket's join.
fn children_of<P: Forked>(ticket: &Ticket<P>) -> usize
    ensures { result ≡ ticket_children ticket.now }
{
    ticket.table.slot_count() - 1
}

impl<P: Forked + Drop> Ticket<P> {
    /// Says how the ticket's child ended. The last ticket of a join is given the outcomes of all children and the
    /// parent; all others are given nothing. The seat of the ticket comes back: nothing is given only where its one step
    /// found that another child was still to come.
    pub fn done(self, outcome: Outcome) -> (Option<Finished<P>>, SpentTicket<P>)
        requires { P.ends (ticket_parent self) (ticket_child self) outcome }
        ensures table { spent_table result.1 ≡ ticket_table self }
        ensures done { IsDone P.ends (ticket_parent self) (ticket_child self) (ticket_children self) outcome (spent_view result.1) result.0 }
    {
        let children = children_of(&self);
        let Ticket {
            table,
            mut seat,
            child,
        } = self;
        let given = done_on(&table.shared, &mut seat, child, children, outcome);
        (given, SpentTicket { seat })
    }
}
