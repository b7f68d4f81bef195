//! What stands at the sites of a program.
ghost use Rattle.std.specs.Prelude.{◌≡◌, IfOk, MatchOption, None, Some, slice_get};
ghost use Rattle.merc_plan.specs.PlanLists.{MovesAt};

use merc_base::{NoMemory, Sequence};
use merc_graded_tree::Site;
use merc_par_split::Split;
use merc_rights::{Moved, SiteInfo};
use std::alloc::Global;
use std::marker::Model;

/// What stands at each site of a program: how many conjuncts are forked there, their cells, and which rights move into
/// them. It is seen as the list of what stands at the sites, in the order of their numbers.
#[derive(Drop)]
pub struct Plan {
    sites: Sequence<SiteInfo>,
}

impl Model for Plan {
    ghost use Rattle.std.specs.Prelude.{List};
    ghost use Rattle.merc_rights.specs.declared.sites.SiteInfo.{SiteInfo};

    ghost Value = { List SiteInfo };

    ghost view = { λ p. p.sites };
}

impl Plan {
    /// The plan of split trees. `NoMemory` where memory was refused.
    pub fn of(alloc: Global, split: &Split) -> Result<Plan, NoMemory>
        ensures { IfOk result (λ plan. plan ≡ split.now.sites) }
    {
        let mut sites = Sequence::new(alloc);
        for info in split.sites.as_slice() {
            let copy = info.try_clone(alloc)?;
            sites.push(copy)?;
        }
        Ok(Plan { sites })
    }

    /// What stands at a site, `None` exactly past the last one.
    pub fn site(&self, site: Site) -> Option<&SiteInfo>
        ensures { MatchOption result (slice_get self.now site.number ≡ None) (λ info. slice_get self.now site.number ≡ Some info.now) }
    {
        self.sites.as_slice().get(site.number)
    }

    /// The rights of the enclosing conjunct that move into the conjuncts of a site, those to signal first; `None` exactly
    /// past the last site.
    pub fn moved(&self, site: Site) -> Option<&[Moved]>
        ensures { MatchOption result (slice_get self.now site.number ≡ None) (λ moves. MovesAt self.now site.number moves.now) }
    {
        match self.site(site) {
            Some(info) => Some(info.moves.as_slice()),
            None => None,
        }
    }
}
