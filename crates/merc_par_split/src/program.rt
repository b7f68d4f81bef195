//! The split trees of a program.
ghost use Rattle.std.specs.Prelude.{◌≡◌, IfOk};
ghost use Rattle.merc_par_split.specs.Split.{all_split};
ghost use Rattle.merc_par_split.specs.Sites.{all_sites};

use crate::split;
use merc_base::{NoMemory, Sequence};
use merc_graded_tree::Nodes;
use merc_rights::SiteInfo;
use std::alloc::Global;

/// Trees of a program with their waits, signals and sites, and what stands at each site.
#[derive(Drop)]
pub struct Split {
    /// In the order of the graded trees.
    pub trees: Nodes,
    /// In the order of their numbers, from 0 on.
    pub sites: Sequence<SiteInfo>,
}

impl Split {
    /// The split trees of these graded ones, whose sites are numbered one after the other.
    ///
    /// # Errors
    ///
    /// `NoMemory` where memory was refused.
    pub fn of(alloc: Global, graded: &Nodes) -> Result<Split, NoMemory>
        ensures trees { IfOk result (λ all. all.trees ≡ all_split 0 graded.now) }
        ensures sites { IfOk result (λ all. all.sites ≡ all_sites graded.now) }
    {
        let mut trees = Nodes::new(alloc);
        let mut sites = Vec::new(alloc);
        for index in 0..graded.len() {
            match graded.get(index) {
                Some(goal) => split(alloc, &goal, &mut trees, &mut sites)?,
                None => unreachable!(),
            }
        }
        Ok(Split {
            trees,
            sites: Sequence::from_vec(sites),
        })
    }
}
