//! What a board is told of the forks of a program, made ready once.
ghost use Rattle.std.specs.Prelude.{◌≡◌, IfOk};
ghost use Rattle.merc_carried.specs.Sharing.{cells_shared, moves_given};
ghost use Rattle.merc_pool.specs.Shares.{AreShares, IsShare};

use merc_base::NoMemory;
use merc_board::{Handover, SharedCell};
use merc_graded_tree::Site;
use merc_plan::Plan;
use merc_rights::{CellInfo, Moved, SiteInfo};
use std::alloc::Global;

/// What a board is told of a fork: the number of conjuncts, the cells, and the rights that move.
#[derive(Drop)]
pub struct Share {
    pub children: usize,
    pub shared: Vec<SharedCell>,
    pub given: Vec<Handover>,
}

/// What a board is told of each site.
///
/// # Errors
///
/// `NoMemory` where memory was refused.
pub fn shares_of(alloc: Global, plan: &Plan) -> Result<Vec<Share>, NoMemory>
    ensures { IfOk result (λ shares. AreShares plan.now shares.items) }
{
    let mut shares = Vec::new(alloc);
    while let Some(info) = plan.site(Site {
        number: shares.len(),
    }) {
        let share = share_of(alloc, info)?;
        shares.push(share)?;
    }
    Ok(shares)
}

// What a board is told of one site.
fn share_of(alloc: Global, info: &SiteInfo) -> Result<Share, NoMemory>
    ensures { IfOk result (λ share. IsShare info.now share) }
{
    Ok(Share {
        children: info.children,
        shared: shared_of(alloc, info.cells.as_slice())?,
        given: given_of(alloc, info.moves.as_slice())?,
    })
}

fn shared_of(alloc: Global, cells: &[CellInfo]) -> Result<Vec<SharedCell>, NoMemory>
    ensures { IfOk result (λ shared. shared.items ≡ cells_shared cells.now) }
{
    let mut shared = Vec::new(alloc);
    for one in cells {
        shared.push(SharedCell {
            variable: one.variable,
            producer: one.producer,
            consumer: one.consumer,
        })?;
    }
    Ok(shared)
}

fn given_of(alloc: Global, moves: &[Moved]) -> Result<Vec<Handover>, NoMemory>
    ensures { IfOk result (λ given. given.items ≡ moves_given moves.now) }
{
    let mut given = Vec::new(alloc);
    for one in moves {
        given.push(Handover {
            variable: one.variable,
            child: one.child,
            signal: one.signal,
        })?;
    }
    Ok(given)
}
