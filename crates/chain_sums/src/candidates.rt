//! The columns of a menu by what they cost at least with the least sum behind them, so that few of
//! them are tried.

ghost use Rattle.std.specs.Prelude.{◌≡◌, ◌≤◌, ◌<◌, ◌^◌, length, IfOk, IfSome};
ghost use Rattle.std.specs.List.{Contains};
ghost use Rattle.chain_sums.specs.Candidates.{AreAllCandidates, GoByBounds, ReachesBound};
ghost use Rattle.chain_sums.specs.Chains.{IsKnown};
ghost use Rattle.chain_sums.specs.Menus.{IsMenuOf};
ghost use Rattle.chain_sums.specs.Rows.{AllAtMost, IsAtMost};

use crate::least::plus;
use crate::links::Links;
use crate::menu::Menu;
use fux_grid::Column;
use fux_pitch::Memory;
use std::alloc::Global;

/// A column of a menu that may have a sum.
#[derive(Clone, Copy)]
pub(crate) struct Candidate {
    /// What its sum is at least.
    pub(crate) bound: u64,
    /// Its number in the menu.
    pub(crate) number: usize,
    /// What it costs at least, whatever stands before it.
    pub(crate) own: u64,
}

/// The candidate for the column of a number. None only where the column has no sum, whatever stands
/// before it.
fn candidate_of<L: Links>(
    links: &L,
    i: usize,
    number: usize,
    next: &Column,
    rest: Option<u64>,
) -> Option<Candidate>
    requires place { i < (L.chains links.now).places }
    requires choice { Contains ((L.chains links.now).menu i) next.now.items }
    requires small { IsAtMost (2 ^ 62) rest }
    ensures number { IfSome result (λ e. e.number ≡ number) }
    ensures known { IfSome result (λ e. IsKnown (L.own links.now i next.now.items) e.own) }
    ensures low { ReachesBound (L.chains links.now) i next.now.items rest result }
{
    let own = links.own_cost(i, next)?;
    let bound = plus(Some(own), rest)?;
    Some(Candidate { bound, number, own })
}

/// The columns of a menu that may have a sum, in reading order.
fn some_candidates<L: Links>(
    alloc: Global,
    links: &L,
    i: usize,
    menu: &Menu,
    row: &[Option<u64>],
) -> Result<Vec<Candidate>, Memory>
    requires place { i < (L.chains links.now).places }
    requires menu { IsMenuOf ((L.chains links.now).menu i) menu.now }
    requires beside { length row.now ≡ length ((L.chains links.now).menu i) }
    requires small { AllAtMost (2 ^ 62) row.now }
    ensures { IfOk result (λ found. AreAllCandidates (L.chains links.now) (L.own links.now i) i
        row.now found.items) }
{
    let mut found = Vec::with_capacity(alloc, menu.len())?;
    for k in 0..menu.len() {
        let Some(candidate) = candidate_of(links, i, k, menu.column(k), row[k]) else {
            continue;
        };
        found.push_reserved(candidate);
    }
    Ok(found)
}

/// The same, those first whose sums may be least.
pub(crate) fn candidates<L: Links>(
    alloc: Global,
    links: &L,
    i: usize,
    menu: &Menu,
    row: &[Option<u64>],
) -> Result<Vec<Candidate>, Memory>
    requires place { i < (L.chains links.now).places }
    requires menu { IsMenuOf ((L.chains links.now).menu i) menu.now }
    requires beside { length row.now ≡ length ((L.chains links.now).menu i) }
    requires small { AllAtMost (2 ^ 62) row.now }
    ensures all { IfOk result (λ found. AreAllCandidates (L.chains links.now) (L.own links.now i) i
        row.now found.items) }
    ensures order { IfOk result (λ found. GoByBounds found.items) }
{
    let mut found = some_candidates(alloc, links, i, menu, row)?;
    found.sort_unstable_by_key(|candidate| candidate.bound);
    Ok(found)
}
