//! Least sums over chains, behind one column from the row of the place that comes next.

ghost use Rattle.std.specs.Prelude.{◌≡◌, ◌<◌, ◌^◌, ◌↔◌, ℕ};
ghost use Rattle.std.specs.List.{Contains};
ghost use Rattle.chain_sums.specs.Chains.{IsLeast, given};
ghost use Rattle.chain_sums.specs.Chains as chains;
ghost use Rattle.chain_sums.specs.Menus.{IsMenuOf};
ghost use Rattle.chain_sums.specs.Rows.{AllAtMost, IsAtMost, IsOneCostAbove, IsOneCostAboveRow, IsRow, IsSumOf};
ghost use Rattle.chain_sums.specs.Sums as sums;

use crate::links::Links;
use crate::menu::Menu;
use fux_grid::{Column, follows};

/// The lesser of two sums; where one is none, the other.
pub(crate) fn lesser(a: Option<u64>, b: Option<u64>) -> Option<u64>
    ensures value { result ≡ sums.lesser a b }
    ensures bound { (most : ℕ) → IsAtMost most a → IsAtMost most b → IsAtMost most result }
{
    match (a, b) {
        (Some(x), Some(y)) => Some(if x <= y { x } else { y }),
        (Some(x), None) => Some(x),
        (None, _) => b,
    }
}

/// Two costs together; none where one of them is none.
pub(crate) fn plus(a: Option<u64>, b: Option<u64>) -> Option<u64>
    requires first { IsAtMost (2 ^ 53) a }
    requires second { IsAtMost (2 ^ 62) b }
    ensures value { result ≡ chains.plus a b }
    ensures bound { IsOneCostAbove b result }
{
    match (a, b) {
        (Some(x), Some(y)) => Some(x + y),
        _ => None,
    }
}

/// What a column costs behind another, together with the least sum behind it. None where it doesn't
/// follow, where the two may not be neighbors, and where there is no such sum.
pub(crate) fn sum_of<L: Links>(
    links: &L,
    i: usize,
    prev: Option<&Column>,
    next: &Column,
    rest: Option<u64>,
) -> Option<u64>
    requires place { i < (L.chains links.now).places }
    requires choice { Contains ((L.chains links.now).menu i) next.now.items }
    requires small { IsAtMost (2 ^ 62) rest }
    ensures value { (x : ℕ) → (result ≡ Some x)
        ↔ IsSumOf (L.chains links.now) i (given prev.entry) next.now.items rest x }
    ensures bound { IsOneCostAbove rest result }
{
    if !follows(prev, next) {
        return None;
    }
    let own = links.cost(i, prev, next);
    plus(own, rest)
}

/// The least sum over the chains that begin at a place, behind a column or behind none, from the
/// menu of the place and the row beside it: of what each column of the menu costs there, and the
/// least sum behind that one.
pub(crate) fn least_behind<L: Links>(
    links: &L,
    i: usize,
    prev: Option<&Column>,
    menu: &Menu,
    row: &[Option<u64>],
) -> Option<u64>
    requires place { i < (L.chains links.now).places }
    requires menu { IsMenuOf ((L.chains links.now).menu i) menu.now }
    requires row { IsRow (L.chains links.now) i row.now }
    requires small { AllAtMost (2 ^ 62) row.now }
    ensures least { IsLeast (L.chains links.now) i (given prev.entry) result }
    ensures bound { IsOneCostAboveRow row.now result }
{
    let mut least = None;
    for k in 0..menu.len() {
        let sum = sum_of(links, i, prev, menu.column(k), row[k]);
        least = lesser(least, sum);
    }
    least
}
