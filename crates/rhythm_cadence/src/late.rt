//! Where a column may settle S25.

ghost use Rattle.std.specs.Prelude.{◌≡◌, ◌<◌, ◌≤◌};
ghost use Rattle.fux_grid.specs.Exercises.{IsValid, columns_in};
ghost use Rattle.rhythm_cadence.specs.Book.{quaver_rule};

use fux_grid::Exercise;
use rule_law::LatePlaces;

/// The places at which column `i` may settle a break of S25: the column before, and at the
/// setting's last column itself too.
pub(crate) fn quaver_places(ex: &Exercise, i: usize) -> LatePlaces
    requires valid { IsValid ex.now }
    requires place { i < columns_in ex.now }
    ensures first { result.first ≡ quaver_rule.first ex.now i }
    ensures count { result.count ≡ quaver_rule.count ex.now i }
    ensures few { result.count ≤ 2 }
{
    if i == 0 {
        return LatePlaces { first: 0, count: 0 };
    }
    let last = i + 1 == 8 * usize::from(ex.bars);
    LatePlaces {
        first: i - 1,
        count: if last { 2 } else { 1 },
    }
}
