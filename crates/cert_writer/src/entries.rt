//! The entries that a certificate states.

ghost use Rattle.std.specs.Prelude.{◌≡◌, ◌+◌, ◌-◌, ◌<◌, ◌≤◌, ◌++◌, [], drop, length};
ghost use Rattle.cert_law.specs.Cases.{matter_of};
ghost use Rattle.cert_law.specs.Entries.{menu_column};
ghost use Rattle.cert_law.specs.Rests as words;
ghost use Rattle.cert_law.specs.Rests.{entries_at, entries_from, rest_behind};
ghost use Rattle.cert_text.specs.Potentials.{IsPotential, last_line};
ghost use Rattle.cert_writer.specs.Stages.{IsStage, entries_left, last_left};
ghost use Rattle.cert_writer.specs.Writing.{IsTask};
ghost use Rattle.floor_tables.specs.Floors.{rest_of};
ghost use Rattle.fux_grid.specs.Exercises.{columns_in};
ghost use Rattle.fux_grid.specs.Menus.{menu_of};

use crate::lines::Stage;
use cert_law::Case;
use cert_text::Potential;
use floor_tables::Tables;

/// The entry that states a sum, where there is one.
fn stating(sum: Option<u64>) -> Potential
    requires { IsPotential (words.stating sum) }
    ensures { result ≡ words.stating sum }
{
    match sum {
        Some(sum) => Potential::Least(sum as u32),
        None => Potential::NoChain,
    }
}

/// The entry of the start.
pub(crate) fn start_entry(case: &Case<'_>, tables: &Tables<'_>) -> Potential
    requires task { IsTask (matter_of case.now) tables.now }
    ensures small { IsPotential result }
    ensures value { result ≡ words.stating (rest_of case.now.exercise.now case.now.sheet.now []) }
{
    let _ = case;
    stating(tables.start())
}

/// The entry of the column of a number in the menu of a place.
pub(crate) fn column_entry(
    case: &Case<'_>,
    tables: &Tables<'_>,
    place: usize,
    number: usize,
) -> Potential
    requires task { IsTask (matter_of case.now) tables.now }
    requires place { place < columns_in case.now.exercise.now }
    requires within { number < length (menu_of case.now.exercise.now place) }
    ensures small { IsPotential result }
    ensures value { result ≡ words.stating (rest_behind case.now.exercise.now case.now.sheet.now
        place (menu_column case.now.exercise.now place number)) }
{
    let _ = case;
    stating(tables.rest_of_number(place, number))
}

/// The stage of the first column of the places from this one on; behind the last of them the line
/// `claims` comes.
pub(crate) fn stage_from(case: &Case<'_>, tables: &Tables<'_>, from: usize) -> Stage
    requires task { IsTask (matter_of case.now) tables.now }
    requires place { from ≤ columns_in case.now.exercise.now }
    ensures stage { IsStage case.now.exercise.now result }
    ensures left { entries_left (matter_of case.now) result ≡ entries_from case.now.exercise.now
        case.now.sheet.now from (columns_in case.now.exercise.now - from) }
    ensures last { last_left result ≡ last_line }
{
    let places = 8 * case.exercise.bars as usize;
    let mut place = from;
    while place < places {
        if tables.width(place) > 0 {
            return Stage::Column { place, number: 0 };
        }
        place += 1;
    }
    Stage::Last
}

/// The stage behind the column of a number in the menu of a place.
pub(crate) fn stage_after(
    case: &Case<'_>,
    tables: &Tables<'_>,
    place: usize,
    number: usize,
) -> Stage
    requires task { IsTask (matter_of case.now) tables.now }
    requires place { place < columns_in case.now.exercise.now }
    requires within { number < length (menu_of case.now.exercise.now place) }
    ensures stage { IsStage case.now.exercise.now result }
    ensures left { entries_left (matter_of case.now) result
        ≡ drop (number + 1) (entries_at case.now.exercise.now case.now.sheet.now place)
        ++ entries_from case.now.exercise.now case.now.sheet.now (place + 1)
        (columns_in case.now.exercise.now - (place + 1)) }
    ensures last { last_left result ≡ last_line }
{
    let next = number + 1;
    if next < tables.width(place) {
        Stage::Column {
            place,
            number: next,
        }
    } else {
        stage_from(case, tables, place + 1)
    }
}
