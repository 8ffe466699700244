//! What is told of a prefix with a column more before all of it is judged.

ghost use Rattle.std.specs.Prelude.{◌≡◌, ◌<◌, ◌==◌, IfSome, length};
ghost use Rattle.std.specs.Bool.{OnTrue};
ghost use Rattle.cert_law.specs.Alone.{IsAlone};
ghost use Rattle.cert_law.specs.Cases.{IsCase, matter_of};
ghost use Rattle.cert_law.specs.Soon.{TellsBreak, TellsLeast, has_length as has_so_many};
ghost use Rattle.fux_grid.specs.Exercises.{columns_in};
ghost use Rattle.fux_judge.specs.Told.{TellsLine};

use crate::case::Case;
use crate::judged::Judged;
use cert_text::{CertHead, Claim};
use fux_grid::Column;
use fux_judge::{is_told_broken, told_rule};

/// Whether the head has a setting of so many columns.
fn has_length(case: &Case<'_>, count: usize) -> bool
    ensures { result ≡ has_so_many case.now.head.now count }
{
    match case.head {
        CertHead::Nothing => false,
        CertHead::Best { score, .. } => count == score.len(),
    }
}

/// The least rule that is broken in a prefix with a column more, where it is soon told and that
/// isn't as long as the head's setting. The least of S3 to S9 that the column breaks is given, and
/// the least one that it breaks by itself may be.
pub fn told_break(
    case: &Case<'_>,
    judged: &Judged,
    column: &Column,
    alone: Option<Option<u8>>,
    line: Option<u8>,
) -> Option<u8>
    requires case { IsCase (matter_of case.now) }
    requires room { judged.now.state.newest.len < columns_in case.now.exercise.now }
    requires full { length column.now.items ≡ case.now.exercise.now.voices }
    requires alone { IsAlone case.now.exercise.now judged.now.state.newest.len column.now.items
        alone }
    requires line { TellsLine case.now.exercise.now judged.now.state column.now.items line }
    ensures { IfSome result (TellsLeast (matter_of case.now) judged.now column.now.items) }
{
    let broken = judged.broken.bits;
    if broken != 0 {
        return None;
    }
    if has_length(case, judged.state.newest.len + 1) {
        return None;
    }
    if let Some(rule) = told_rule(case.exercise, &judged.state, column, alone, line) {
        return Some(rule);
    }
    None
}

/// Whether a claim is soon told to be true of a prefix with a column more: it is of a rule that the
/// column breaks. The least one that it breaks by itself may be given.
pub fn is_break_told(
    case: &Case<'_>,
    judged: &Judged,
    column: &Column,
    alone: Option<Option<u8>>,
    claim: Claim,
) -> bool
    requires case { IsCase (matter_of case.now) }
    requires room { judged.now.state.newest.len < columns_in case.now.exercise.now }
    requires full { length column.now.items ≡ case.now.exercise.now.voices }
    requires alone { IsAlone case.now.exercise.now judged.now.state.newest.len column.now.items
        alone }
    ensures { OnTrue result (TellsBreak (matter_of case.now) judged.now column.now.items claim) }
{
    let Claim::Broken(rule) = claim else {
        return false;
    };
    if is_told_broken(case.exercise, &judged.state, column, rule, alone) {
        return true;
    }
    false
}
