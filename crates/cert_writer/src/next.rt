//! The claims and the lines that are still to come.

ghost use Rattle.std.specs.Prelude.{◌≡◌, ◌<◌, ◌≤◌, ◌++◌, [], IfSome, None, length};
ghost use Rattle.cert_law.specs.Cases.{matter_of};
ghost use Rattle.cert_tree.specs.Writing.{claims_with};
ghost use Rattle.cert_text.specs.Lines.{IsClaim};
ghost use Rattle.cert_writer.specs.Stages.{AreLines, IsStage, line_of, lines_left, stage_text};
ghost use Rattle.cert_writer.specs.Writing.{IsTask, IsWriting, to_come};
ghost use Rattle.cert_file.specs.Sources.{lines_with};

use crate::entries::{column_entry, stage_after, stage_from, start_entry};
use crate::lines::{Lines, Stage};
use arrayvec::ArrayString;
use cert_file::{LineSource, line_from};
use cert_law::{Case, PrefixKnown, TailedCase};
use cert_text::{Claim, write_claim, write_potential};
use cert_tree::Walk;
use floor_tables::Tables;
use price_check::MenuTails;

/// The claim that comes next.
fn next_claim(
    walk: &mut Walk<PrefixKnown>,
    case: &Case<'_>,
    tables: &MenuTails<'_>,
) -> Option<Claim>
    requires task { IsTask (matter_of case.now) tables.now }
    requires writing { IsWriting (matter_of case.now) walk.old }
    ensures writing { IsWriting (matter_of case.now) walk.new }
    ensures claim { IfSome result IsClaim }
    ensures claims { to_come (matter_of case.now) walk.old ≡ claims_with result
        (to_come (matter_of case.now) walk.new) }
{
    cert_tree::next_claim(&TailedCase::new(*case, tables), walk)
}

/// The line that comes next before the first claim's. There is none where the claims come next.
fn next_stated(stage: &mut Stage, case: &Case<'_>, tables: &Tables<'_>) -> Option<ArrayString<13>>
    requires task { IsTask (matter_of case.now) tables.now }
    requires stage { IsStage case.now.exercise.now stage.old }
    ensures stage { IsStage case.now.exercise.now stage.new }
    ensures some { IfSome result (λ line. 0 < length line.bytes) }
    ensures text { stage_text (matter_of case.now) stage.old ≡ line_of result
        ++ stage_text (matter_of case.now) stage.new }
    ensures none { result ≡ None → stage_text (matter_of case.now) stage.new ≡ [] }
{
    match *stage {
        Stage::Start => {
            *stage = stage_from(case, tables, 0);
            Some(write_potential(start_entry(case, tables)))
        }
        Stage::Column { place, number } => {
            *stage = stage_after(case, tables, place, number);
            Some(write_potential(column_entry(case, tables, place, number)))
        }
        Stage::Last => {
            *stage = Stage::Claims;
            Some(line_from("claims\n"))
        }
        Stage::Claims => None,
    }
}

/// The line that comes next.
fn next_line(lines: &mut Lines, case: &Case<'_>, tables: &MenuTails<'_>) -> Option<ArrayString<13>>
    requires task { IsTask (matter_of case.now) tables.now }
    requires lines { AreLines (matter_of case.now) lines.old }
    ensures lines { AreLines (matter_of case.now) lines.new }
    ensures some { IfSome result (λ line. 0 < length line.bytes) }
    ensures text { lines_left (matter_of case.now) lines.old ≡ lines_with result
        (lines_left (matter_of case.now) lines.new) }
{
    if let Some(line) = next_stated(&mut lines.stage, case, tables.tables()) {
        return Some(line);
    }
    let claim = next_claim(&mut lines.walk, case, tables)?;
    Some(line_from(write_claim(claim).as_str()))
}

/// The lines of a certificate behind the text of its head.
#[derive(Clone, Copy)]
pub(crate) struct TaskLines<'a, 'b> {
    pub(crate) case: &'a Case<'a>,
    pub(crate) tables: &'b MenuTails<'b>,
}

impl<'a, 'b> LineSource for TaskLines<'a, 'b> {
    ghost use Rattle.cert_law.specs.Cases.{matter_of};
    ghost use Rattle.cert_writer.specs.Stages.{AreLines, lines_left};
    ghost use Rattle.cert_writer.specs.Writing.{IsTask};

    type Place = Lines;

    ghost stands = { λ s lines. IsTask (matter_of s.case.now) s.tables.now × AreLines (matter_of s.case.now) lines };

    ghost left = { λ s lines. lines_left (matter_of s.case.now) lines };

    fn next_line(&self, lines: &mut Lines) -> Option<ArrayString<13>> {
        next_line(lines, self.case, self.tables)
    }
}
