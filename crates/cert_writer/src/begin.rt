//! Where a writer begins.

ghost use Rattle.std.specs.Prelude.{◌≡◌, IfOk, vec_capacity};
ghost use Rattle.cert_law.specs.Cases.{matter_of};
ghost use Rattle.cert_writer.specs.Stages as words;
ghost use Rattle.cert_writer.specs.Stages.{Begins};
ghost use Rattle.cert_writer.specs.Writing.{IsTask};
ghost use Rattle.fux_grid.specs.Exercises.{columns_in};

use crate::lines::{Lines, Stage};
use cert_law::{Case, TailedCase};
use cert_text::Form;
use cert_tree::{begin_again, room_for_walk};
use fux_pitch::Memory;
use price_check::MenuTails;
use std::alloc::Global;

/// The room of the lines of a certificate, of which none is still to come.
pub(crate) fn room_for_lines(
    alloc: Global,
    case: &Case<'_>,
    tables: &MenuTails<'_>,
) -> Result<Lines, Memory>
    requires { IsTask (matter_of case.now) tables.now }
    ensures { IfOk result (λ lines. vec_capacity lines.walk.levels
        ≡ columns_in case.now.exercise.now) }
{
    let walk = room_for_walk(alloc, &TailedCase::new(*case, tables))?;
    Ok(Lines {
        stage: Stage::Claims,
        walk,
    })
}

/// The stage at which the text of a form goes on behind that of its head.
fn first_stage(form: Form) -> Stage
    ensures { result ≡ words.first_stage form }
{
    match form {
        Form::First => Stage::Claims,
        Form::Second => Stage::Start,
        Form::Third => Stage::Claims,
    }
}

/// Starts behind the text of a head, from the empty prefix, in the room of lines.
pub(crate) fn begin(lines: &mut Lines, form: Form, case: &Case<'_>, tables: &MenuTails<'_>)
    requires task { IsTask (matter_of case.now) tables.now }
    requires room { vec_capacity lines.old.walk.levels ≡ columns_in case.now.exercise.now }
    ensures { Begins (matter_of case.now) form lines.new }
{
    lines.stage = first_stage(form);
    begin_again(&TailedCase::new(*case, tables), &mut lines.walk);
}
