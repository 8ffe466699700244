//! The text of a certificate's head.

ghost use Rattle.std.specs.Prelude.{◌≡◌, ◌<◌, ◌%◌, ◌++◌, IfOk, OnOk, string_bytes, length};
ghost use Rattle.cert_law.specs.Certificates.{IsHeadSound};
ghost use Rattle.cert_law.specs.Writer as words;
ghost use Rattle.cert_text.specs.HeadRows.{closing_text, opening_text};
ghost use Rattle.fux_grid.specs.Exercises.{IsValid};
ghost use Rattle.cert_writer.specs.Heads.{line_if_free};
ghost use Rattle.fux_text.specs.ReadBack.{sing_lines};

use cert_text::{CertHead, Form};
use fux_grid::{Exercise, Score};
use fux_pitch::Memory;
use fux_text::sing_line;
use penalty_sheet::Sheet;
use std::alloc::Global;

/// Appends the line of a voice, if it is free.
fn put_free(
    out: &mut String,
    alloc: Global,
    ex: &Exercise,
    score: &Score,
    v: u8,
) -> Result<(), Memory>
    requires voice { v < score.now.voices }
    requires whole { length score.now.columns % 8 ≡ 0 }
    requires some { 0 < length score.now.columns }
    ensures { OnOk result (string_bytes out.new ≡ string_bytes out.old ++ line_if_free ex.now
        score.now v) }
{
    if v == ex.cantus_voice {
        return Ok(());
    }
    let line = sing_line(alloc, score, v)?;
    out.push_str(line.as_str())?;
    Ok(())
}

/// Appends the line of each free voice, from the lowest.
fn put_lines(out: &mut String, alloc: Global, ex: &Exercise, score: &Score) -> Result<(), Memory>
    requires voices { score.now.voices ≡ ex.now.voices }
    requires whole { length score.now.columns % 8 ≡ 0 }
    requires some { 0 < length score.now.columns }
    ensures { OnOk result (string_bytes out.new ≡ string_bytes out.old ++ sing_lines ex.now
        score.now.columns) }
{
    for v in 0..ex.voices {
        put_free(out, alloc, ex, score, v)?;
    }
    Ok(())
}

/// The first line of a form.
fn opening(form: Form) -> &'static str
    ensures { result.now ≡ opening_text form }
{
    match form {
        Form::First => "fux-cert 1\n",
        Form::Second => "fux-cert 2\n",
        Form::Third => "fux-cert 3\n",
    }
}

/// The last line of a form's head; behind one of the third form stand lists.
fn closing(form: Form) -> &'static str
    ensures { result.now ≡ closing_text form }
{
    match form {
        Form::First => "claims\n",
        Form::Second => "potentials\n",
        Form::Third => "",
    }
}

/// The text of a head of a form.
pub fn head_text(
    alloc: Global,
    ex: &Exercise,
    sheet: &Sheet,
    form: Form,
    head: &CertHead,
) -> Result<String, Memory>
    requires valid { IsValid ex.now }
    requires sound { IsHeadSound ex.now sheet.now head.now }
    ensures { IfOk result (λ text. string_bytes text ≡ words.head_text ex.now form head.now) }
{
    let _ = sheet;
    let mut out = String::new(alloc);
    out.push_str(opening(form))?;
    match head {
        CertHead::Nothing => out.push_str("none\n")?,
        CertHead::Best { penalty, score } => {
            score.kept();
            write!(out, "best {penalty}\n")?;
            put_lines(&mut out, alloc, ex, score)?;
        }
    }
    out.push_str(closing(form))?;
    Ok(out)
}
