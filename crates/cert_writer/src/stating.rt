//! Lines of lists, each put behind the others where it may stand there.

ghost use Rattle.std.specs.Prelude.{◌≡◌, ◌≤◌, ◌*◌, false, IfOk, OnOk, map};
ghost use Rattle.std.specs.Bool.{OnTrue};
ghost use Rattle.penalty_sheet.specs.Weights.{greatest_toll, weight_of};
ghost use Rattle.price_check.specs.Lists.{is_last};
ghost use Rattle.price_check.specs.PriceLines as lines;
ghost use Rattle.price_check.specs.PriceLines.{AreFalling, Fits, is_free_voice, line_of, most_price};
ghost use Rattle.cert_writer.specs.Stating.{CanBeStated, IsStating, IsWithin};
ghost use Rattle.priced_floors.specs.declared.charges.TheConstants.{SCALE};

use fux_grid::Exercise;
use fux_pitch::{Memory, Pitch};
use penalty_sheet::{Sheet, weight};
use price_check::{Before, PriceLine, after, price_place};
use priced_floors::SCALE;
use std::alloc::Global;

/// Lines of lists, and what stands before the next one.
#[derive(Drop)]
pub(crate) struct Stating {
    pub lines: Vec<PriceLine>,
    pub before: Before,
}

/// Whether a voice is free.
fn is_free(ex: &Exercise, v: u8) -> bool
    ensures { result ≡ is_free_voice ex.now v }
{
    v < ex.voices && v != ex.cantus_voice
}

/// Whether keys fall, from below one on, and there are so many at most.
fn are_falling(keys: &[u8], high: u8, most: u8) -> bool
    ensures { OnTrue result (AreFalling high most keys.now) }
{
    let Some((key, rest)) = keys.split_first() else {
        return true;
    };
    if *key >= high {
        return false;
    }
    if most < 1 {
        return false;
    }
    are_falling(rest, *key, most - 1)
}

/// Whether a line of cases may stand behind those before.
fn may_part(ex: &Exercise, before: &Before, voice: u8, keys: &[u8]) -> bool
    ensures { OnTrue result (Fits ex.now before.now (lines.Cases voice keys.now)) }
{
    if !before.kept {
        return false;
    }
    if !is_free(ex, voice) {
        return false;
    }
    are_falling(keys, 127, 15)
}

/// Whether a price may stand behind those before, and is no higher than this.
fn may_charge(
    ex: &Exercise,
    before: &Before,
    case: u8,
    voice: u8,
    pitch: Pitch,
    number: u32,
    most: u32,
) -> bool
    requires { most ≤ most_price }
    ensures fits { OnTrue result (Fits ex.now before.now (lines.Price case voice pitch number)) }
    ensures within { OnTrue result (number ≤ most) }
{
    if case < 1 {
        return false;
    }
    if before.cases < case {
        return false;
    }
    if !is_free(ex, voice) {
        return false;
    }
    if price_place(case, voice, pitch) <= before.last {
        return false;
    }
    1 <= number && number <= most
}

/// Whether a line may stand behind those before, and is not the one behind all; a price is no
/// higher than this.
fn may_stand(ex: &Exercise, before: &Before, line: &PriceLine, most: u32) -> bool
    requires { most ≤ most_price }
    ensures fits { OnTrue result (Fits ex.now before.now (line_of line.now)) }
    ensures last { OnTrue result (is_last (line_of line.now) ≡ false) }
    ensures within { OnTrue result (IsWithin most (line_of line.now)) }
{
    match line {
        PriceLine::Keeps { .. } => before.lists < 8,
        PriceLine::Cases { voice, keys } => may_part(ex, before, *voice, keys.as_slice()),
        PriceLine::Price {
            case,
            voice,
            pitch,
            number,
        } => may_charge(ex, before, *case, *voice, *pitch, *number, most),
        PriceLine::Claims => false,
    }
}

/// The most that a strike may be charged: sixteen parts for each unit that it costs, and no more
/// than may be stated.
fn most_price_of(sheet: &Sheet) -> u32
    ensures due { result ≤ SCALE * weight_of sheet.now 20 }
    ensures small { result ≤ most_price }
{
    (SCALE * u32::from(weight(sheet, 20))).min(1_048_576)
}

impl Stating {
    /// One list, which is plain.
    pub(crate) fn plain(
        alloc: Global,
        ex: &Exercise,
        sheet: &Sheet,
        turns: bool,
        runs: bool,
    ) -> Result<Stating, Memory>
        ensures { IfOk result (IsStating ex.now sheet.now) }
    {
        let _ = ex;
        let _ = sheet;
        let mut lines = Vec::new(alloc);
        let line = PriceLine::Keeps { turns, runs };
        let before = after(&Before::nothing(), &line);
        lines.push(line)?;
        Ok(Stating { lines, before })
    }

    /// Puts a line behind the others, where it may stand there.
    pub(crate) fn put(
        &mut self,
        ex: &Exercise,
        sheet: &Sheet,
        line: PriceLine,
    ) -> Result<(), Memory>
        requires { IsStating ex.now sheet.now self.old }
        ensures { OnOk result (IsStating ex.now sheet.now self.new) }
    {
        if !may_stand(ex, &self.before, &line, most_price_of(sheet)) {
            return Ok(());
        }
        let before = after(&self.before, &line);
        self.lines.push(line)?;
        self.before = before;
        Ok(())
    }

    /// The lines, which may be stated.
    pub(crate) fn done(self, ex: &Exercise, sheet: &Sheet) -> Vec<PriceLine>
        requires { IsStating ex.now sheet.now self }
        ensures { CanBeStated ex.now sheet.now (map line_of result.items) }
    {
        let _ = ex;
        let _ = sheet;
        self.lines
    }
}
