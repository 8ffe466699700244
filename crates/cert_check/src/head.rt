//! Whether the head of a certificate is sound.

ghost use Rattle.std.specs.Prelude.{◌≡◌, ◌↔◌, ◌<◌, ◌&&◌, ℕ, IsTrue, false, length};
ghost use Rattle.std.specs.List.{Contains, list_any};
ghost use Rattle.cert_check.specs.Settings.{accepted_of};
ghost use Rattle.cert_law.specs.Certificates.{IsHeadSound};
ghost use Rattle.fux_grid.specs.Exercises.{IsComplete, IsValid, columns_in};
ghost use Rattle.fux_grid.specs.Menus.{IsInMenu, cells_at};
ghost use Rattle.fux_judge.specs.Lawful.{IsLawful, breaks_strictly};
ghost use Rattle.fux_judge.specs.Penalties.{is_strict_at};
ghost use Rattle.fux_judge.specs.Rules.{all_sets, is_broken};
ghost use Rattle.rule_law.specs.Prefixes.{IsSetting};

use cert_text::{Accepted, CertHead};
use fux_grid::{Cell, Column, Exercise, Score, VoiceSet, cell_of, voice_cells};
use fux_judge::{every_rule, every_set, is_broken_in, penalty};
use penalty_sheet::{Sheet, price_at};

/// Whether a rule is strictly broken at a place for a set of voices.
fn breaks_for(rule: u8, ex: &Exercise, score: &Score, i: usize, voices: VoiceSet) -> bool
    requires valid { IsValid ex.now }
    requires complete { IsComplete ex.now score.now }
    requires place { i < length score.now.columns }
    ensures { result ≡ (is_broken rule ex.now voices.bits score.now.columns i && is_strict_at rule
        ex.now voices.bits i) }
{
    if !is_broken_in(rule, ex, score, i, voices) {
        return false;
    }
    price_at(ex, rule, voices, (i / 8 + 1) as u8).is_strict()
}

/// Whether a rule is strictly broken at a place for some set of voices.
fn breaks_for_some(rule: u8, ex: &Exercise, score: &Score, i: usize) -> bool
    requires valid { IsValid ex.now }
    requires complete { IsComplete ex.now score.now }
    requires place { i < length score.now.columns }
    ensures { result ≡ list_any (λ voices. is_broken rule ex.now voices score.now.columns i
        && is_strict_at rule ex.now voices i) all_sets }
{
    for bits in every_set() {
        if breaks_for(rule, ex, score, i, VoiceSet { bits: *bits }) {
            return true;
        }
    }
    false
}

/// Whether some rule is strictly broken at a place.
fn breaks_at(ex: &Exercise, score: &Score, i: usize) -> bool
    requires valid { IsValid ex.now }
    requires complete { IsComplete ex.now score.now }
    requires place { i < length score.now.columns }
    ensures { result ≡ breaks_strictly ex.now score.now.columns i }
{
    for rule in every_rule() {
        if breaks_for_some(*rule, ex, score, i) {
            return true;
        }
    }
    false
}

/// Whether a voice may have a cell at a place.
fn allows_cell(ex: &Exercise, v: u8, i: usize, cell: Cell) -> bool
    requires valid { IsValid ex.now }
    requires voice { v < ex.now.voices }
    requires place { i < columns_in ex.now }
    ensures { IsTrue result ↔ Contains (cells_at ex.now i v) cell }
{
    voice_cells(ex, v, i).as_slice().contains(&cell)
}

/// Whether a column isn't in the menu of a place.
fn is_outside_menu(ex: &Exercise, i: usize, column: &Column) -> bool
    requires valid { IsValid ex.now }
    requires place { i < columns_in ex.now }
    requires full { length column.now.items ≡ ex.now.voices }
    ensures within { result ≡ false → IsInMenu ex.now i column.now.items }
    ensures outside { IsTrue result → IsInMenu ex.now i column.now.items → ⊥ }
{
    for v in 0..ex.voices {
        if !allows_cell(ex, v, i, cell_of(column.as_slice(), v as usize)) {
            return true;
        }
    }
    false
}

/// Whether a score is a lawful setting of an exercise.
fn is_lawful(ex: &Exercise, score: &Score) -> bool
    requires valid { IsValid ex.now }
    requires complete { IsComplete ex.now score.now }
    ensures { IsTrue result ↔ IsLawful ex.now score.now.columns }
{
    score.kept();
    for i in 0..score.len() {
        if is_outside_menu(ex, i, score.column(i)) || breaks_at(ex, score, i) {
            return false;
        }
    }
    true
}

/// Whether the head's score is a lawful setting that has the head's penalty. A head without a score
/// is sound.
pub fn is_sound(ex: &Exercise, sheet: &Sheet, head: &CertHead) -> bool
    requires { IsValid ex.now }
    ensures { IsTrue result ↔ IsHeadSound ex.now sheet.now head.now }
{
    match head {
        CertHead::Nothing => true,
        CertHead::Best {
            penalty: said,
            score,
        } => {
            score.kept();
            match penalty(ex, sheet, score) {
                Some(cost) => cost == *said && is_lawful(ex, score),
                None => false,
            }
        }
    }
}

/// What a head shows where it is accepted.
pub(crate) fn accepted_by(head: &CertHead) -> Accepted
    ensures { result ≡ accepted_of head.now }
{
    match head {
        CertHead::Best { penalty, .. } => Accepted::Best(*penalty),
        CertHead::Nothing => Accepted::Nothing,
    }
}
