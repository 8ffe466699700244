//! The prices of breaks.

ghost use Rattle.std.specs.Prelude.{◌≡◌, ◌<◌, ◌≤◌, [], find};
ghost use Rattle.fux_grid.specs.Exercises.{IsValid};
ghost use Rattle.penalty_sheet.specs.Prices as prices;
ghost use Rattle.penalty_sheet.specs.Prices.{price_in, amount_of};

use fux_grid::{Exercise, Relax, VoiceSet};

/// What a break of a rule costs.
#[derive(Clone, Copy, Debug, PartialEq, Eq)]
pub enum Price {
    /// It isn't allowed.
    Strict,
    /// It is allowed at this price, from 0 to 10,000.
    Priced(u16),
}

impl Price {
    /// Whether the break isn't allowed.
    #[inline]
    pub fn is_strict(self) -> bool
        ensures { result ≡ prices.is_strict self }
    {
        match self {
            Price::Strict => true,
            Price::Priced(_) => false,
        }
    }

    /// What the break costs; nothing where it isn't allowed.
    #[inline]
    pub fn amount(self) -> u16
        ensures { result ≡ amount_of self }
    {
        match self {
            Price::Strict => 0,
            Price::Priced(amount) => amount,
        }
    }
}

/// Whether a line that names one set of voices, or none, is for a set.
fn is_for(named: Option<VoiceSet>, voices: VoiceSet) -> bool
    ensures { result ≡ prices.is_for named voices.bits }
{
    match named {
        Some(set) => set.bits == voices.bits,
        None => true,
    }
}

/// Whether a line is for a rule, a set of voices and a bar.
fn relaxes(rule: u8, voices: VoiceSet, bar: u8, line: &Relax) -> bool
    ensures { result ≡ prices.relaxes rule voices.bits bar line.now }
{
    line.rule == rule && is_for(line.voices, voices) && line.from <= bar && bar <= line.to
}

/// The first line that is for a rule, a set of voices and a bar.
fn first_line(lines: &[Relax], rule: u8, voices: VoiceSet, bar: u8) -> Option<Relax>
    ensures { result ≡ find (prices.relaxes rule voices.bits bar) lines.now }
{
    lines
        .iter()
        .copied()
        .find(|line| relaxes(rule, voices, bar, line))
}

/// The price of a break of a rule by a set of voices in a bar, counted from 1.
pub fn price_at(ex: &Exercise, rule: u8, voices: VoiceSet, bar: u8) -> Price
    ensures value { result ≡ price_in ex.now rule voices.bits bar }
    ensures bound { IsValid ex.now → amount_of result ≤ 10000 }
    ensures first_rules { rule < 4 → result ≡ Price.Strict }
    ensures no_lines { ex.now.relax ≡ [] → result ≡ Price.Strict }
{
    if rule < 4 {
        return Price::Strict;
    }
    match first_line(ex.relax.as_slice(), rule, voices, bar) {
        Some(line) => Price::Priced(line.price),
        None => Price::Strict,
    }
}
