//! What the notes of a setting are charged beforehand, case by case.

ghost use Rattle.std.specs.Prelude.{◌≡◌, ◌<◌, ◌≤◌, ◌*◌, ◌^◌, ℕ, slice_index, length, sum, if◌then◌else◌, IfOk};
ghost use Rattle.rule_law.specs.Voices as words_of_voices;
ghost use Rattle.rule_law.specs.Terms.{started_pitch};
ghost use Rattle.penalty_sheet.specs.Weights.{greatest_toll, weight_of};
ghost use Rattle.priced_floors.specs.Strikes as strike_words;
ghost use Rattle.priced_floors.specs.Fairness as fairness;
ghost use Rattle.priced_floors.specs.Charges as words;
ghost use Rattle.priced_floors.specs.Charges.{AreCases, AreFairCharges, AreSmallCharges, AreTopsWithin, prices_of, summit_at, summit_of};

use crate::prices::{PITCHES, Prices, Summit, strike_price, top_price};
use fux_grid::{Cell, Column, Exercise, cell_of};
use fux_pitch::{Memory, Pitch, semitone};
use penalty_sheet::{Sheet, weight};
use rule_law::is_free;
use std::alloc::Global;

/// How many parts make a unit of penalty.
pub const SCALE: u32 = 16;

/// How many cases there are at most.
pub const CASES: usize = 16;

/// What a note may be charged at most for its strike, and at most for being the summit.
pub const MOST_CHARGE: u32 = 1_048_576;

/// What each voice is charged for its strikes, and the cases by the greatest key of one of them.
#[derive(Drop)]
pub struct Charges {
    /// So many parts make a unit of penalty.
    pub scale: u32,
    /// What the strikes of each of four voices are charged, case by case.
    pub strikes: Vec<Prices>,
    /// The voice whose greatest key is of one case or another.
    pub voice: u8,
    pub summits: Vec<Summit>,
}

/// What a toll costs in parts, or the most that a note may be charged.
fn most_charge(sheet: &Sheet, toll: u8) -> u32
    requires first { 1 ≤ toll }
    requires last { toll ≤ greatest_toll }
    ensures due { result ≤ SCALE * weight_of sheet.now toll }
    ensures small { result ≤ MOST_CHARGE }
{
    (SCALE * u32::from(weight(sheet, toll))).min(MOST_CHARGE)
}

/// The same prices in our parts, each no higher than this.
fn capped(prices: &Prices, most: u32) -> Prices
    ensures scale { result.scale ≡ SCALE }
    ensures low { (place : ℕ) → slice_index result.strikes place ≤ most }
{
    let mut strikes = [0u32; PITCHES];
    for place in 0..PITCHES {
        strikes[place] = prices.strikes[place].min(most);
    }
    Prices {
        scale: SCALE,
        strikes,
    }
}

/// The prices of all voices, each no higher than this.
fn all_capped(alloc: Global, prices: &[Prices], most: u32) -> Result<Vec<Prices>, Memory>
    ensures scale { IfOk result (λ all. (v : ℕ) → (words.prices_in SCALE all.items v).scale
        ≡ SCALE) }
    ensures low { IfOk result (λ all. (v place : ℕ)
        → slice_index (words.prices_in SCALE all.items v).strikes place ≤ most) }
{
    let mut all = Vec::with_capacity(alloc, prices.len())?;
    for its in prices {
        all.push_reserved(capped(its, most));
    }
    Ok(all)
}

/// What a note at the high end of a case is charged: nothing where it has none.
fn charge_at(high: Option<u8>, charge: u32) -> u32
    ensures { result ≤ charge }
{
    match high {
        Some(_) => charge,
        None => 0,
    }
}

/// The cases between these keys, of lines that go from above one of them up to the one before it,
/// each charged this at its high end.
fn cases_between(alloc: Global, keys: &[u8], charge: u32) -> Result<Vec<Summit>, Memory>
    ensures all { IfOk result (λ summits. AreCases summits.items) }
    ensures low { IfOk result (λ summits. AreTopsWithin charge summits.items) }
    ensures few { IfOk result (λ summits. length summits.items ≤ CASES) }
{
    let mut summits = Vec::with_capacity(alloc, CASES)?;
    let mut high = None;
    for key in keys {
        if summits.len() + 1 < CASES && *key < 127 {
            let charge = charge_at(high, charge);
            summits.push_reserved(Summit {
                low: *key + 1,
                high,
                charge,
            });
            high = Some(*key);
        }
    }
    summits.push_reserved(Summit {
        low: 0,
        high,
        charge: 0,
    });
    Ok(summits)
}

impl Charges {
    /// Charges that are due: each voice is charged these prices as far as strikes cost so much, and
    /// one voice by its greatest key as far as climaxes do.
    pub fn new(
        alloc: Global,
        sheet: &Sheet,
        prices: &[Prices],
        voice: u8,
        keys: &[u8],
    ) -> Result<Charges, Memory>
        ensures fair { IfOk result (λ charges. AreFairCharges charges sheet.now) }
        ensures small { IfOk result (λ charges. AreSmallCharges MOST_CHARGE charges) }
        ensures scale { IfOk result (λ charges. charges.scale ≡ SCALE) }
        ensures few { IfOk result (λ charges. length charges.summits.items ≤ CASES) }
    {
        let strikes = all_capped(alloc, prices, most_charge(sheet, 20))?;
        let summits = cases_between(alloc, keys, most_charge(sheet, 17))?;
        Ok(Charges {
            scale: SCALE,
            strikes,
            voice,
            summits,
        })
    }

    /// The greatest keys of a case.
    #[inline]
    pub fn summit(&self, case: usize) -> Summit
        ensures { result ≡ summit_at self.now case }
    {
        match self.summits.get(case) {
            Some(summit) => *summit,
            None => Summit {
                low: 0,
                high: None,
                charge: 0,
            },
        }
    }

    /// What a voice is charged for a strike.
    #[inline]
    fn strike(&self, case: usize, v: u8, p: Pitch) -> u32
        requires few { case < CASES }
        requires small { AreSmallCharges MOST_CHARGE self.now }
        ensures value { result ≡ strike_words.strike_price (prices_of self.now case v).strikes p }
        ensures small { result ≤ MOST_CHARGE }
    {
        match self.strikes.get(4 * case + v as usize) {
            Some(prices) => strike_price(prices, p),
            None => 0,
        }
    }

    /// What it is charged for being at the summit.
    #[inline]
    fn top(&self, case: usize, v: u8, p: Pitch) -> u32
        requires { AreSmallCharges MOST_CHARGE self.now }
        ensures value { result ≡ strike_words.top_price (summit_of self.now case v) p }
        ensures small { result ≤ MOST_CHARGE }
    {
        if v != self.voice {
            return 0;
        }
        top_price(&self.summit(case), p)
    }

    /// What a voice is charged for the note that starts in its cell.
    #[inline]
    fn note(&self, case: usize, v: u8, cell: Cell) -> u32
        requires few { case < CASES }
        requires small { AreSmallCharges MOST_CHARGE self.now }
        ensures value { result ≡ words.note_charge (prices_of self.now case v)
            (summit_of self.now case v) (started_pitch cell) }
        ensures small { result ≤ 2 ^ 21 }
    {
        match cell {
            Cell::Start(p) => self.strike(case, v, p) + self.top(case, v, p),
            _ => 0,
        }
    }
}

/// The pitch that starts in a cell.
#[inline]
fn started(cell: Cell) -> Option<Pitch>
    ensures { result ≡ started_pitch cell }
{
    match cell {
        Cell::Start(p) => Some(p),
        _ => None,
    }
}

/// Whether the note that starts isn't above a key, where there is one.
#[inline]
fn keeps_within(high: Option<u8>, note: Option<Pitch>) -> bool
    ensures { result ≡ words.keeps_within high note }
{
    match (high, note) {
        (Some(key), Some(p)) => semitone(p) <= key,
        _ => true,
    }
}

/// Whether the note that starts is no lower than a key.
#[inline]
fn comes_to(low: u8, note: Option<Pitch>) -> bool
    ensures { result ≡ words.comes_to low note }
{
    if low == 0 {
        return true;
    }
    match note {
        Some(p) => low <= semitone(p),
        None => false,
    }
}

/// What a voice is charged for the note that starts in its cell; nothing where it isn't free.
#[inline]
fn voice_charge(ex: &Exercise, charges: &Charges, case: usize, v: u8, cell: Cell) -> u32
    requires few { case < CASES }
    requires small { AreSmallCharges MOST_CHARGE charges.now }
    ensures value { result ≡ (if words_of_voices.is_free ex.now v then words.note_charge
        (prices_of charges.now case v) (summit_of charges.now case v) (started_pitch cell) else 0) }
    ensures small { result ≤ 2 ^ 21 }
{
    if !is_free(ex, v) {
        return 0;
    }
    charges.note(case, v, cell)
}

/// What the notes that start in a column are charged.
fn column_charge(ex: &Exercise, charges: &Charges, case: usize, column: &Column) -> u32
    requires few { case < CASES }
    requires small { AreSmallCharges MOST_CHARGE charges.now }
    requires voices { ex.now.voices ≤ 4 }
    ensures value { result ≡ words.column_charge ex.now charges.now case column.now.items }
    ensures small { result < 2 ^ 24 }
{
    let mut sum = 0u32;
    for v in 0..ex.voices {
        let cell = cell_of(column.as_slice(), v as usize);
        sum += voice_charge(ex, charges, case, v, cell);
    }
    sum
}

/// What a column is charged in a case; none where it has a note above all that the case is of.
pub fn toll_of(ex: &Exercise, charges: &Charges, case: usize, column: &Column) -> Option<u32>
    requires few { case < CASES }
    requires small { AreSmallCharges MOST_CHARGE charges.now }
    requires voices { ex.now.voices ≤ 4 }
    ensures value { result ≡ words.toll_of ex.now charges.now case column.now.items }
    ensures small { words.IsBelow result (2 ^ 24) }
{
    let note = started(cell_of(column.as_slice(), charges.voice as usize));
    if !keeps_within(charges.summit(case).high, note) {
        return None;
    }
    Some(column_charge(ex, charges, case, column))
}

/// Whether a column has a note of the greatest keys that a case is of.
pub fn is_summit(charges: &Charges, case: usize, column: &Column) -> bool
    ensures { result ≡ words.is_summit charges.now case column.now.items }
{
    let note = started(cell_of(column.as_slice(), charges.voice as usize));
    comes_to(charges.summit(case).low, note)
}

/// The sum of some prices.
fn sum_of(prices: &[u32]) -> u64
    requires { length prices.now ≤ 2 ^ 16 }
    ensures value { result ≡ sum prices.now }
    ensures small { result ≤ 2 ^ 48 }
{
    let mut sum = 0u64;
    for price in prices {
        sum += u64::from(*price);
    }
    sum
}

/// What a voice may be charged that isn't due.
fn debt_of_voice(ex: &Exercise, charges: &Charges, case: usize, v: u8) -> u64
    requires few { case < CASES }
    ensures value { result ≡ (if words_of_voices.is_free ex.now v then fairness.debt_of
        (prices_of charges.now case v) (summit_of charges.now case v) else 0) }
    ensures small { result ≤ 2 ^ 52 }
{
    if !is_free(ex, v) {
        return 0;
    }
    let strikes = match charges.strikes.get(4 * case + v as usize) {
        Some(prices) => sum_of(&prices.strikes),
        None => 0,
    };
    let top = if v == charges.voice {
        charges.summit(case).charge
    } else {
        0
    };
    4 * strikes + u64::from(top)
}

/// What may be charged in a case that isn't due.
pub fn debt_in(ex: &Exercise, charges: &Charges, case: usize) -> u64
    requires few { case < CASES }
    requires voices { ex.now.voices ≤ 4 }
    ensures { result ≡ words.debt_in ex.now charges.now case }
{
    let mut sum = 0u64;
    for v in 0..ex.voices {
        sum += debt_of_voice(ex, charges, case, v);
    }
    sum
}
