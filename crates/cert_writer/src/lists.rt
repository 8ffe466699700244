//! The lines of the lists that a certificate states.

ghost use Rattle.std.specs.Prelude.{◌≡◌, ◌++◌, IfOk, IfSome, OnOk, map, string_bytes};
ghost use Rattle.price_check.specs.Lists.{lists_text};
ghost use Rattle.price_check.specs.PriceLines.{line_of};
ghost use Rattle.cert_writer.specs.Stating.{CanBeStated, FitBehind, IsStating, least_list};

use crate::stating::Stating;
use fux_grid::Exercise;
use fux_pitch::{Memory, Pitch};
use melody_rules::place_of;
use penalty_sheet::Sheet;
use price_check::{Keys, PriceLine, put_lists};
use price_rounds::Tuned;
use priced_floors::{PITCHES, Prices};
use std::alloc::Global;

/// The most bytes that a head and its lists may have.
const MOST_HEAD: usize = 65_536;

/// The first fifteen of keys, but for those that can't part cases.
fn first_keys(keys: &[u8]) -> Keys {
    let mut few = Keys::new();
    for key in keys {
        if *key < 127 && few.len() < 15 {
            few.push(*key);
        }
    }
    few
}

/// Puts the price of a pitch, where it has one.
fn put_price(
    stating: &mut Stating,
    ex: &Exercise,
    sheet: &Sheet,
    case: u8,
    voice: u8,
    pitch: Pitch,
    prices: &Prices,
) -> Result<(), Memory>
    requires { IsStating ex.now sheet.now stating.old }
    ensures { OnOk result (IsStating ex.now sheet.now stating.new) }
{
    let line = PriceLine::Price {
        case,
        voice,
        pitch,
        number: prices.strikes[place_of(pitch)],
    };
    stating.put(ex, sheet, line)
}

/// Puts the prices of a voice in a case.
fn put_prices(
    stating: &mut Stating,
    ex: &Exercise,
    sheet: &Sheet,
    case: u8,
    voice: u8,
    prices: &Prices,
) -> Result<(), Memory>
    requires { IsStating ex.now sheet.now stating.old }
    ensures { OnOk result (IsStating ex.now sheet.now stating.new) }
{
    for degree in 7..50u8 {
        for alter in [-1i8, 0, 1] {
            if let Some(pitch) = Pitch::new(degree, alter) {
                put_price(stating, ex, sheet, case, voice, pitch, prices)?;
            }
        }
    }
    Ok(())
}

/// Puts a list with prices, case by case, four voices each.
fn put_list(
    stating: &mut Stating,
    ex: &Exercise,
    sheet: &Sheet,
    tuned: &Tuned,
    prices: &[Prices],
) -> Result<(), Memory>
    requires { IsStating ex.now sheet.now stating.old }
    ensures { OnOk result (IsStating ex.now sheet.now stating.new) }
{
    stating.put(ex, sheet, keeps_line(tuned))?;
    let keys = first_keys(tuned.keys.as_slice());
    let cases = PriceLine::Cases {
        voice: tuned.voice,
        keys,
    };
    stating.put(ex, sheet, cases)?;
    for k in 0..prices.len() {
        put_prices(
            stating,
            ex,
            sheet,
            ((k / 4) & 31) as u8 + 1,
            (k % 4) as u8,
            &prices[k],
        )?;
    }
    Ok(())
}

/// The line of what each list keeps.
fn keeps_line(tuned: &Tuned) -> PriceLine {
    PriceLine::Keeps {
        turns: tuned.turns,
        runs: tuned.runs,
    }
}

/// The line of the least list there is: a plain one, which keeps nothing beside what always is.
pub fn least_lines(alloc: Global) -> Result<Vec<PriceLine>, Memory>
    ensures { IfOk result (λ lines. map line_of lines.items ≡ least_list) }
{
    let mut lines = Vec::new(alloc);
    lines.push(PriceLine::Keeps {
        turns: false,
        runs: false,
    })?;
    Ok(lines)
}

/// Whether two lists charge the same.
fn are_same(one: &[Prices], other: &[Prices]) -> bool {
    if one.len() != other.len() {
        return false;
    }
    for k in 0..one.len() {
        for place in 0..PITCHES {
            if one[k].strikes[place] != other[k].strikes[place] {
                return false;
            }
        }
    }
    true
}

/// Whether a list charges the same as one before it: stated once more it would tell nothing.
fn is_repeated(tuned: &Tuned, k: usize) -> bool {
    let Some(own) = tuned.lists.get(k) else {
        return false;
    };
    for j in 0..k {
        if let Some(other) = tuned.lists.get(j) {
            if are_same(own.as_slice(), other.as_slice()) {
                return true;
            }
        }
    }
    false
}

/// The lines of a plain list, and of so many lists with prices behind it, but for repeated ones.
fn lines_of_lists(
    alloc: Global,
    ex: &Exercise,
    sheet: &Sheet,
    tuned: &Tuned,
    count: usize,
) -> Result<Vec<PriceLine>, Memory>
    ensures { IfOk result (λ lines. CanBeStated ex.now sheet.now (map line_of lines.items)) }
{
    let mut stating = Stating::plain(alloc, ex, sheet, tuned.turns, tuned.runs)?;
    for k in 0..count.min(tuned.lists.len()) {
        if is_repeated(tuned, k) {
            continue;
        }
        put_list(&mut stating, ex, sheet, tuned, tuned.lists[k].as_slice())?;
    }
    Ok(stating.done(ex, sheet))
}

/// The text of lists behind that of a head.
pub fn text_behind(alloc: Global, front: &str, lines: &[PriceLine]) -> Result<String, Memory>
    ensures { IfOk result (λ text. string_bytes text ≡ front.now
        ++ lists_text (map line_of lines.now)) }
{
    let mut text = String::new(alloc);
    text.push_str(front)?;
    put_lists(&mut text, lines)?;
    Ok(text)
}

/// The lines of a plain list, and of as many lists with prices as there is room for behind the text
/// of a head, each stated once. None where there is no room for the plain one.
pub fn lines_within(
    alloc: Global,
    ex: &Exercise,
    sheet: &Sheet,
    tuned: &Tuned,
    front: &str,
) -> Result<Option<Vec<PriceLine>>, Memory>
    ensures { IfOk result (λ found. IfSome found (λ lines. FitBehind ex.now sheet.now front.now
        (map line_of lines.items))) }
{
    let count = tuned.lists.len();
    for less in 0..count + 1 {
        let lines = lines_of_lists(alloc, ex, sheet, tuned, count - less)?;
        let text = text_behind(alloc, front, lines.as_slice())?;
        if text.len() <= MOST_HEAD {
            return Ok(Some(lines));
        }
    }
    Ok(None)
}
