//! Reading a line of the lists, word by word.

ghost use Rattle.std.specs.Prelude.{◌≡◌, ◌+◌, ◌≤◌, ◌++◌, Err, IfOk, MatchResult};
ghost use Rattle.arrayvec.specs.ArrayVec.{array_vec_len};
ghost use Rattle.price_check.specs.LineLaws.{IsKeysRead};
ghost use Rattle.price_check.specs.PriceLines.{line_of};
ghost use Rattle.price_check.specs.Reading as reading;
ghost use Rattle.price_check.specs.Reading.{seen_by};

use crate::line::{Before, Keys, PriceLine};
use crate::words::{
    Kind, Part, case_of, first_word, inner_voice_of, key_of, kind_of, number_of, part_of, pitch_of,
    runs_of, voice_of,
};
use arrayvec::ArrayVec;
use fux_grid::Exercise;

/// Reads what stands behind `keeps`, which may end the line.
#[tactic(auto, unfolding(crate::specs::Reading::keeps_in, crate::specs::Reading::said))]
fn keeps_in(ends: bool, bytes: &[u8]) -> Result<(PriceLine, &[u8]), usize>
    ensures { seen_by (λ x. (line_of x.0, x.1.now)) result ≡ reading.keeps_in ends bytes.now }
{
    if ends {
        let (turns, runs) = (false, false);
        return Ok((PriceLine::Keeps { turns, runs }, bytes));
    }
    let word = first_word(bytes).ok_or(bytes.len())?;
    let part = part_of(&word).ok_or(bytes.len())?;
    match part {
        Part::Turns(true) => {
            let (turns, runs) = (true, false);
            Ok((PriceLine::Keeps { turns, runs }, word.rest))
        }
        Part::Turns(false) => {
            let left = word.rest.len();
            let next = first_word(word.rest).ok_or(left)?;
            let _ = runs_of(&next).ok_or(left)?;
            let (turns, runs) = (true, true);
            Ok((PriceLine::Keeps { turns, runs }, next.rest))
        }
        Part::Runs => {
            let (turns, runs) = (false, true);
            Ok((PriceLine::Keeps { turns, runs }, word.rest))
        }
    }
}

/// Reads keys that fall from below one, so many at most, to the line's end, behind others.
#[tactic(auto, unfolding(crate::specs::Reading::keys_in, crate::specs::Reading::said))]
fn keys_in<'a>(most: u8, high: u8, bytes: &'a [u8], keys: &mut Keys) -> Result<&'a [u8], usize>
    requires { array_vec_len keys.old + most ≤ 15 }
    ensures { IsKeysRead keys.old.items (reading.keys_in most high bytes.now) keys.new.items
        (seen_by (λ x. x.now) result) }
{
    if most == 0 {
        return Err(bytes.len());
    }
    let word = first_word(bytes).ok_or(bytes.len())?;
    let (key, ends) = key_of(high, &word).ok_or(bytes.len())?;
    keys.push(key);
    if ends {
        return Ok(word.rest);
    }
    keys_in(most - 1, key, word.rest, keys)
}

/// Reads what stands behind `cases`.
#[tactic(auto, unfolding(crate::specs::Reading::cases_in, crate::specs::Reading::said))]
fn cases_in<'a>(ex: &Exercise, bytes: &'a [u8]) -> Result<(PriceLine, &'a [u8]), usize>
    ensures { seen_by (λ x. (line_of x.0, x.1.now)) result ≡ reading.cases_in ex.now bytes.now }
{
    let word = first_word(bytes).ok_or(bytes.len())?;
    let (voice, ends) = voice_of(ex, &word).ok_or(bytes.len())?;
    let mut keys = ArrayVec::new();
    if ends {
        return Ok((PriceLine::Cases { voice, keys }, word.rest));
    }
    let rest = keys_in(15, 127, word.rest, &mut keys)?;
    Ok((PriceLine::Cases { voice, keys }, rest))
}

/// Reads what stands behind `price`.
#[tactic(auto, unfolding(crate::specs::Reading::price_in, crate::specs::Reading::said))]
fn price_in<'a>(
    ex: &Exercise,
    before: &Before,
    bytes: &'a [u8],
) -> Result<(PriceLine, &'a [u8]), usize>
    ensures { seen_by (λ x. (line_of x.0, x.1.now)) result
        ≡ reading.price_in ex.now before.now bytes.now }
{
    let word = first_word(bytes).ok_or(bytes.len())?;
    let case = case_of(before.cases, &word).ok_or(bytes.len())?;
    let left = word.rest.len();
    let word = first_word(word.rest).ok_or(left)?;
    let voice = inner_voice_of(ex, &word).ok_or(left)?;
    let left = word.rest.len();
    let word = first_word(word.rest).ok_or(left)?;
    let pitch = pitch_of(before.last, case, voice, &word).ok_or(left)?;
    let left = word.rest.len();
    let word = first_word(word.rest).ok_or(left)?;
    let number = number_of(&word).ok_or(left)?;
    let line = PriceLine::Price {
        case,
        voice,
        pitch,
        number,
    };
    Ok((line, word.rest))
}

/// Reads the line at the front of some bytes that stands behind others, and gives the bytes behind
/// it. It is refused at the first byte of the first word that can't stand there: so many bytes are
/// left.
#[tactic(auto, unfolding(crate::specs::Reading::line_in, crate::specs::Reading::said))]
pub fn line_in<'a>(
    ex: &Exercise,
    before: &Before,
    bytes: &'a [u8],
) -> Result<(PriceLine, &'a [u8]), usize>
    ensures { seen_by (λ x. (line_of x.0, x.1.now)) result
        ≡ reading.line_in ex.now before.now bytes.now }
{
    let word = first_word(bytes).ok_or(bytes.len())?;
    let kind = kind_of(before, &word).ok_or(bytes.len())?;
    match kind {
        Kind::Keeps(ends) => keeps_in(ends, word.rest),
        Kind::Cases => cases_in(ex, word.rest),
        Kind::Price => price_in(ex, before, word.rest),
        Kind::Claims => Ok((PriceLine::Claims, word.rest)),
    }
}
