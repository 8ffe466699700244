//! What the words of a line say.

ghost use Rattle.std.specs.Prelude.{◌≡◌, ◌<◌, ◌≤◌, ◌==◌, IfSome, length, option_map};
ghost use Rattle.std.specs.List.{position};
ghost use Rattle.text_lines.specs.Numbers.{if_within, number_within};
ghost use Rattle.price_check.specs.PriceLines as lines;
ghost use Rattle.price_check.specs.Reading as reading;
ghost use Rattle.price_check.specs.Reading.{is_end, word_of};

use crate::line::Before;
use fux_grid::Exercise;
use fux_pitch::Pitch;
use fux_text::parse_pitch;
use melody_rules::place_of;
use text_lines::{is_same, parse_number, parse_within};

/// The greatest price that may be stated.
const MOST_PRICE: u32 = 1_048_576;

/// A word, whether a line feed ends it or a space, and the bytes behind that.
#[derive(Clone, Copy)]
pub struct Word<'a> {
    pub text: &'a [u8],
    pub ends: bool,
    pub rest: &'a [u8],
}

/// Of which kind a line is, by its first word: whether `keeps` ends its line.
#[derive(Clone, Copy, Debug, PartialEq, Eq)]
pub enum Kind {
    Keeps(bool),
    Cases,
    Price,
    Claims,
}

/// What stands behind `keeps`: turning notes, which may end the line, or runs.
#[derive(Clone, Copy, Debug, PartialEq, Eq)]
pub enum Part {
    Turns(bool),
    Runs,
}

/// The place of the first space or line feed.
fn end_in(bytes: &[u8]) -> Option<usize>
    ensures first { result ≡ position is_end bytes.now }
    ensures within { IfSome result (λ place. place < length bytes.now) }
{
    bytes
        .iter()
        .position(|byte| *byte == b' ' || *byte == b'\n')
}

/// The word at the front.
#[tactic(auto, unfolding(crate::specs::Reading::first_word))]
pub fn first_word(bytes: &[u8]) -> Option<Word<'_>>
    ensures { option_map word_of result ≡ reading.first_word bytes.now }
{
    let end = end_in(bytes)?;
    Some(Word {
        text: &bytes[..end],
        ends: bytes[end] == b'\n',
        rest: &bytes[end + 1..],
    })
}

/// The kind of a line, where it may stand there.
#[tactic(auto, unfolding(crate::specs::Reading::kind_of))]
pub fn kind_of(before: &Before, word: &Word<'_>) -> Option<Kind>
    ensures { result ≡ reading.kind_of before.now (word_of word.now) }
{
    if is_same(word.text, b"keeps") {
        return if before.lists < 8 {
            Some(Kind::Keeps(word.ends))
        } else {
            None
        };
    }
    if is_same(word.text, b"cases") {
        return if before.kept && !word.ends {
            Some(Kind::Cases)
        } else {
            None
        };
    }
    if is_same(word.text, b"price") {
        return if 0 < before.cases && !word.ends {
            Some(Kind::Price)
        } else {
            None
        };
    }
    if is_same(word.text, b"claims") && 0 < before.lists && word.ends {
        return Some(Kind::Claims);
    }
    None
}

/// What a word behind `keeps` says.
#[tactic(auto, unfolding(crate::specs::Reading::part_of))]
pub fn part_of(word: &Word<'_>) -> Option<Part>
    ensures { result ≡ reading.part_of (word_of word.now) }
{
    if is_same(word.text, b"turns") {
        return Some(Part::Turns(word.ends));
    }
    if is_same(word.text, b"runs") && word.ends {
        return Some(Part::Runs);
    }
    None
}

/// Whether a word is `runs`, and ends its line.
#[tactic(auto, unfolding(crate::specs::Reading::runs_of))]
pub fn runs_of(word: &Word<'_>) -> Option<bool>
    ensures { result ≡ reading.runs_of (word_of word.now) }
{
    if is_same(word.text, b"runs") && word.ends {
        Some(true)
    } else {
        None
    }
}

/// The free voice that a word names.
fn free_voice(ex: &Exercise, text: &[u8]) -> Option<u8>
    ensures { result ≡ reading.free_named ex.now text.now }
{
    let voice = parse_within(text, 0, 3)? as u8;
    if voice < ex.voices && voice != ex.cantus_voice {
        Some(voice)
    } else {
        None
    }
}

/// The voice of the cases, and whether it ends its line.
#[tactic(auto, unfolding(crate::specs::Reading::voice_of))]
pub fn voice_of(ex: &Exercise, word: &Word<'_>) -> Option<(u8, bool)>
    ensures { result ≡ reading.voice_of ex.now (word_of word.now) }
{
    let voice = free_voice(ex, word.text)?;
    Some((voice, word.ends))
}

/// A key below another one, and whether it ends its line.
#[tactic(auto, unfolding(crate::specs::Reading::key_of))]
pub fn key_of(high: u8, word: &Word<'_>) -> Option<(u8, bool)>
    ensures { result ≡ reading.key_of high (word_of word.now) }
{
    let key = parse_within(word.text, 0, 126)? as u8;
    if key < high {
        Some((key, word.ends))
    } else {
        None
    }
}

/// A case, of so many.
#[tactic(auto, unfolding(crate::specs::Reading::case_of))]
pub fn case_of(cases: u8, word: &Word<'_>) -> Option<u8>
    ensures { result ≡ reading.case_of cases (word_of word.now) }
{
    if word.ends {
        return None;
    }
    let case = parse_within(word.text, 1, cases.into())?;
    Some(case as u8)
}

/// The voice of a price.
#[tactic(auto, unfolding(crate::specs::Reading::inner_voice_of))]
pub fn inner_voice_of(ex: &Exercise, word: &Word<'_>) -> Option<u8>
    ensures { result ≡ reading.inner_voice_of ex.now (word_of word.now) }
{
    if word.ends {
        return None;
    }
    free_voice(ex, word.text)
}

/// The place of a price among all.
pub fn price_place(case: u8, voice: u8, pitch: Pitch) -> u32
    ensures { result ≡ lines.price_place case voice pitch }
{
    (4 * u32::from(case) + u32::from(voice)) * 147 + place_of(pitch) as u32
}

/// The pitch of a price, which is later than the last one.
#[tactic(auto, unfolding(crate::specs::Reading::pitch_of))]
pub fn pitch_of(last: u32, case: u8, voice: u8, word: &Word<'_>) -> Option<Pitch>
    ensures { result ≡ reading.pitch_of last case voice (word_of word.now) }
{
    if word.ends {
        return None;
    }
    let pitch = parse_pitch(word.text)?;
    if last < price_place(case, voice, pitch) {
        Some(pitch)
    } else {
        None
    }
}

/// The price, which ends its line.
#[tactic(auto, unfolding(crate::specs::Reading::number_of))]
pub fn number_of(word: &Word<'_>) -> Option<u32>
    ensures { result ≡ reading.number_of (word_of word.now) }
{
    if !word.ends {
        return None;
    }
    let number = parse_number(word.text)?;
    if 1 <= number && number <= MOST_PRICE {
        Some(number)
    } else {
        None
    }
}
