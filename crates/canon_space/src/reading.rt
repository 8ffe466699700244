//! Reading the text of a canon.

ghost use Rattle.std.specs.Prelude.{◌≡◌, ◌+◌, ◌<◌, ◌≤◌, ◌≤ℤ◌, IfOk, IfSome, option_and_then, pos, negsuc};
ghost use Rattle.fux_pitch.specs.Pitch.{key_of};
ghost use Rattle.fux_text.specs.Names.{mode_named, pitch_named};
ghost use Rattle.canon_space.specs.Canons.{IsCanon};
ghost use Rattle.canon_space.specs.Texts as texts;
ghost use Rattle.text_lines.specs.Numbers.{number_within};
ghost use Rattle.text_lines.specs.Rows.{row_in};
ghost use Rattle.whole_lines.specs.Ended.{without};
ghost use Rattle.whole_lines.specs.Texts.{Reads, words_of};

use crate::canon::Canon;
use fux_pitch::{Mode, Pitch, semitone};
use fux_text::{parse_mode, parse_pitch};
use text_lines::parse_within;
use whole_lines::{Fault, Words, without_end};

/// The greatest number of bytes of a text.
const MOST_BYTES: usize = 65_536;

/// What the leader's line says: which voice leads, and its range.
#[derive(Clone, Copy, Debug, PartialEq, Eq)]
struct LeaderLine {
    voice: u8,
    range: (Pitch, Pitch),
}

/// The mode at a line's end.
fn last_mode(word: &[u8]) -> Option<Mode>
    ensures { result ≡ option_and_then mode_named (without 10 word.now) }
{
    parse_mode(without_end(word, b'\n')?)
}

/// The pitch before a space.
fn spaced_pitch(word: &[u8]) -> Option<Pitch>
    ensures { result ≡ option_and_then pitch_named (without 32 word.now) }
{
    parse_pitch(without_end(word, b' ')?)
}

/// The pitch at a line's end, whose key isn't below that of this one.
fn last_pitch(word: &[u8], low: Pitch) -> Option<Pitch>
    ensures value { result ≡ option_and_then (texts.high_named low) (without 10 word.now) }
    ensures rises { IfSome result (λ high. key_of low ≤ℤ key_of high) }
{
    let high = parse_pitch(without_end(word, b'\n')?)?;
    if semitone(low) <= semitone(high) {
        Some(high)
    } else {
        None
    }
}

/// A number from `least` to `most`, before the byte that ends its word.
fn number_in(word: &[u8], end: u8, least: u8, most: u8) -> Option<u8>
    ensures value { result ≡ option_and_then (number_within least most) (without end word.now) }
    ensures least { IfSome result (λ n. least ≤ n) }
    ensures most { IfSome result (λ n. n ≤ most) }
{
    let number = parse_within(without_end(word, end)?, u16::from(least), u16::from(most))?;
    Some(number as u8)
}

/// A number from -14 to 14.
fn shift_named(word: &[u8]) -> Option<i8>
    ensures value { result ≡ texts.shift_named word.now }
    ensures least { IfSome result (λ shift. negsuc 13 ≤ℤ shift) }
    ensures most { IfSome result (λ shift. shift ≤ℤ pos 14) }
{
    match word {
        [] => None,
        [b'-', digits @ ..] => Some(-(parse_within(digits, 1, 14)? as i8)),
        _ => Some(parse_within(word, 0, 14)? as i8),
    }
}

/// The same before a space.
fn spaced_shift(word: &[u8]) -> Option<i8>
    ensures value { result ≡ option_and_then texts.shift_named (without 32 word.now) }
    ensures least { IfSome result (λ shift. negsuc 13 ≤ℤ shift) }
    ensures most { IfSome result (λ shift. shift ≤ℤ pos 14) }
{
    shift_named(without_end(word, b' ')?)
}

/// The ranges by voice.
fn ranges_of(leader: &LeaderLine, range: (Pitch, Pitch)) -> [(Pitch, Pitch); 2]
    ensures { result ≡ texts.ranges_of leader.now range }
{
    if leader.voice == 0 {
        [leader.range, range]
    } else {
        [range, leader.range]
    }
}

/// What the lines of a text say.
fn canon_said(
    mode: Mode,
    bars: u8,
    leader: LeaderLine,
    shift: i8,
    delay: u8,
    range: (Pitch, Pitch),
) -> Canon
    requires least { 3 ≤ bars }
    requires most { bars ≤ 24 }
    requires voice { leader.voice < 2 }
    requires leader_rises { key_of leader.range.0 ≤ℤ key_of leader.range.1 }
    requires least_shift { negsuc 13 ≤ℤ shift }
    requires most_shift { shift ≤ℤ pos 14 }
    requires least_delay { 1 ≤ delay }
    requires most_delay { delay + 2 ≤ bars }
    requires rises { key_of range.0 ≤ℤ key_of range.1 }
    ensures value { result ≡ texts.canon_said mode bars leader shift delay range }
    ensures within { IsCanon result }
{
    Canon {
        mode,
        bars,
        leader: leader.voice,
        shift,
        delay,
        ranges: ranges_of(&leader, range),
    }
}

/// The canon of a text from its fifth line on, by what the lines before it say.
#[tactic(auto, unfolding(text_lines::specs::Rows::row_in, text_lines::specs::Reading::literal))]
fn from_follower(
    words: Words<'_>,
    mode: Mode,
    bars: u8,
    leader: LeaderLine,
) -> Result<Canon, Fault<u32>>
    requires least { 3 ≤ bars }
    requires most { bars ≤ 24 }
    requires voice { leader.voice < 2 }
    requires rises { key_of leader.range.0 ≤ℤ key_of leader.range.1 }
    ensures value { Reads (λ canon. canon) result (row_in (texts.follower_row mode bars leader)
        (words_of words.entry)) }
    ensures within { IfOk result IsCanon }
{
    let words = words.literal(5, b"follower ")?;
    let (word, words) = words.next(5)?;
    let Some(shift) = spaced_shift(word.text) else {
        return Err(word.fault(5));
    };
    let (word, words) = words.next(5)?;
    let Some(delay) = number_in(word.text, b' ', 1, bars - 2) else {
        return Err(word.fault(5));
    };
    from_range(words, mode, bars, leader, shift, delay)
}

/// The same from the fourth word of the fifth line on.
#[tactic(auto, unfolding(text_lines::specs::Rows::row_in))]
fn from_range(
    words: Words<'_>,
    mode: Mode,
    bars: u8,
    leader: LeaderLine,
    shift: i8,
    delay: u8,
) -> Result<Canon, Fault<u32>>
    requires least { 3 ≤ bars }
    requires most { bars ≤ 24 }
    requires voice { leader.voice < 2 }
    requires rises { key_of leader.range.0 ≤ℤ key_of leader.range.1 }
    requires least_shift { negsuc 13 ≤ℤ shift }
    requires most_shift { shift ≤ℤ pos 14 }
    requires least_delay { 1 ≤ delay }
    requires most_delay { delay + 2 ≤ bars }
    ensures value { Reads (λ canon. canon) result
        (row_in (texts.range_row mode bars leader shift delay) (words_of words.entry)) }
    ensures within { IfOk result IsCanon }
{
    let (word, words) = words.next(5)?;
    let Some(low) = spaced_pitch(word.text) else {
        return Err(word.fault(5));
    };
    let (word, words) = words.next(5)?;
    let Some(high) = last_pitch(word.text, low) else {
        return Err(word.fault(5));
    };
    words.done(6)?;
    Ok(canon_said(mode, bars, leader, shift, delay, (low, high)))
}

/// The same from the fourth line on.
#[tactic(auto, unfolding(text_lines::specs::Rows::row_in, text_lines::specs::Reading::literal))]
fn from_leader(words: Words<'_>, mode: Mode, bars: u8) -> Result<Canon, Fault<u32>>
    requires least { 3 ≤ bars }
    requires most { bars ≤ 24 }
    ensures value { Reads (λ canon. canon) result (row_in (texts.leader_row mode bars)
        (words_of words.entry)) }
    ensures within { IfOk result IsCanon }
{
    let words = words.literal(4, b"leader ")?;
    let (word, words) = words.next(4)?;
    let Some(voice) = number_in(word.text, b' ', 0, 1) else {
        return Err(word.fault(4));
    };
    let (word, words) = words.next(4)?;
    let Some(low) = spaced_pitch(word.text) else {
        return Err(word.fault(4));
    };
    let (word, words) = words.next(4)?;
    let Some(high) = last_pitch(word.text, low) else {
        return Err(word.fault(4));
    };
    let range = (low, high);
    from_follower(words, mode, bars, LeaderLine { voice, range })
}

/// The same from the third line on.
#[tactic(auto, unfolding(text_lines::specs::Rows::row_in, text_lines::specs::Reading::literal))]
fn from_bars(words: Words<'_>, mode: Mode) -> Result<Canon, Fault<u32>>
    ensures value { Reads (λ canon. canon) result
        (row_in (texts.bars_row mode) (words_of words.entry)) }
    ensures within { IfOk result IsCanon }
{
    let words = words.literal(3, b"bars ")?;
    let (word, words) = words.next(3)?;
    let Some(bars) = number_in(word.text, b'\n', 3, 24) else {
        return Err(word.fault(3));
    };
    from_leader(words, mode, bars)
}

/// The same from the second line on.
#[tactic(auto, unfolding(text_lines::specs::Rows::row_in, text_lines::specs::Reading::literal))]
fn from_mode(words: Words<'_>) -> Result<Canon, Fault<u32>>
    ensures value { Reads (λ canon. canon) result (row_in texts.mode_row (words_of words.entry)) }
    ensures within { IfOk result IsCanon }
{
    let words = words.literal(2, b"mode ")?;
    let (word, words) = words.next(2)?;
    let Some(mode) = last_mode(word.text) else {
        return Err(word.fault(2));
    };
    from_bars(words, mode)
}

/// The same from the first line on.
#[tactic(auto, unfolding(text_lines::specs::Rows::row_in, text_lines::specs::Reading::literal))]
fn from_title(words: Words<'_>) -> Result<Canon, Fault<u32>>
    ensures value { Reads (λ canon. canon) result (row_in texts.canon_row (words_of words.entry)) }
    ensures within { IfOk result IsCanon }
{
    let words = words.literal(1, b"fux-canon ")?;
    let words = words.literal(1, b"1\n")?;
    from_mode(words)
}

/// The canon that a text is of, or the number of its first line at fault, counted from 1.
#[tactic(auto, unfolding(crate::specs::Texts::canon_of, whole_lines::specs::Ended::said))]
pub fn read_canon(bytes: &[u8]) -> Result<Canon, u32>
    ensures value { result ≡ texts.canon_of bytes.now }
    ensures within { IfOk result IsCanon }
{
    if bytes.len() > MOST_BYTES {
        return Err(1);
    }
    match from_title(Words::new(bytes)) {
        Ok(canon) => Ok(canon),
        Err(fault) => Err(fault.kind),
    }
}

/// A law, and nothing to run: a text is read as a canon just where it is a text of that canon, and
/// a line is told just where the first fault stands in it.
pub fn canon_texts_are_read()
    ensures texts { texts.CanonTextsAreRead }
    ensures faults { texts.CanonFaultsAreRead }
{}
