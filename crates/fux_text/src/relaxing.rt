//! The relax lines.

ghost use Rattle.std.specs.Prelude.{◌≡◌, ◌≤◌, ◌-◌, ◌^◌, [], Some, codes, find};
ghost use Rattle.std.specs.List.{range_with_len};
ghost use Rattle.fux_text.specs.declared.fault.TextKind.TheVariants.{Head, Word};
ghost use Rattle.text_lines.specs.Faults.{Gives};
ghost use Rattle.text_lines.specs.Lines.{lines_of};
ghost use Rattle.text_lines.specs.Rows.{named_place, place_in, row_in};
ghost use Rattle.text_lines.specs.Tables.{goes_on, line_in, many_in};
ghost use Rattle.text_lines.specs.Words.{words_of};
ghost use Rattle.fux_text.specs.Lines.{voices_word};
ghost use Rattle.fux_text.specs.Relaxing.{is_set, relax_lines_of, relax_of, relax_row, rule_named, voices_named};

use crate::fault::{TextFault, TextKind};
use crate::limits::MOST_RELAX;
use fux_grid::{Exercise, Relax, VoiceSet};
use std::alloc::Global;
use text_lines::{Lines, Words, is_same, parse_within};

/// The rule of a word: an `S` and its number.
fn parse_rule(word: &[u8]) -> Option<u8>
    ensures { result ≡ rule_named word.now }
{
    match word {
        [b'S', number @ ..] => Some(parse_within(number, 4, 26)? as u8),
        _ => None,
    }
}

/// What the voices of a set are called.
#[tactic(auto, using(std::proofs::lemmas::Fmt::decimal_digit))]
fn set_name(set: VoiceSet) -> &'static [u8]
    requires { set.bits ≤ 15 }
    ensures { result.now ≡ voices_word (Some set) }
{
    match set.bits {
        1 => b"0",
        2 => b"1",
        3 => b"0,1",
        4 => b"2",
        5 => b"0,2",
        6 => b"1,2",
        7 => b"0,1,2",
        8 => b"3",
        9 => b"0,3",
        10 => b"1,3",
        11 => b"0,1,3",
        12 => b"2,3",
        13 => b"0,2,3",
        14 => b"1,2,3",
        15 => b"0,1,2,3",
        _ => b"",
    }
}

/// Whether the word is what these voices are called.
fn is_set(word: &[u8], bits: u8) -> bool
    requires { bits ≤ 15 }
    ensures { result ≡ is_set word.now bits }
{
    is_same(set_name(VoiceSet { bits }), word)
}

/// The bits of the set of some of so many voices that is called by the word.
fn find_set(word: &[u8], voices: u8) -> Option<u8>
    requires { voices ≤ 4 }
    ensures { result ≡ find (is_set word.now) (range_with_len 1 (2 ^ voices - 1)) }
{
    for bits in 1..1 << voices {
        if is_set(word, bits) {
            return Some(bits);
        }
    }
    None
}

/// The voices of a word: all, or a set of some of so many.
#[tactic(auto, unfolding(crate::specs::Relaxing::voices_named))]
fn parse_voices(word: &[u8], voices: u8) -> Option<Option<VoiceSet>>
    requires { voices ≤ 4 }
    ensures { result ≡ voices_named voices word.now }
{
    if is_same(b"all", word) {
        return Some(None);
    }
    let bits = find_set(word, voices)?;
    Some(Some(VoiceSet { bits }))
}

/// Reads a rule.
fn rule_in(words: Words<'_>) -> Result<(u8, Words<'_>), TextFault>
    ensures { Gives (λ x. (x.0, words_of x.1)) result (place_in (named_place Word Word rule_named)
        (words_of words.entry)) }
{
    let (word, words) = words.next(TextKind::Word)?;
    match parse_rule(word.text) {
        Some(rule) => Ok((rule, words)),
        None => Err(word.fault(TextKind::Word)),
    }
}

/// Reads the voices, of so many.
fn set_in(words: Words<'_>, voices: u8) -> Result<(Option<VoiceSet>, Words<'_>), TextFault>
    requires { voices ≤ 4 }
    ensures { Gives (λ x. (x.0, words_of x.1)) result
        (place_in (named_place Word Word (voices_named voices)) (words_of words.entry)) }
{
    let (word, words) = words.next(TextKind::Word)?;
    match parse_voices(word.text, voices) {
        Some(set) => Ok((set, words)),
        None => Err(word.fault(TextKind::Word)),
    }
}

/// Reads the words behind `relax`, of so many voices and bars.
#[tactic(auto, unfolding(text_lines::specs::Rows::row_in, text_lines::specs::Reading::number_in))]
pub fn relax_in(words: Words<'_>, most: u8, bars: u8) -> Result<Relax, TextFault>
    requires { most ≤ 4 }
    ensures { Gives (λ x. x) result (row_in (relax_of most bars) (words_of words.entry)) }
{
    let (rule, words) = rule_in(words)?;
    let (voices, words) = set_in(words, most)?;
    let (from, words) = words.small_number(TextKind::Word, 1, bars)?;
    let (to, words) = words.small_number(TextKind::Word, from, bars)?;
    let (price, words) = words.number(TextKind::Word, 0, 10_000)?;
    words.done(TextKind::Word)?;
    Ok(Relax {
        rule,
        voices,
        from,
        to,
        price,
    })
}

/// Reads a relax line.
#[tactic(auto, unfolding(text_lines::specs::Tables::line_in))]
fn relax_line<'a>(text: Lines<'a>, ex: &Exercise) -> Result<(Relax, Lines<'a>), TextFault>
    requires { ex.now.voices ≤ 4 }
    ensures { Gives (λ x. (x.0, lines_of x.1)) result
        (line_in Head Head (codes "relax") (relax_row ex.now) (lines_of text.entry)) }
{
    let (words, text) = text.headed(TextKind::Head, TextKind::Head, b"relax")?;
    let line = relax_in(words, ex.voices, ex.bars)?;
    Ok((line, text))
}

/// Whether the next line is a relax line that may stand behind those before.
fn goes_on(text: Lines<'_>, ex: &Exercise, before: &[Relax]) -> bool
    ensures { result ≡ goes_on (relax_lines_of ex.now) before.now (lines_of text.entry) }
{
    before.len() < MOST_RELAX && text.begins(b"relax")
}

/// Reads relax lines, as long as there are some, and up to the limit.
pub fn relaxes_in<'a>(
    alloc: Global,
    text: Lines<'a>,
    ex: &Exercise,
) -> Result<(Vec<Relax>, Lines<'a>), TextFault>
    requires { ex.now.voices ≤ 4 }
    ensures { Gives (λ x. (x.0.items, lines_of x.1)) result (many_in (relax_lines_of ex.now) []
        (lines_of text.entry).after (lines_of text.entry).lines) }
{
    let mut lines = Vec::new(alloc);
    let mut rest = text;
    while goes_on(rest, ex, &lines) {
        let (line, behind) = relax_line(rest, ex)?;
        lines.push(line)?;
        rest = behind;
    }
    Ok((lines, rest))
}
