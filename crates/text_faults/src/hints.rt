//! What would be right where a fault stands.

ghost use Rattle.std.specs.Prelude.{◌≡◌, ◌++◌, OnOk};
ghost use Rattle.text_faults.specs.Hints.{bar_line_hint, cantus_hint, head_hint, hint, hint_of, is_first_word, length_hint, line_hint, mode_hint, no_length, range_hint, sing_hint, unfilled, utf8_hint, version_hint, word_hint};
ghost use Rattle.text_faults.specs.ItemHints.{pitch_hint};
ghost use Rattle.text_faults.specs.Shown.{name_in};
ghost use Rattle.text_faults.specs.Written.{pitch_told, written};

use crate::found::FoundFault;
use crate::item_hints::{item_hint, pitch_hint};
use crate::marked_lines::{before_colon, before_column, from_column, from_ink, word_at};
use crate::shown::{Form, Sentence, put_named, put_said};
use crate::slots::{bar_told, counted, end_told, given_told, last_told};
use crate::word_tests::{begins, begins_within, has};
use crate::written::{put_pitch, written};
use fux_pitch::Memory;
use fux_text::TextKind;
use std::alloc::Global;
use text_lines::is_same;

/// What would be right where bytes stop being UTF-8.
#[tactic(auto, unfolding(crate::specs::Hints::utf8_hint))]
fn utf8_hint(here: &[u8]) -> &'static str
    ensures { result.now ≡ utf8_hint here.now }
{
    if begins(&[0xFF], here) {
        "the file is UTF-16: save it as UTF-8"
    } else if begins(&[0xFE], here) {
        "the file is UTF-16: save it as UTF-8"
    } else if begins(&[0x00], here) {
        "the file is UTF-16: save it as UTF-8"
    } else {
        "these bytes are no UTF-8, and may be Latin-1: save the file as UTF-8"
    }
}

/// Whether a word is the first of a line.
#[tactic(auto, unfolding(crate::specs::Hints::is_first_word))]
fn is_first_word(word: &[u8]) -> bool
    ensures { result ≡ is_first_word word.now }
{
    is_same(word, b"fux")
        || is_same(word, b"mode")
        || is_same(word, b"voices")
        || is_same(word, b"bars")
        || is_same(word, b"species")
        || is_same(word, b"cantus")
        || is_same(word, b"range")
        || is_same(word, b"relax")
        || is_same(word, b"given")
        || is_same(word, b"sing")
}

/// What would be right where a line of another name is to stand, or none.
#[tactic(auto, unfolding(crate::specs::Hints::head_hint))]
fn head_hint(number: u32, word: &[u8]) -> Sentence
    ensures text { result.0.now ≡ (head_hint number word.now).0 }
    ensures form { result.1 ≡ (head_hint number word.now).1 }
{
    if word.is_empty() && number == 1 {
        (
            "the file is empty: its first line is `fux 1`",
            Form::Nothing,
        )
    } else if word.is_empty() {
        ("the text ends here, and a line is missing", Form::Nothing)
    } else if begins(&[0xEF, 0xBB, 0xBF], word) {
        (
            "a byte order mark stands here: save the file as plain UTF-8",
            Form::Nothing,
        )
    } else if begins(b"{", word) {
        (
            "this is a word processor's file: save it as plain text",
            Form::Nothing,
        )
    } else if begins(b"PK", word) {
        (
            "this is a word processor's file: save it as plain text",
            Form::Nothing,
        )
    } else if begins(b"<", word) {
        (
            "this is a page or a document with marks: save it as plain text",
            Form::Nothing,
        )
    } else if begins(b"%", word) {
        (
            "this is a page or a document with marks: save it as plain text",
            Form::Nothing,
        )
    } else if begins(b";", word) {
        (
            "the ; of a comment is the first byte of its line: take the blanks away",
            Form::Nothing,
        )
    } else if begins(b"#", word) {
        ("a comment begins with ;", Form::Nothing)
    } else if begins(b"/", word) {
        ("a comment begins with ;", Form::Nothing)
    } else if begins(b"-", word) {
        ("a comment begins with ;", Form::Nothing)
    } else if has(b'|', word) {
        (
            "a sing line is one line: put this at the end of the line above",
            Form::Nothing,
        )
    } else if has(b':', word) {
        (
            "a sing line is one line: put this at the end of the line above",
            Form::Nothing,
        )
    } else if begins_within(b'A', b'Z', word) {
        ("the words of a line are small: ", Form::Small)
    } else if begins(b"sing", word) {
        (
            "no sing line stands here: each voice has one, and the cantus firmus none",
            Form::Nothing,
        )
    } else if begins(b"given", word) {
        (
            "given lines stand before the sing lines, and need `fux 2` in the first line",
            Form::Nothing,
        )
    } else if !is_first_word(word) {
        ("no line begins with this word", Form::Nothing)
    } else {
        (
            "this line stands in the wrong place, or another one is missing above it",
            Form::Nothing,
        )
    }
}

/// What would be right for a version.
#[tactic(auto, unfolding(crate::specs::Hints::version_hint))]
fn version_hint(word: &[u8]) -> &'static str
    ensures { result.now ≡ version_hint word.now }
{
    if has(b'\r', word) {
        "the lines end by carriage returns alone: save the file with line feeds"
    } else {
        "the versions are 1 and 2, and nothing stands behind them"
    }
}

/// What would be right for a mode.
#[tactic(auto, unfolding(crate::specs::Hints::mode_hint))]
fn mode_hint(word: &[u8]) -> Sentence
    ensures text { result.0.now ≡ (mode_hint word.now).0 }
    ensures form { result.1 ≡ (mode_hint word.now).1 }
{
    if begins_within(b'A', b'Z', word) {
        ("the modes are in small letters: ", Form::Small)
    } else {
        (
            "the modes are dorian, phrygian, lydian, mixolydian, aeolian and ionian",
            Form::Nothing,
        )
    }
}

/// What would be right in a line that begins so.
#[tactic(auto, unfolding(crate::specs::Hints::line_hint))]
fn line_hint(line: &[u8]) -> &'static str
    ensures { result.now ≡ line_hint line.now }
{
    if begins(b"voices", line) {
        "the number of voices is 2, 3 or 4"
    } else if begins(b"species", line) {
        "a species is 1 to 5, with its voice, as in `species 2 voice 1`: voices count from 0"
    } else if begins(b"relax", line) {
        "a relax line is as `relax S4 all 1 6 100`: a rule, voices, bars and a price"
    } else {
        "nothing stands behind this line"
    }
}

/// What would be right for a word of a line, by how the line begins.
#[tactic(auto, unfolding(crate::specs::Hints::word_hint))]
fn word_hint(line: &[u8], here: &[u8], word: &[u8]) -> Sentence
    ensures text { result.0.now ≡ (word_hint line.now here.now word.now).0 }
    ensures form { result.1 ≡ (word_hint line.now here.now word.now).1 }
{
    if begins(b"sing", line) {
        item_hint(here, word)
    } else if begins(b"given", line) {
        item_hint(here, word)
    } else if begins(b"fux", line) {
        (version_hint(word), Form::Nothing)
    } else if begins(b"mode", line) {
        mode_hint(word)
    } else {
        (line_hint(line), Form::Nothing)
    }
}

/// What would be right in a range line, or where one is missing.
#[tactic(auto, unfolding(crate::specs::Hints::range_hint))]
fn range_hint(line: &[u8], word: &[u8]) -> &'static str
    ensures { result.now ≡ range_hint line.now word.now }
{
    if !begins(b"range", line) {
        "a voice has no range: each but the cantus firmus has a line `range V LOW HIGH`, from voice 0 on"
    } else if begins_within(b'A', b'G', word) {
        "the lower pitch comes first: `range V LOW HIGH`"
    } else {
        "a range line is `range V LOW HIGH`, with bars in a voice's later ones alone"
    }
}

/// What would be right in a cantus.
#[tactic(auto, unfolding(crate::specs::Hints::cantus_hint))]
fn cantus_hint(word: &[u8]) -> &'static str
    ensures { result.now ≡ cantus_hint word.now }
{
    if word.is_empty() {
        "a pitch is missing: the cantus firmus has one for each bar"
    } else if begins_within(b'0', b'9', word) {
        "the cantus firmus has another voice than the species: voices count from 0"
    } else {
        "a pitch too many: the cantus firmus has one for each bar"
    }
}

/// What would be right for the voice of a `sing` line.
#[tactic(auto, unfolding(crate::specs::Hints::sing_hint))]
fn sing_hint(word: &[u8]) -> Sentence
    ensures text { result.0.now ≡ (sing_hint word.now).0 }
    ensures form { result.1 ≡ (sing_hint word.now).1 }
{
    if word.is_empty() {
        (
            "a sing line is missing: each voice but the cantus firmus has one",
            Form::Nothing,
        )
    } else if has(b':', word) {
        ("no sign stands behind the voice: sing ", Form::Name)
    } else {
        (
            "voices count from 0, and sing lines go from the lowest, without the cantus firmus",
            Form::Nothing,
        )
    }
}

/// Appends what is told of lengths that don't fill a bar, where this stands before the place in a
/// line that begins so.
fn put_unfilled(alloc: Global, out: &mut Vec<u8>, line: &[u8], before: &[u8]) -> Result<(), Memory>
    ensures { OnOk result (out.new.items ≡ out.old.items ++ unfilled line.now before.now) }
{
    let count = counted(before);
    if begins(b"given", line) {
        put_text(out, &given_told(alloc, count)?)
    } else {
        put_text(out, &bar_told(alloc, count)?)
    }
}

/// Appends a text.
fn put_text(out: &mut Vec<u8>, text: &str) -> Result<(), Memory>
    ensures { OnOk result (out.new.items ≡ out.old.items ++ text.now) }
{
    out.extend_from_slice(text.as_bytes())?;
    Ok(())
}

/// Appends which lengths there are, and that of a whole bar for the name of a word.
fn put_no_length(out: &mut Vec<u8>, word: &[u8]) -> Result<(), Memory>
    ensures { OnOk result (out.new.items ≡ out.old.items ++ no_length word.now) }
{
    put_text(out, "a length is 1 to 8: a whole bar is ")?;
    put_named(out, word, b":8")?;
    Ok(())
}

/// Appends what would be right where lengths don't fill a bar, or are none.
#[tactic(auto, unfolding(crate::specs::Hints::length_hint))]
fn put_length(alloc: Global, out: &mut Vec<u8>, at: Place<'_>) -> Result<(), Memory>
    ensures { OnOk result (out.new.items ≡ out.old.items
        ++ length_hint at.entry.line.now at.entry.before.now at.entry.here.now at.entry.word.now) }
{
    if has(b':', at.word) {
        put_no_length(out, at.word)
    } else if has(b':', at.before) {
        put_unfilled(alloc, out, at.line, at.before)
    } else {
        put_text(out, "no bar line stands before the first bar")
    }
}

/// Appends what would be right where bars are too many or too few.
#[tactic(auto, unfolding(crate::specs::Hints::bar_line_hint))]
fn put_bar_line(alloc: Global, out: &mut Vec<u8>, at: Place<'_>) -> Result<(), Memory>
    ensures { OnOk result (out.new.items ≡ out.old.items
        ++ bar_line_hint at.entry.line.now at.entry.before.now at.entry.word.now) }
{
    if at.word.is_empty() {
        put_text(out, &end_told(alloc, counted(at.before))?)
    } else if begins(b"given", at.line) {
        put_text(out, "a given line has one bar, and no bar line")
    } else {
        put_text(out, &last_told(alloc, counted(at.before))?)
    }
}

/// Appends what would be right for a word that names no pitch.
fn put_pitch_hint(alloc: Global, out: &mut Vec<u8>, word: &[u8]) -> Result<(), Memory>
    ensures { OnOk result (out.new.items ≡ out.old.items
        ++ (pitch_hint (name_in word.now) ++ pitch_told (written (name_in word.now)))) }
{
    let name = before_colon(word);
    put_text(out, pitch_hint(name))?;
    put_pitch(out, &written(alloc, name)?)
}

/// A place of a line: the line from its first word on, what stands before the place and from there
/// on, and the word there.
#[derive(Clone, Copy)]
struct Place<'a> {
    line: &'a [u8],
    before: &'a [u8],
    here: &'a [u8],
    word: &'a [u8],
}

/// Appends what would be right at a place, by the kind of its fault and the number of its line.
fn put_hint_of(
    alloc: Global,
    out: &mut Vec<u8>,
    kind: TextKind,
    number: u32,
    at: Place<'_>,
) -> Result<(), Memory>
    ensures { OnOk result (out.new.items ≡ out.old.items
        ++ hint_of kind number at.entry.line.now at.entry.before.now at.entry.here.now
        at.entry.word.now) }
{
    let Place {
        line,
        here,
        word,
        ..
    } = at;
    match kind {
        TextKind::TooLong => put_text(
            out,
            "the file has more than 65536 bytes: a file is one exercise",
        ),
        TextKind::NotUtf8 => put_text(out, utf8_hint(here)),
        TextKind::Head => put_said(out, head_hint(number, word), here, word),
        TextKind::Word => put_said(out, word_hint(line, here, word), here, word),
        TextKind::Pitch => put_pitch_hint(alloc, out, word),
        TextKind::Length => put_length(alloc, out, at),
        TextKind::BarLine => put_bar_line(alloc, out, at),
        TextKind::Bars => put_text(out, "the number of bars is from 3 to 24"),
        TextKind::Range => put_text(out, range_hint(line, word)),
        TextKind::Cantus => put_text(out, cantus_hint(word)),
        TextKind::Tie => put_text(
            out,
            "_ holds a note over a bar line: within a bar write one longer note",
        ),
        TextKind::Sing => put_said(out, sing_hint(word), here, word),
        TextKind::Given => put_text(out, "the voice has another note than its given line here"),
    }
}

/// Appends what would be right at a fault in a line.
#[tactic(auto, unfolding(crate::specs::Hints::hint))]
pub fn put_hint(
    alloc: Global,
    out: &mut Vec<u8>,
    fault: FoundFault,
    line: &[u8],
) -> Result<(), Memory>
    ensures { OnOk result (out.new.items ≡ out.old.items ++ hint fault line.now) }
{
    let here = from_column(line, fault.column);
    let at = Place {
        line: from_ink(line),
        before: before_column(line, fault.column),
        here,
        word: word_at(here),
    };
    put_hint_of(alloc, out, fault.kind, fault.line, at)
}
