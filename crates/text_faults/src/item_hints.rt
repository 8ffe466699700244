//! What would be right in the items of a `sing` or `given` line, and where a pitch is wrong.

ghost use Rattle.std.specs.Prelude.{◌≡◌};
ghost use Rattle.std.specs.List.{after_first};
ghost use Rattle.text_lines.specs.Words.{is_blank};
ghost use Rattle.text_faults.specs.ItemHints.{item_hint, pitch_hint};

use crate::marked_lines::behind_blank;
use crate::shown::{Form, Sentence};
use crate::word_tests::{begins, begins_within, has, has_digit};

/// What would be right for a word that is no item, where this stands from its place on.
#[tactic(auto, unfolding(crate::specs::ItemHints::item_hint))]
pub fn item_hint(here: &[u8], word: &[u8]) -> Sentence
    ensures text { result.0.now ≡ (item_hint here.now word.now).0 }
    ensures form { result.1 ≡ (item_hint here.now word.now).1 }
{
    let behind = behind_blank(here);
    if begins(b"|", word) {
        (
            "nothing stands behind the last bar: take this away",
            Form::Nothing,
        )
    } else if begins(b";", word) {
        (
            "a comment stands in a line of its own, which begins with ;",
            Form::Nothing,
        )
    } else if begins(b"#", word) {
        (
            "a comment stands in a line of its own, which begins with ;",
            Form::Nothing,
        )
    } else if begins(b":", word) {
        ("no blank stands before a colon: `A4:4`", Form::Nothing)
    } else if begins(b":", behind) {
        ("no blank stands before a colon: ", Form::Joined)
    } else if has(b'|', word) {
        ("blanks stand at both sides of a bar line: ", Form::Apart)
    } else if has(b',', word) {
        ("items are apart by blanks alone: ", Form::Single)
    } else if has(0xA0, word) {
        (
            "a no-break space stands here, as web pages have it: type a blank",
            Form::Nothing,
        )
    } else if has(b'/', word) {
        ("lengths count eighths of a bar: a half is ", Form::Half)
    } else if has(b'.', word) {
        ("lengths count eighths of a bar: a half is ", Form::Half)
    } else if has(b'?', word) {
        (
            "a ? stands in given lines alone: write a note",
            Form::Nothing,
        )
    } else if has(b'O', word) {
        (
            "this is the letter O: a length is a digit from 1 to 8",
            Form::Nothing,
        )
    } else if has(b'o', word) {
        (
            "this is the letter O: a length is a digit from 1 to 8",
            Form::Nothing,
        )
    } else if has(b':', word) {
        (
            "an item is a pitch, r or _, a colon and a length, as `A4:4`",
            Form::Nothing,
        )
    } else {
        ("a length is missing: a whole bar is ", Form::Whole)
    }
}

/// What would be right for a word that names no pitch.
#[tactic(auto, unfolding(crate::specs::ItemHints::pitch_hint))]
pub fn pitch_hint(name: &[u8]) -> &'static str
    ensures { result.now ≡ pitch_hint name.now }
{
    if begins(b"R", name) {
        "a rest is a small r"
    } else if begins(b"_", name) {
        "a held note is _ and a length, as in _:4, and names no pitch"
    } else if has(0xE2, name) {
        "the flat sign is written b, and the sharp sign #"
    } else if begins(b"H", name) {
        "H is no pitch here, and the note below C is B"
    } else if begins(b"h", name) {
        "H is no pitch here, and the note below C is B"
    } else if has(b'\'', name) {
        "octaves are digits, and letters of pitches capitals"
    } else if begins(b"BB", name) {
        "the flat sign is a small b"
    } else if begins_within(b'a', b'g', name) {
        "letters of pitches are capitals"
    } else if begins_within(b'0', b'9', name) {
        "the octave stands behind the letter and its sign"
    } else if has(b's', name) {
        "this is a German name, and a sharp sign is written #, a flat sign b"
    } else if !has_digit(name) {
        "the octave is missing, and that from the middle C on is 4"
    } else {
        "a pitch is a letter A to G, a # or b or nothing, and an octave, from C1 to C7"
    }
}
