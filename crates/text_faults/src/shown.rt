//! How a word is to be written.

ghost use Rattle.std.specs.Prelude.{◌≡◌, ◌<◌, ◌++◌, IfSome, OnOk, length, map, position};
ghost use Rattle.std.specs.Char.{to_ascii_lowercase};
ghost use Rattle.std.specs.List.{after_first, before_first};
ghost use Rattle.text_faults.specs.Shown.{is_bar, is_comma, name_in, said, shown_as};

use crate::marked_lines::{before_colon, behind_blank, word_at};
use fux_pitch::Memory;

/// The form of a word behind a sentence.
#[derive(Clone, Copy)]
pub enum Form {
    /// No word stands there.
    Nothing,
    /// In small letters.
    Small,
    /// Its name alone.
    Name,
    /// Its name with the length of a whole bar.
    Whole,
    /// Its name with the length of a half.
    Half,
    /// What stands before its comma.
    Single,
    /// With the word behind it.
    Joined,
    /// With blanks at both sides of its bar line.
    Apart,
}

/// A sentence, and the form of the word that stands behind it.
pub type Sentence = (&'static str, Form);

/// The place of the first bar line.
fn bar_in(text: &[u8]) -> Option<usize>
    ensures first { result ≡ position is_bar text.now }
    ensures within { IfSome result (λ place. place < length text.now) }
{
    text.iter().position(|byte| *byte == b'|')
}

/// The place of the first comma.
fn comma_in(text: &[u8]) -> Option<usize>
    ensures first { result ≡ position is_comma text.now }
    ensures within { IfSome result (λ place. place < length text.now) }
{
    text.iter().position(|byte| *byte == b',')
}

/// What stands before the first bar line.
fn before_bar(text: &[u8]) -> &[u8]
    ensures { result.now ≡ before_first is_bar text.now }
{
    match bar_in(text) {
        Some(end) => &text[..end],
        None => text,
    }
}

/// What stands behind the first bar line.
fn behind_bar(text: &[u8]) -> &[u8]
    ensures { result.now ≡ after_first is_bar text.now }
{
    match bar_in(text) {
        Some(end) => &text[end + 1..],
        None => &[],
    }
}

/// What stands before the first comma.
fn before_comma(text: &[u8]) -> &[u8]
    ensures { result.now ≡ before_first is_comma text.now }
{
    match comma_in(text) {
        Some(end) => &text[..end],
        None => text,
    }
}

/// Appends a word in small letters.
fn put_small(out: &mut Vec<u8>, word: &[u8]) -> Result<(), Memory>
    ensures { OnOk result (out.new.items ≡ out.old.items ++ map to_ascii_lowercase word.now) }
{
    for byte in word {
        out.push(byte.to_ascii_lowercase())?;
    }
    Ok(())
}

/// Appends a word with the one behind it, where this stands from it on.
fn put_joined(out: &mut Vec<u8>, here: &[u8], word: &[u8]) -> Result<(), Memory>
    ensures { OnOk result (out.new.items ≡ out.old.items
        ++ shown_as Form.Joined here.now word.now) }
{
    out.extend_from_slice(word)?;
    out.extend_from_slice(word_at(behind_blank(here)))?;
    Ok(())
}

/// Appends a word with blanks at both sides of its bar line.
fn put_apart(out: &mut Vec<u8>, here: &[u8], word: &[u8]) -> Result<(), Memory>
    ensures { OnOk result (out.new.items ≡ out.old.items
        ++ shown_as Form.Apart here.now word.now) }
{
    out.extend_from_slice(before_bar(word))?;
    out.extend_from_slice(b" | ")?;
    out.extend_from_slice(behind_bar(word))?;
    Ok(())
}

/// Appends the name of a word, and a length behind it.
pub fn put_named(out: &mut Vec<u8>, word: &[u8], length: &[u8]) -> Result<(), Memory>
    ensures { OnOk result (out.new.items ≡ out.old.items ++ (name_in word.now ++ length.now)) }
{
    out.extend_from_slice(before_colon(word))?;
    out.extend_from_slice(length)?;
    Ok(())
}

/// Appends a word in a form, where this stands from it on.
fn put_form(out: &mut Vec<u8>, form: Form, here: &[u8], word: &[u8]) -> Result<(), Memory>
    ensures { OnOk result (out.new.items ≡ out.old.items ++ shown_as form here.now word.now) }
{
    match form {
        Form::Nothing => {}
        Form::Small => put_small(out, word)?,
        Form::Name => out.extend_from_slice(before_colon(word))?,
        Form::Whole => put_named(out, word, b":8")?,
        Form::Half => put_named(out, word, b":4")?,
        Form::Single => out.extend_from_slice(before_comma(word))?,
        Form::Joined => put_joined(out, here, word)?,
        Form::Apart => put_apart(out, here, word)?,
    }
    Ok(())
}

/// Appends a sentence with the word in its form, where this stands from the word on.
#[tactic(auto, unfolding(crate::specs::Shown::said))]
pub fn put_said(
    out: &mut Vec<u8>,
    sentence: Sentence,
    here: &[u8],
    word: &[u8],
) -> Result<(), Memory>
    ensures { OnOk result (out.new.items ≡ out.old.items
        ++ said (sentence.entry.0.now, sentence.entry.1) here.now word.now) }
{
    let (text, form) = sentence;
    out.extend_from_slice(text.as_bytes())?;
    put_form(out, form, here, word)
}
