//! The names of intervals.

ghost use Rattle.std.specs.Prelude.{◌≡◌, ◌≤◌, ◌++◌, OnOk, pos, string_bytes, unsigned_abs};
ghost use Rattle.fux_pitch.specs.Key.{letter_key};
ghost use Rattle.fux_pitch.specs.Size.{IsShort};
ghost use Rattle.class_marker.specs.Intervals.{both_names, interval_name, interval_words, is_perfect_class, number_name, plain_word, quality, simple_name, small_word, wide_name, without_octaves};

use fux_pitch::{Interval, Memory, Pitch, interval_of, reduce};
use std::fmt::Write;

/// The name of an interval of so many degrees, seven at most.
fn simple_name(degrees: u16) -> &'static str
    ensures { result.now ≡ simple_name degrees }
{
    match degrees {
        0 => "unison",
        1 => "second",
        2 => "third",
        3 => "fourth",
        4 => "fifth",
        5 => "sixth",
        6 => "seventh",
        _ => "octave",
    }
}

/// The name of a wider one, of fourteen degrees at most.
fn wide_name(degrees: u16) -> &'static str
    ensures { result.now ≡ wide_name degrees }
{
    match degrees {
        8 => "ninth",
        9 => "tenth",
        10 => "eleventh",
        11 => "twelfth",
        12 => "thirteenth",
        13 => "fourteenth",
        _ => "fifteenth",
    }
}

/// The degrees without octaves, but for the last one where nothing else is left.
fn without_octaves(degrees: u16) -> u16
    ensures { result ≡ without_octaves degrees }
{
    if degrees % 7 == 0 { 7 } else { degrees % 7 }
}

/// Appends the name of an interval of so many degrees.
fn put_number(out: &mut String, degrees: u16) -> Result<(), Memory>
    ensures { OnOk result (string_bytes out.new ≡ string_bytes out.old ++ number_name degrees) }
{
    if degrees <= 7 {
        out.push_str(simple_name(degrees))?;
        return Ok(());
    }
    if degrees <= 14 {
        out.push_str(wide_name(degrees))?;
        return Ok(());
    }
    out.push_str("compound ")?;
    out.push_str(simple_name(without_octaves(degrees)))?;
    Ok(())
}

/// Whether intervals of this class are perfect where others are major.
fn is_perfect_class(class: u16) -> bool
    ensures { result ≡ is_perfect_class class }
{
    class == 0 || class == 3 || class == 4
}

/// The semitones of a class's perfect or major interval.
fn plain_size(class: u16) -> i16
    ensures value { result ≡ pos (letter_key class) }
    ensures small { letter_key class ≤ 11 }
{
    match class {
        0 => 0,
        1 => 2,
        2 => 4,
        3 => 5,
        4 => 7,
        5 => 9,
        _ => 11,
    }
}

/// What is said of that interval.
fn plain_word(class: u16) -> &'static str
    ensures { result.now ≡ plain_word class }
{
    if is_perfect_class(class) {
        return "";
    }
    "major "
}

/// What is said of a smaller one.
fn small_word(class: u16, by_one: bool) -> &'static str
    ensures { result.now ≡ small_word class by_one }
{
    if by_one && !is_perfect_class(class) {
        return "minor ";
    }
    "diminished "
}

/// What an interval within an octave is by its semitones.
fn quality(class: u16, within: Interval) -> &'static str
    ensures { result.now ≡ quality class within.semitones }
{
    let plain = plain_size(class);
    if plain < within.semitones {
        return "augmented ";
    }
    if within.semitones == plain {
        return plain_word(class);
    }
    small_word(class, within.semitones == plain - 1)
}

/// Appends the names of two pitches, each behind a space.
#[tactic(auto, unfolding(crate::specs::Intervals::both_names))]
fn put_both(out: &mut String, low: Pitch, high: Pitch) -> Result<(), Memory>
    ensures { OnOk result (string_bytes out.new ≡ string_bytes out.old ++ both_names low high) }
{
    write!(out, " {low} {high}")?;
    Ok(())
}

/// The degrees of an interval, whichever way it goes.
fn degrees_of(way: Interval) -> u16
    ensures { result ≡ unsigned_abs way.degrees }
{
    way.degrees.unsigned_abs()
}

/// Appends the name of an interval.
#[tactic(auto, unfolding(crate::specs::Intervals::interval_name))]
fn put_name(out: &mut String, way: Interval) -> Result<(), Memory>
    requires { IsShort way }
    ensures { OnOk result (string_bytes out.new ≡ string_bytes out.old ++ interval_name way) }
{
    let degrees = degrees_of(way);
    out.push_str(quality(degrees % 7, reduce(way)))?;
    put_number(out, degrees)?;
    Ok(())
}

/// Appends the interval between two pitches: its name, and theirs.
pub fn put_interval(out: &mut String, low: Pitch, high: Pitch) -> Result<(), Memory>
    ensures { OnOk result (string_bytes out.new ≡ string_bytes out.old ++ interval_words low high) }
{
    put_name(out, interval_of(low, high))?;
    put_both(out, low, high)
}
