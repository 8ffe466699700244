//! The list of a class as people write it.

ghost use Rattle.std.specs.Prelude.{◌≡◌, ◌<◌, ◌≤◌, ◌∷◌, [], ℕ, List, length, map, string_bytes};
ghost use Rattle.std.specs.Str.Lines.{lines, strip_carriage_return};
ghost use Rattle.class_marker.specs.Lists.{Gives};
ghost use Rattle.class_marker.specs.Markings.{IsContent};
ghost use Rattle.class_marker.specs.LooseLists as words;
ghost use Rattle.class_marker.specs.LooseLists.{PutsName, loose_names, names_from};

use crate::list::{ListFault, listed_text};
use crate::one::Text;
use std::alloc::Global;

/// The greatest number of names.
const MOST_NAMES: usize = 512;

/// The greatest length of a name, in bytes.
const LONGEST_NAME: usize = 255;

/// A line without the carriage return at its end.
fn without_return(line: &str) -> &str
    ensures { result.now ≡ strip_carriage_return line.now }
{
    match line.strip_suffix('\r') {
        Some(front) => front,
        None => line,
    }
}

/// The first line of a text, and what stands behind it.
fn first_line(text: &str) -> (&str, &str)
    requires { 0 < length text.now }
    ensures lines { lines text.now ≡ result.0.now ∷ lines result.1.now }
    ensures shorter { length result.1.now < length text.now }
{
    match text.split_once('\n') {
        Some((line, behind)) => (without_return(line), behind),
        None => (text, ""),
    }
}

/// Whether a line may be a name behind so many.
fn may_be_name(names: usize, line: &str) -> bool
    ensures { result ≡ words.may_be_name names line.now }
{
    line.len() <= LONGEST_NAME && names < MOST_NAMES
}

/// Puts the name that the line of a number has behind others, if it has one.
fn put_name(
    alloc: Global,
    names: &mut Vec<String>,
    number: u32,
    line: &str,
) -> Result<(), ListFault>
    ensures { PutsName (map string_bytes names.old.items) number line.now
        (map string_bytes names.new.items) result }
{
    if line.is_empty() {
        return Ok(());
    }
    if !may_be_name(names.len(), line) {
        return Err(ListFault::At { line: number });
    }
    names.push(String::from_str(alloc, line)?)?;
    Ok(())
}

/// The names in the lines of a text.
fn names_in(alloc: Global, text: &str) -> Result<Vec<String>, ListFault>
    requires { length text.now ≤ 65536 }
    ensures { Gives result (names_from 1 [] (lines text.now)) }
{
    let mut names = Vec::new(alloc);
    let mut rest = text;
    let mut number = 1;
    while !rest.is_empty() {
        let (line, behind) = first_line(rest);
        put_name(alloc, &mut names, number, line)?;
        number += 1;
        rest = behind;
    }
    if names.is_empty() {
        return Err(ListFault::At { line: 1 });
    }
    Ok(names)
}

/// The names that a list has, in its order, as people write it: a line may end with a carriage
/// return and a line feed, the last one without either, and a line may be empty. A list has at most
/// 65,536 bytes of UTF-8 and 1 to 512 names, each of at most 255 bytes. A list that is too long,
/// without a name or no UTF-8 is at fault in line 1.
pub fn read_loose_list(alloc: Global, list: &Text) -> Result<Vec<String>, ListFault>
    ensures { (bytes : List ℕ) → IsContent 65536 list.now bytes
        → Gives result (loose_names bytes) }
{
    match listed_text(list) {
        Some(text) => names_in(alloc, text),
        None => Err(ListFault::At { line: 1 }),
    }
}
