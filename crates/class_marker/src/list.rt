//! The list of a class: the names of the files that its exercises stand in.

ghost use Rattle.std.specs.Prelude.{◌≡◌, ◌&&◌, ℕ, ◌≤◌, IfSome, List, MatchOption, length, nat_lt};
ghost use Rattle.class_marker.specs.Lists.{Gives, IsListed, ListFaultsAreRead, ListsAreRead, is_name, listed_names, names_row};
ghost use Rattle.class_marker.specs.Markings.{IsContent};
ghost use Rattle.whole_lines.specs.Ended.{is_feed, said};
ghost use Rattle.whole_lines.specs.Texts.{CutsLine};

use crate::one::Text;
use std::alloc::{AllocError, AllocFailed, Global};

/// The greatest number of lines.
const MOST_NAMES: usize = 512;

/// The greatest length of a name, in bytes.
const LONGEST_NAME: usize = 255;

/// Why a text is no list.
#[derive(Clone, Copy, Debug, PartialEq, Eq)]
pub enum ListFault {
    /// The number of the first line at fault, counted from 1.
    At { line: u32 },
    /// There was not enough memory.
    Memory,
}

impl From<AllocError> for ListFault {
    ghost use Rattle.class_marker.specs.declared.list.ListFault.TheVariants.{Memory};

    ghost from_gives = { λ _ fault. fault ≡ Memory };

    fn from(_: AllocError) -> Self {
        ListFault::Memory
    }
}

impl<T: Drop> From<AllocFailed<T>> for ListFault {
    ghost use Rattle.class_marker.specs.declared.list.ListFault.TheVariants.{Memory};

    ghost from_gives = { λ _ fault. fault ≡ Memory };

    fn from(_: AllocFailed<T>) -> Self {
        ListFault::Memory
    }
}

/// The first line that a line feed ends, and what stands behind that.
fn next_line(text: &str) -> Option<(&str, &str)>
    ensures { CutsLine text.now result }
{
    text.split_once('\n')
}

/// Whether a line is a name that may stand behind so many.
fn is_name_behind(line: &str, names: usize) -> bool
    ensures { result ≡ (is_name line.now && nat_lt names 512) }
{
    !line.is_empty() && line.len() <= LONGEST_NAME && names < MOST_NAMES
}

/// The names in the lines of a text.
fn names_in(alloc: Global, text: &str) -> Result<Vec<String>, ListFault>
    ensures { Gives result (said is_feed names_row text.now) }
{
    let mut names = Vec::new(alloc);
    let mut rest = text;
    while !rest.is_empty() {
        let fault = ListFault::At {
            line: names.len() as u32 + 1,
        };
        let Some((name, behind)) = next_line(rest) else {
            return Err(fault);
        };
        if !is_name_behind(name, names.len()) {
            return Err(fault);
        }
        names.push(String::from_str(alloc, name)?)?;
        rest = behind;
    }
    if names.is_empty() {
        return Err(ListFault::At { line: 1 });
    }
    Ok(names)
}

/// The text of a list, where it is one: at most 65,536 bytes of UTF-8.
pub fn listed_text(list: &Text) -> Option<&str>
    ensures text { (bytes : List ℕ) → IsContent 65536 list.now bytes
        → MatchOption result (IsListed bytes → ⊥) (λ text. IsListed bytes × (text.now ≡ bytes)) }
    ensures few { IfSome result (λ text. length text.now ≤ 65536) }
{
    let Text::Bytes(bytes) = list else {
        return None;
    };
    if bytes.len() > 65_536 {
        return None;
    }
    match std::str::from_utf8(bytes) {
        Ok(text) => Some(text),
        Err(_) => None,
    }
}

/// The names that a list has, in its order. A list has at most 65,536 bytes of UTF-8 in 1 to 512
/// lines, and each line is a name of 1 to 255 bytes with a line feed behind it. A list that is too
/// long, empty or no UTF-8 is at fault in line 1.
pub fn read_list(alloc: Global, list: &Text) -> Result<Vec<String>, ListFault>
    ensures { (bytes : List ℕ) → IsContent 65536 list.now bytes
        → Gives result (listed_names bytes) }
{
    match listed_text(list) {
        Some(text) => names_in(alloc, text),
        None => Err(ListFault::At { line: 1 }),
    }
}

/// A law, and nothing to run: names are listed just where the lines of a text are names, one each,
/// and a line is told just where the first fault stands in it.
pub fn lists_are_read()
    ensures names { ListsAreRead }
    ensures faults { ListFaultsAreRead }
{}
