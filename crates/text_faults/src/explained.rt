//! What is told of the faults of a text.

ghost use Rattle.std.specs.Prelude.{◌≡◌, ◌++◌, IfOk, OnOk, string_bytes};
ghost use Rattle.text_faults.specs.Explained.{TellsFaults, explained_fault, explained_faults, hint_line, place_line};

use crate::below::faults_from;
use crate::found::FoundFault;
use crate::hints::put_hint;
use crate::marked_lines::{line_at, put_marked};
use fux_pitch::Memory;
use std::alloc::Global;
use std::fmt::Write;

/// The line that tells a fault's place and kind.
#[tactic(auto, unfolding(crate::specs::Explained::place_line))]
fn place_line(alloc: Global, name: &str, fault: FoundFault) -> Result<String, Memory>
    ensures { IfOk result (λ text. string_bytes text ≡ place_line name.now fault) }
{
    let mut text = String::new(alloc);
    let FoundFault { kind, line, column } = fault;
    write!(text, "{name}:{line}:{column}: {kind}\n")?;
    Ok(text)
}

/// Appends the line that tells a fault's place and kind.
fn put_place(alloc: Global, out: &mut Vec<u8>, name: &str, fault: FoundFault) -> Result<(), Memory>
    ensures { OnOk result (out.new.items ≡ out.old.items ++ place_line name.now fault) }
{
    out.extend_from_slice(place_line(alloc, name, fault)?.as_bytes())?;
    Ok(())
}

/// Appends the line that tells what would be right at a fault in a line.
#[tactic(auto, unfolding(crate::specs::Explained::hint_line))]
fn put_sentence(
    alloc: Global,
    out: &mut Vec<u8>,
    fault: FoundFault,
    line: &[u8],
) -> Result<(), Memory>
    ensures { OnOk result (out.new.items ≡ out.old.items ++ hint_line fault line.now) }
{
    put_hint(alloc, out, fault, line)?;
    out.push(b'\n')?;
    Ok(())
}

/// Appends a fault: its place and its kind, its line with a caret, and what would be right.
#[tactic(auto, unfolding(crate::specs::Explained::explained_fault))]
fn put_fault(
    alloc: Global,
    out: &mut Vec<u8>,
    name: &str,
    bytes: &[u8],
    fault: FoundFault,
) -> Result<(), Memory>
    ensures { OnOk result
        (out.new.items ≡ out.old.items ++ explained_fault name.now bytes.now fault) }
{
    let line = line_at(bytes, fault.line);
    put_place(alloc, out, name, fault)?;
    put_marked(out, line, fault.column)?;
    put_sentence(alloc, out, fault, line)
}

/// Appends faults, one after the other.
fn put_faults(
    alloc: Global,
    out: &mut Vec<u8>,
    name: &str,
    bytes: &[u8],
    faults: &[FoundFault],
) -> Result<(), Memory>
    ensures { OnOk result (out.new.items ≡ out.old.items
        ++ explained_faults name.now bytes.now faults.now) }
{
    for fault in faults {
        put_fault(alloc, out, name, bytes, *fault)?;
    }
    Ok(())
}

/// What is told of a text of this name, of which the first fault is given: each of its faults, with
/// its line, a caret below the place, and what would be right there.
pub fn explained_faults(
    alloc: Global,
    name: &str,
    bytes: &[u8],
    first: FoundFault,
) -> Result<Vec<u8>, Memory>
    ensures { IfOk result (λ out. TellsFaults name.now bytes.now first out.items) }
{
    let faults = faults_from(alloc, bytes, first)?;
    let mut out = Vec::new(alloc);
    put_faults(alloc, &mut out, name, bytes, &faults)?;
    Ok(out)
}
