//! The cantus firmus of a drill.

ghost use Rattle.std.specs.Prelude.{◌≡◌, ◌+◌, ◌*◌, ◌%◌, ◌<◌, ◌≤◌, ◌++◌, [], ◌∷◌, IfOk, OnOk, map, pos};
ghost use Rattle.fux_pitch.specs.Pitch.{degree_of, alter_of};
ghost use Rattle.drill_exercise.specs.Drill.{AreNaturals, drill_degrees, falls_by, moved, next_number, rises_by};

use fux_pitch::{Memory, Pitch};
use std::alloc::Global;

/// The degree of D4, on which the cantus firmus begins and ends, and below which it doesn't go.
const LOWEST: u8 = 29;

/// The degree of A4, above which it doesn't go.
const HIGHEST: u8 = 33;

/// The degree of E4, the last but one.
const BEFORE_LAST: u8 = 30;

/// The natural on a degree from D4 to F5.
pub fn natural(degree: u8) -> Pitch
    requires low { 29 ≤ degree }
    requires high { degree ≤ 38 }
    ensures degree { degree_of result ≡ degree }
    ensures alter { alter_of result ≡ pos 0 }
{
    Pitch::new(degree, 0).unwrap()
}

/// The number behind another one.
fn next_number(x: u32) -> u32
    ensures value { result ≡ next_number x }
    ensures bound { result < 1024 }
{
    ((5 * u64::from(x) + 3) % 1024) as u32
}

/// The degree so many steps below another one, or above it where that would be below D4.
fn falls_by(size: u8, degree: u8) -> u8
    requires size { size ≤ 2 }
    requires low { 29 ≤ degree }
    requires high { degree ≤ 33 }
    ensures value { result ≡ falls_by size degree }
    ensures low { 29 ≤ result }
    ensures high { result ≤ 33 }
{
    if LOWEST + size <= degree {
        degree - size
    } else {
        degree + size
    }
}

/// The degree so many steps above another one, or below it where that would be above A4.
fn rises_by(size: u8, degree: u8) -> u8
    requires size { size ≤ 2 }
    requires low { 29 ≤ degree }
    requires high { degree ≤ 33 }
    ensures value { result ≡ rises_by size degree }
    ensures low { 29 ≤ result }
    ensures high { result ≤ 33 }
{
    if degree + size <= HIGHEST {
        degree + size
    } else {
        degree - size
    }
}

/// The degree behind another one, by a choice from 0 to 3.
fn moved(choice: u32, degree: u8) -> u8
    requires low { 29 ≤ degree }
    requires high { degree ≤ 33 }
    ensures value { result ≡ moved choice degree }
    ensures low { 29 ≤ result }
    ensures high { result ≤ 33 }
{
    match choice {
        0 => falls_by(2, degree),
        1 => falls_by(1, degree),
        2 => rises_by(1, degree),
        _ => rises_by(2, degree),
    }
}

/// Appends the natural on a degree.
fn put(line: &mut Vec<Pitch>, degree: u8) -> Result<(), Memory>
    requires low { 29 ≤ degree }
    requires high { degree ≤ 38 }
    ensures degrees { OnOk result (map degree_of line.new.items ≡ map degree_of line.old.items
        ++ degree ∷ []) }
    ensures naturals { OnOk result (AreNaturals line.old.items → AreNaturals line.new.items) }
{
    line.push(natural(degree))?;
    Ok(())
}

/// The pitches of the cantus firmus.
pub fn cantus(alloc: Global, n: u32) -> Result<Vec<Pitch>, Memory>
    ensures degrees { IfOk result (λ line. map degree_of line.items ≡ drill_degrees n) }
    ensures naturals { IfOk result (λ line. AreNaturals line.items) }
{
    let mut line = Vec::with_capacity(alloc, 24)?;
    let mut x = n;
    let mut degree = LOWEST;
    put(&mut line, degree)?;
    for _ in 2..23u8 {
        x = next_number(x);
        degree = moved(x / 256, degree);
        put(&mut line, degree)?;
    }
    put(&mut line, BEFORE_LAST)?;
    put(&mut line, LOWEST)?;
    Ok(line)
}
