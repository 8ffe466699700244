//! The lines that state potentials, and the line `claims` behind them, byte by byte.

ghost use Rattle.std.specs.Prelude.{◌≡◌, ◌≢◌, ◌+◌, ◌*◌, ◌^◌, ◌<◌, ◌≤◌, ℕ, None, IfSome, length};
ghost use Rattle.cert_text.specs.StatedLines.{IsStatedLine, StepTells, StopTells, stated_bytes};

use crate::potential::Potential;

/// What was read of a line.
#[derive(Clone, Copy, Debug, PartialEq, Eq)]
pub enum StatedLine {
    /// Nothing, of the line of a potential.
    Nothing,
    /// The line `n`, but for its line feed.
    NoChain,
    /// The letter of a number's line.
    Letter,
    /// That letter, and the space behind it.
    Blank,
    /// That, and digits behind it, which are those of this number.
    Number(u32),
    /// So many bytes of the line `claims`.
    Claims(usize),
}

/// What one more byte makes of a line.
#[derive(Clone, Copy, Debug, PartialEq, Eq)]
pub enum StatedStep {
    /// The line goes on.
    Goes(StatedLine),
    /// The line ends: that of a potential, or the line `claims`.
    Ends(Option<Potential>),
    /// No line that is owed begins so.
    Wrong,
}

/// What a piece makes of a line, and how many of its bytes were read for that.
#[derive(Clone, Copy, Debug, PartialEq, Eq)]
pub struct StatedStop {
    pub used: usize,
    pub step: StatedStep,
}

/// What the first byte of a potential's line makes of it.
fn first(byte: u8) -> StatedStep
    ensures { StepTells StatedLine.Nothing byte result }
{
    match byte {
        b'n' => StatedStep::Goes(StatedLine::NoChain),
        b'p' => StatedStep::Goes(StatedLine::Letter),
        _ => StatedStep::Wrong,
    }
}

/// What a byte makes of `n`.
fn after_no_chain(byte: u8) -> StatedStep
    ensures { StepTells StatedLine.NoChain byte result }
{
    if byte == b'\n' {
        StatedStep::Ends(Some(Potential::NoChain))
    } else {
        StatedStep::Wrong
    }
}

/// What a byte makes of `p`.
fn after_letter(byte: u8) -> StatedStep
    ensures { StepTells StatedLine.Letter byte result }
{
    if byte == b' ' {
        StatedStep::Goes(StatedLine::Blank)
    } else {
        StatedStep::Wrong
    }
}

/// What a byte makes of `p` and a space.
fn after_blank(byte: u8) -> StatedStep
    ensures { StepTells StatedLine.Blank byte result }
{
    match byte {
        b'0'..=b'9' => StatedStep::Goes(StatedLine::Number((byte - b'0') as u32)),
        _ => StatedStep::Wrong,
    }
}

/// The number whose digits are those of another one and one more; none where that begins with a
/// zero, or is too great.
fn with_digit(number: u32, byte: u8) -> Option<u32>
    ensures some { IfSome result (λ longer. (1 ≤ number) × (longer + 48 ≡ 10 * number + byte)
        × (48 ≤ byte) × (byte ≤ 57)) }
    ensures none { result ≡ None → (digit : ℕ) → digit < 10 → byte ≡ 48 + digit → 1 ≤ number
        → 2 ^ 32 ≤ 10 * number + digit }
{
    if number == 0 || byte < b'0' || byte > b'9' {
        return None;
    }
    let longer = 10 * number as u64 + (byte - b'0') as u64;
    if longer > u32::MAX as u64 {
        None
    } else {
        Some(longer as u32)
    }
}

/// What a byte makes of a number's line.
fn after_number(number: u32, byte: u8) -> StatedStep
    requires { number < 2 ^ 32 }
    ensures { StepTells (StatedLine.Number number) byte result }
{
    if byte == b'\n' {
        return StatedStep::Ends(Some(Potential::Least(number)));
    }
    match with_digit(number, byte) {
        Some(longer) => StatedStep::Goes(StatedLine::Number(longer)),
        None => StatedStep::Wrong,
    }
}

/// What a byte makes of the line `claims`, of which so many bytes were read.
fn after_claims(read: usize, byte: u8) -> StatedStep
    requires { read ≤ 6 }
    ensures { StepTells (StatedLine.Claims read) byte result }
{
    if byte != b"claims\n"[read] {
        StatedStep::Wrong
    } else if read == 6 {
        StatedStep::Ends(None)
    } else {
        StatedStep::Goes(StatedLine::Claims(read + 1))
    }
}

/// How many digits a number has.
fn digits(number: u32) -> u64
    ensures { result + 2 ≡ length (stated_bytes (StatedLine.Number number)) }
{
    if number < 10 {
        1
    } else {
        1 + digits(number / 10)
    }
}

impl StatedLine {
    /// How many bytes were read.
    pub fn len(self) -> u64
        requires { IsStatedLine self }
        ensures { result ≡ length (stated_bytes self) }
    {
        match self {
            StatedLine::Nothing => 0,
            StatedLine::NoChain => 1,
            StatedLine::Letter => 1,
            StatedLine::Blank => 2,
            StatedLine::Number(number) => 2 + digits(number),
            StatedLine::Claims(read) => read as u64,
        }
    }

    /// What a byte makes of the line.
    fn step(self, byte: u8) -> StatedStep
        requires { IsStatedLine self }
        ensures { StepTells self byte result }
    {
        match self {
            StatedLine::Nothing => first(byte),
            StatedLine::NoChain => after_no_chain(byte),
            StatedLine::Letter => after_letter(byte),
            StatedLine::Blank => after_blank(byte),
            StatedLine::Number(number) => after_number(number, byte),
            StatedLine::Claims(read) => after_claims(read, byte),
        }
    }

    /// What a piece makes of the line: it is read up to the end of the line, up to a byte that is
    /// wrong, or whole.
    pub fn read(self, piece: &[u8]) -> StatedStop
        requires { IsStatedLine self }
        ensures { StopTells self piece.now result }
    {
        let mut line = self;
        for (i, byte) in piece.iter().enumerate() {
            match line.step(*byte) {
                StatedStep::Goes(longer) => line = longer,
                step => return StatedStop { used: i + 1, step },
            }
        }
        StatedStop {
            used: piece.len(),
            step: StatedStep::Goes(line),
        }
    }
}
