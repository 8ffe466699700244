//! A claim's line, byte by byte.

ghost use Rattle.std.specs.Prelude.{◌≡◌, ◌+◌, ◌*◌, ◌<◌, ◌≤◌, ◌++◌, [], ◌∷◌, ℕ, None, IfSome, length, take};
ghost use Rattle.std.specs.Fmt.{decimal};
ghost use Rattle.cert_text.specs.Lines.{IsClaim, claim_word};
ghost use Rattle.fux_grid.specs.Exercises.{greatest_rule};
ghost use Rattle.cert_text.specs.Begun.{IsBegun, begun_bytes, StepTells, StopTells};

use crate::claim::Claim;
use fux_grid::GREATEST_RULE;

/// What was read of a line.
#[derive(Clone, Copy, Debug, PartialEq, Eq)]
pub enum Begun {
    /// Nothing.
    Nothing,
    /// The line of a claim, but for its line feed.
    Word(Claim),
    /// The letter of a broken rule's line.
    Letter,
    /// That letter, and the space behind it.
    Blank,
}

/// What one more byte makes of a line.
#[derive(Clone, Copy, Debug, PartialEq, Eq)]
pub enum Step {
    /// The line goes on.
    Goes(Begun),
    /// The line ends.
    Ends(Claim),
    /// No claim's line begins so.
    Wrong,
}

/// What a piece makes of a line, and how many of its bytes were read for that.
#[derive(Clone, Copy, Debug, PartialEq, Eq)]
pub struct Stop {
    pub used: usize,
    pub step: Step,
}

/// What the first byte of a line makes of it.
fn first(byte: u8) -> Step
    ensures { StepTells Begun.Nothing byte result }
{
    match byte {
        b'o' => Step::Goes(Begun::Word(Claim::Open)),
        b'x' => Step::Goes(Begun::Word(Claim::NoChain)),
        b'f' => Step::Goes(Begun::Word(Claim::Floor)),
        b's' => Step::Goes(Begun::Word(Claim::TheScore)),
        b'b' => Step::Goes(Begun::Letter),
        _ => Step::Wrong,
    }
}

/// What a byte makes of `b`.
fn after_letter(byte: u8) -> Step
    ensures { StepTells Begun.Letter byte result }
{
    if byte == b' ' {
        Step::Goes(Begun::Blank)
    } else {
        Step::Wrong
    }
}

/// What a byte makes of `b` and a space.
fn after_blank(byte: u8) -> Step
    ensures { StepTells Begun.Blank byte result }
{
    match byte {
        b'1'..=b'9' => Step::Goes(Begun::Word(Claim::Broken(byte - b'0'))),
        _ => Step::Wrong,
    }
}

/// The rule whose number is that of another one and a digit behind it.
fn with_digit(rule: u8, byte: u8) -> Option<u8>
    requires { 1 ≤ rule }
    ensures some { IfSome result (λ longer. (10 ≤ longer) × (longer ≤ greatest_rule)
        × (longer + 48 ≡ 10 * rule + byte) × (48 ≤ byte) × (byte ≤ 57)) }
    ensures none { result ≡ None → (digit : ℕ) → digit < 10 → byte ≡ 48 + digit → greatest_rule
        < 10 * rule + digit }
{
    if rule > 2 || byte < b'0' || byte > b'9' {
        return None;
    }
    let longer = 10 * rule + (byte - b'0');
    if longer > GREATEST_RULE {
        None
    } else {
        Some(longer)
    }
}

/// What a byte makes of a broken rule's line.
fn after_rule(rule: u8, byte: u8) -> Step
    requires { IsBegun (Begun.Word (Claim.Broken rule)) }
    ensures { StepTells (Begun.Word (Claim.Broken rule)) byte result }
{
    if byte == b'\n' {
        return Step::Ends(Claim::Broken(rule));
    }
    match with_digit(rule, byte) {
        Some(longer) => Step::Goes(Begun::Word(Claim::Broken(longer))),
        None => Step::Wrong,
    }
}

/// What a byte makes of a claim's line that lacks its line feed.
fn after_word(claim: Claim, byte: u8) -> Step
    requires { IsBegun (Begun.Word claim) }
    ensures { StepTells (Begun.Word claim) byte result }
{
    match claim {
        Claim::Broken(rule) => after_rule(rule, byte),
        _ => {
            if byte == b'\n' {
                Step::Ends(claim)
            } else {
                Step::Wrong
            }
        }
    }
}

/// How many bytes a rule's line has before its line feed.
fn rule_len(rule: u8) -> u64
    requires { IsClaim (Claim.Broken rule) }
    ensures { result ≡ length (claim_word (Claim.Broken rule)) }
{
    if rule < 10 { 3 } else { 4 }
}

/// How many bytes a claim's line has before its line feed.
fn word_len(claim: Claim) -> u64
    requires { IsClaim claim }
    ensures { result ≡ length (claim_word claim) }
{
    match claim {
        Claim::Broken(rule) => rule_len(rule),
        _ => 1,
    }
}

impl Begun {
    /// How many bytes were read.
    pub fn len(self) -> u64
        requires { IsBegun self }
        ensures { result ≡ length (begun_bytes self) }
    {
        match self {
            Begun::Nothing => 0,
            Begun::Letter => 1,
            Begun::Blank => 2,
            Begun::Word(claim) => word_len(claim),
        }
    }

    /// What a byte makes of the line.
    fn step(self, byte: u8) -> Step
        requires { IsBegun self }
        ensures { StepTells self byte result }
    {
        match self {
            Begun::Nothing => first(byte),
            Begun::Letter => after_letter(byte),
            Begun::Blank => after_blank(byte),
            Begun::Word(claim) => after_word(claim, byte),
        }
    }

    /// What a piece makes of the line: it is read up to the end of the line, up to a byte that is
    /// wrong, or whole.
    pub fn read(self, piece: &[u8]) -> Stop
        requires { IsBegun self }
        ensures { StopTells self piece.now result }
    {
        let mut begun = self;
        for (i, byte) in piece.iter().enumerate() {
            match begun.step(*byte) {
                Step::Goes(longer) => begun = longer,
                step => return Stop { used: i + 1, step },
            }
        }
        Stop {
            used: piece.len(),
            step: Step::Goes(begun),
        }
    }
}
