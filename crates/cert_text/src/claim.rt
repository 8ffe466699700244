//! Claims, and their lines.

ghost use Rattle.std.specs.Prelude.{◌≡◌, ◌<◌, [], ◌∷◌};
ghost use Rattle.cert_text.specs.Lines.{IsClaim, claim_line};

use arrayvec::ArrayString;

/// What a certificate claims of a prefix.
#[derive(Clone, Copy, Debug, PartialEq, Eq)]
pub enum Claim {
    /// The prefix is open: each column that may follow has a claim of its own. The line `o`.
    Open,
    /// A strict break of this rule, from 1 to 26, is settled in it. The line `b N`.
    Broken(u8),
    /// No chain goes on from it. The line `x`.
    NoChain,
    /// Its floor is no better than the head's setting. The line `f`.
    Floor,
    /// It is the head's setting. The line `s`.
    TheScore,
}

/// A letter and a line feed.
fn letter_line(letter: char) -> ArrayString<5>
    requires { letter < 128 }
    ensures { result.bytes ≡ letter ∷ 10 ∷ [] }
{
    let mut line = ArrayString::new();
    line.push(letter);
    line.push('\n');
    line
}

/// The line of a broken rule.
fn rule_line(rule: u8) -> ArrayString<5>
    requires { IsClaim (Claim.Broken rule) }
    ensures { result.bytes ≡ claim_line (Claim.Broken rule) }
{
    let mut line = ArrayString::new();
    line.push_str("b ");
    if rule >= 10 {
        line.push(char::from(b'0' + rule / 10));
    }
    line.push(char::from(b'0' + rule % 10));
    line.push('\n');
    line
}

/// The line of a claim, with its line feed.
pub fn write_claim(c: Claim) -> ArrayString<5>
    requires { IsClaim c }
    ensures { result.bytes ≡ claim_line c }
{
    match c {
        Claim::Open => letter_line('o'),
        Claim::NoChain => letter_line('x'),
        Claim::Floor => letter_line('f'),
        Claim::TheScore => letter_line('s'),
        Claim::Broken(rule) => rule_line(rule),
    }
}
