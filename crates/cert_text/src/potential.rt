//! What a certificate of the second form states of a column, and the lines of that.

ghost use Rattle.std.specs.Prelude.{◌≡◌, ◌+◌, ◌≤◌, ◌++◌, length};
ghost use Rattle.std.specs.Fmt.{decimal};
ghost use Rattle.cert_text.specs.Potentials.{IsPotential, potential_line};

use arrayvec::ArrayString;

/// What a certificate states of a column of a menu, or of the start.
#[derive(Clone, Copy, Debug, PartialEq, Eq)]
pub enum Potential {
    /// Each chain that goes on costs this much at least. The line `p N`.
    Least(u32),
    /// No chain goes on. The line `n`.
    NoChain,
}

/// Writes the digits of a number.
fn push_digits(line: &mut ArrayString<13>, number: u32)
    requires { length line.old.bytes + length (decimal number) ≤ 12 }
    ensures { line.new.bytes ≡ line.old.bytes ++ decimal number }
{
    if number >= 10 {
        push_digits(line, number / 10);
    }
    line.push(char::from(b'0' + (number % 10) as u8));
}

/// The line of a potential, with its line feed.
pub fn write_potential(p: Potential) -> ArrayString<13>
    requires { IsPotential p }
    ensures { result.bytes ≡ potential_line p }
{
    let mut line = ArrayString::new();
    match p {
        Potential::Least(number) => {
            line.push_str("p ");
            push_digits(&mut line, number);
        }
        Potential::NoChain => line.push('n'),
    }
    line.push('\n');
    line
}
