//! Sources of lines.

ghost use Rattle.std.specs.Prelude.{◌≡◌, ◌≤◌, ◌<◌, ℕ, List, IfSome, length};
ghost use Rattle.cert_file.specs.Sources.{lines_with};

use arrayvec::ArrayString;

/// Lines that come one after the other, each of up to thirteen bytes.
pub trait LineSource {
    /// Where one stands among them.
    type Place;

    /// One stands at a place at which lines may come.
    ghost stands: { Self → Self.Place → Type 0 };

    /// The bytes of the lines that are still to come there.
    ghost left: { Self → Self.Place → List ℕ };

    /// The line that comes next.
    fn next_line(&self, place: &mut Self::Place) -> Option<ArrayString<13>>
        requires { stands self.now place.old }
        ensures stands { stands self.now place.new }
        ensures some { IfSome result (λ line. 0 < length line.bytes) }
        ensures text { left self.now place.old ≡ lines_with result (left self.now place.new) };
}

/// A line of up to thirteen bytes.
pub fn line_from(text: &str) -> ArrayString<13>
    requires { length text.now ≤ 13 }
    ensures { result.bytes ≡ text.now }
{
    let mut line = ArrayString::new();
    line.push_str(text);
    line
}
