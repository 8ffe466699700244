//! Lines that are kept while they are counted.

ghost use Rattle.std.specs.Prelude.{◌≡◌, ◌≤◌, ◌++◌, ℕ, List, [], IsOk, OnErr, OnOk, length, string_bytes};
ghost use Rattle.std.specs.Bool.{OnTrue};
ghost use Rattle.cert_file.specs.Kept.{KeepsAll};
ghost use Rattle.fux_port.specs.Counts.{Rose};
ghost use Rattle.fux_port.specs.Written.{StopsShort, appended};

use fux_port::{Failed, Sink, write_all};
use std::alloc::Global;

/// The most bytes of lines that are kept: those of some two million claims.
const MOST_KEPT: usize = 8_388_608;

/// Lines, each kept as it was told, as long as all of them have room: then none needs to be told
/// once more.
#[derive(Drop)]
pub struct KeptLines {
    pub text: String,
    pub are_all: bool,
}

/// Puts a line behind a text, where it has room.
fn put_within(text: &mut String, line: &str) -> bool
    ensures { OnTrue result (string_bytes text.new ≡ string_bytes text.old ++ line.now) }
{
    if MOST_KEPT.saturating_sub(text.len()) < line.len() {
        return false;
    }
    text.push_str(line).is_ok()
}

impl KeptLines {
    /// No line, and the room for lines. Where there is no memory for it, none is kept.
    pub fn new(alloc: Global) -> KeptLines
        ensures { KeepsAll result [] }
    {
        match String::with_capacity(alloc, MOST_KEPT) {
            Ok(text) => KeptLines {
                text,
                are_all: true,
            },
            Err(_) => KeptLines {
                text: String::new(alloc),
                are_all: false,
            },
        }
    }

    /// Keeps a line behind the others, if all of them have been kept and it has room.
    pub fn keep(&mut self, line: &str)
        ensures { (lines : List ℕ) → KeepsAll self.old lines → KeepsAll self.new (lines ++ line.now) }
    {
        if self.are_all {
            self.are_all = put_within(&mut self.text, line);
        }
    }
}

/// Writes a text, and behind it the lines that were kept.
pub fn write_kept<K: Sink>(text: &str, kept: &KeptLines, sink: &mut K) -> Result<(), Failed>
    ensures ok { OnOk result (K.written sink.new ≡ appended (K.written sink.old)
        (text.now ++ string_bytes kept.now.text)) }
    ensures cause { OnErr result (Rose (K.faults sink.old) (K.faults sink.new)) }
    ensures err { OnErr result (StopsShort (K.written sink.old) (K.written sink.new)
        (text.now ++ string_bytes kept.now.text)) }
    ensures taken { K.serves sink.old (length (text.now ++ string_bytes kept.now.text))
        → IsOk result }
    ensures faults { K.faults sink.old ≤ K.faults sink.new }
{
    write_all(sink, text.as_bytes())?;
    write_all(sink, kept.text.as_bytes())
}
