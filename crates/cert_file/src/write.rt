//! Writing lines.

ghost use Rattle.std.specs.Prelude.{◌≡◌, ◌≤◌, ◌↔◌, ◌+◌, ◌++◌, [], IsOk, IsTrue, OnErr, OnOk, length};
ghost use Rattle.std.specs.Bool.{OnTrue};
ghost use Rattle.cert_file.specs.Kept.{KeepsAll};
ghost use Rattle.fux_port.specs.Counts.{Rose};
ghost use Rattle.fux_port.specs.Written.{StopsShort, appended};

use crate::kept::KeptLines;
use crate::source::LineSource;
use arrayvec::ArrayString;
use fux_port::{Failed, Sink, put, write_all};

/// The most bytes that a certificate may have.
const MOST_BYTES: usize = 1_073_741_824;

/// Whether the lines that are still to come have no more than so many bytes; they are kept where
/// they have room. It stops at the first line that is too much.
fn fit<S: LineSource>(source: &S, place: &mut S::Place, kept: &mut KeptLines, room: usize) -> bool
    requires stands { S.stands source.now place.old }
    requires kept { KeepsAll kept.old [] }
    ensures stands { S.stands source.now place.new }
    ensures fits { IsTrue result ↔ (length (S.left source.now place.old) ≤ room) }
    ensures kept { OnTrue result (KeepsAll kept.new (S.left source.now place.old)) }
{
    let mut left = room;
    while let Some(line) = source.next_line(place) {
        let text = line.as_str();
        let size = text.len();
        if left < size {
            return false;
        }
        left -= size;
        kept.keep(text);
    }
    true
}

/// Whether a certificate is within the limit whose text before these lines has so many bytes; the
/// lines are kept where they have room.
pub fn is_within<S: LineSource>(
    source: &S,
    place: &mut S::Place,
    kept: &mut KeptLines,
    size: usize,
) -> bool
    requires stands { S.stands source.now place.old }
    requires kept { KeepsAll kept.old [] }
    ensures stands { S.stands source.now place.new }
    ensures fits { IsTrue result ↔ (size + length (S.left source.now place.old) ≤ 1073741824) }
    ensures kept { OnTrue result (KeepsAll kept.new (S.left source.now place.old)) }
{
    size <= MOST_BYTES && fit(source, place, kept, MOST_BYTES - size)
}

/// Writes the lines that are still to come.
fn write_lines<S: LineSource, K: Sink>(
    source: &S,
    place: &mut S::Place,
    sink: &mut K,
) -> Result<(), Failed>
    requires stands { S.stands source.now place.old }
    ensures ok { OnOk result (K.written sink.new ≡ appended (K.written sink.old)
        (S.left source.now place.old)) }
    ensures cause { OnErr result (Rose (K.faults sink.old) (K.faults sink.new)) }
    ensures err { OnErr result (StopsShort (K.written sink.old) (K.written sink.new)
        (S.left source.now place.old)) }
    ensures taken { K.serves sink.old (length (S.left source.now place.old)) → IsOk result }
    ensures faults { K.faults sink.old ≤ K.faults sink.new }
{
    let mut waiting: ArrayString<4096> = ArrayString::new();
    while let Some(line) = source.next_line(place) {
        put(sink, &mut waiting, line.as_str())?;
    }
    write_all(sink, waiting.as_str().as_bytes())
}

/// Writes a text, and behind it the lines that are still to come.
pub fn write_parts<S: LineSource, K: Sink>(
    source: &S,
    place: &mut S::Place,
    text: &str,
    sink: &mut K,
) -> Result<(), Failed>
    requires stands { S.stands source.now place.old }
    ensures ok { OnOk result (K.written sink.new ≡ appended (K.written sink.old)
        (text.now ++ S.left source.now place.old)) }
    ensures cause { OnErr result (Rose (K.faults sink.old) (K.faults sink.new)) }
    ensures err { OnErr result (StopsShort (K.written sink.old) (K.written sink.new)
        (text.now ++ S.left source.now place.old)) }
    ensures taken { K.serves sink.old (length (text.now ++ S.left source.now place.old))
        → IsOk result }
    ensures faults { K.faults sink.old ≤ K.faults sink.new }
{
    write_all(sink, text.as_bytes())?;
    write_lines(source, place, sink)
}
