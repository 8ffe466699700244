//! Writing a text with all claims of a tree behind it.

ghost use Rattle.std.specs.Prelude.{◌≡◌, ◌≢◌, ◌<◌, ◌≤◌, Err, IsOk, OnErr, OnOk, length, vec_capacity};
ghost use Rattle.cert_tree.specs.Trees.{AreTrueFrom};
ghost use Rattle.cert_file.specs.Ends.{EndsUnwritten, FailsShort};
ghost use Rattle.cert_file.specs.Kept.{KeepsAll};
ghost use Rattle.cert_file.specs.Writing.{HaveLines, lines_from, text_with};
ghost use Rattle.fux_port.specs.Counts.{Rose};
ghost use Rattle.fux_port.specs.Written.{StopsShort, appended};

use crate::kept::{KeptLines, write_kept};
use crate::next::ClaimLines;
use crate::write::{is_within, write_parts};
use cert_text::{CertWrite, Claim};
use cert_tree::{ClaimTree, Walk, begin_again, room_for_walk};
use fux_port::{Failed, Sink};
use std::alloc::Global;

/// Writes a text, and behind it the lines of all claims of a tree, which are few enough: those that
/// were kept, or else each node is judged once more.
fn write_counted<T: ClaimTree<Claim = Claim>, K: Sink>(
    it: &T,
    walk: &mut Walk<T::Known>,
    kept: &KeptLines,
    text: &str,
    sink: &mut K,
) -> Result<(), Failed>
    requires told { AreTrueFrom (T.tree it.now) (T.own it.now) (T.ways it.now).height
        (T.root it.now) }
    requires lines { HaveLines (T.own it.now) }
    requires room { vec_capacity walk.old.levels ≡ (T.ways it.now).height }
    requires kept { KeepsAll kept.now (lines_from (T.tree it.now) (T.ways it.now) (T.own it.now)
        (T.root it.now)) }
    ensures ok { OnOk result (K.written sink.new ≡ appended (K.written sink.old)
        (text_with (T.tree it.now) (T.ways it.now) (T.own it.now) (T.root it.now) text.now)) }
    ensures cause { OnErr result (Rose (K.faults sink.old) (K.faults sink.new)) }
    ensures err { OnErr result (StopsShort (K.written sink.old) (K.written sink.new)
        (text_with (T.tree it.now) (T.ways it.now) (T.own it.now) (T.root it.now) text.now)) }
    ensures taken { K.serves sink.old (length (text_with (T.tree it.now) (T.ways it.now)
        (T.own it.now) (T.root it.now) text.now)) → IsOk result }
    ensures faults { K.faults sink.old ≤ K.faults sink.new }
{
    if kept.are_all {
        return write_kept(text, kept, sink);
    }
    begin_again(it, walk);
    write_parts(&ClaimLines { it }, walk, text, sink)
}

/// Writes a text, and behind it the own claim of each node of a tree that is owed, from the root
/// on. Its length is counted before its first byte is written, and all memory is taken before that.
/// Lines of up to 8 MiB are kept while they are counted; where they are more, each node is judged
/// once more, so that a certificate of any length takes no more memory than that.
pub fn write_with_claims<T: ClaimTree<Claim = Claim>, K: Sink>(
    alloc: Global,
    it: &T,
    text: &str,
    sink: &mut K,
) -> Result<(), CertWrite>
    requires told { AreTrueFrom (T.tree it.now) (T.own it.now) (T.ways it.now).height
        (T.root it.now) }
    requires lines { HaveLines (T.own it.now) }
    ensures ok { OnOk result (K.written sink.new ≡ appended (K.written sink.old)
        (text_with (T.tree it.now) (T.ways it.now) (T.own it.now) (T.root it.now) text.now)) }

    // A fault of writing is the sink's, and less than the certificate was written.
    ensures cause { result ≡ Err CertWrite.WriteFault → Rose (K.faults sink.old)
        (K.faults sink.new) }
    ensures short { FailsShort (K.written sink.old) (K.written sink.new)
        (text_with (T.tree it.now) (T.ways it.now) (T.own it.now) (T.root it.now) text.now)
        result }

    // No sink is blamed that promises to take the whole certificate.
    ensures taken { K.serves sink.old (length (text_with (T.tree it.now) (T.ways it.now)
        (T.own it.now) (T.root it.now) text.now)) → result ≢ Err CertWrite.WriteFault }

    // Nothing is written of a certificate that is too long, nor where there is not enough memory.
    ensures too_long { result ≡ Err CertWrite.TooLong → 1073741824
        < length (text_with (T.tree it.now) (T.ways it.now) (T.own it.now) (T.root it.now)
        text.now) }
    ensures fits { 1073741824 < length (text_with (T.tree it.now) (T.ways it.now) (T.own it.now)
        (T.root it.now) text.now) → EndsUnwritten result }
    ensures unwritten { EndsUnwritten result → K.written sink.new ≡ K.written sink.old }
    ensures faults { K.faults sink.old ≤ K.faults sink.new }
{
    let Ok(mut walk) = room_for_walk(alloc, it) else {
        return Err(CertWrite::Memory);
    };
    begin_again(it, &mut walk);
    let mut kept = KeptLines::new(alloc);
    let lines = ClaimLines { it };
    if !is_within(&lines, &mut walk, &mut kept, text.len()) {
        return Err(CertWrite::TooLong);
    }
    match write_counted(it, &mut walk, &kept, text, sink) {
        Ok(()) => Ok(()),
        Err(_) => Err(CertWrite::WriteFault),
    }
}
