//! What gives the bytes of named files.

ghost use Rattle.std.specs.Prelude.{◌≡◌, ℕ, ◌<◌, ◌≤◌, ◌^◌, ◌⊎◌, List, Option, length, take, drop, IsErr, IsOk, IfOk, OnErr};
ghost use Rattle.fux_port.specs.Counts.{Rose, bytes_given, count_after};
ghost use Rattle.fux_port.specs.Files.{EndsBy, IsMissing, StandAt};
ghost use Rattle.fux_port.specs.Promises.{Keeps};

use crate::Failed;

/// Named files that are read in pieces.
pub trait Shelf {
    /// What the shelf tells of its files: nothing, or for each name the bytes of its file or that
    /// there is none.
    ghost files: { Self → Option (List ℕ → Option (List ℕ)) };

    /// How many reads failed by a fault of the shelf. At its last value the count stands still.
    ghost faults: { Self → ℕ };

    /// How many bytes its reads gave. At its last value the count stands still.
    ghost given: { Self → ℕ };

    /// What it promises: a read from this offset of the file of this name, into a buffer with room,
    /// doesn't fail.
    ghost serves: { Self → List ℕ → ℕ → Type 0 };

    /// Reads bytes of the file from this offset on into the front of the buffer, and answers how
    /// many.
    fn read_at(&mut self, name: &str, offset: u64, buf: &mut [u8]) -> Result<usize, Failed>
        ensures fits { IfOk result (λ count. count ≤ length buf.old) }
        ensures placed { IfOk result (λ count.
            StandAt (files self.old) name.now offset (take count buf.new)) }
        ensures rest { IfOk result (λ count. drop count buf.new ≡ drop count buf.old) }

        // Nothing is read into a buffer with room only at the end of the file.
        ensures end { IfOk result (λ count.
            count ≡ 0 → 0 < length buf.old → EndsBy (files self.old) name.now offset) }

        // A failed read is the shelf's fault, or the name is missing, which is nobody's fault.
        ensures cause { OnErr result (Rose (faults self.old) (faults self.new)
            ⊎ IsMissing (files self.old) name.now) }
        ensures missing { IsMissing (files self.old) name.now → IsErr result }
        ensures no_fault { IsMissing (files self.old) name.now
            → faults self.new ≡ faults self.old }
        ensures err { OnErr result (buf.new ≡ buf.old) }

        // It keeps its promises.
        ensures served { serves self.old name.now offset → 0 < length buf.old → IsOk result }
        ensures serving { Keeps (serves self.old) (serves self.new) }

        ensures given { given self.new ≡ count_after (given self.old) (bytes_given result) }
        ensures files { files self.new ≡ files self.old }
        ensures faults { faults self.old ≤ faults self.new }
        ensures faults_fit { faults self.new < 2 ^ 64 };
}
