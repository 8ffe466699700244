//! What takes bytes.

ghost use Rattle.std.specs.Prelude.{◌≡◌, ℕ, ◌<◌, ◌≤◌, ◌^◌, List, Option, length, take, IsOk, IfOk, OnErr};
ghost use Rattle.fux_port.specs.Counts.{Rose};
ghost use Rattle.fux_port.specs.Promises.{KeepsRoom};
ghost use Rattle.fux_port.specs.Written.{appended};

use crate::Failed;

/// What takes bytes one after another.
pub trait Sink {
    /// What the sink tells of the bytes that it has taken: nothing, or all of them in order.
    ghost written: { Self → Option (List ℕ) };

    /// How many writes failed. At its last value the count stands still.
    ghost faults: { Self → ℕ };

    /// What it promises: it takes so many bytes more, and no write of a piece of them that isn't
    /// empty fails.
    ghost serves: { Self → ℕ → Type 0 };

    /// Takes bytes of the front of the piece, and answers how many.
    fn write(&mut self, piece: &[u8]) -> Result<usize, Failed>
        ensures fits { IfOk result (λ count. count ≤ length piece.now) }
        ensures progress { IfOk result (λ count. 0 < length piece.now → 0 < count) }
        ensures ok { IfOk result (λ count.
            written self.new ≡ appended (written self.old) (take count piece.now)) }

        ensures cause { OnErr result (Rose (faults self.old) (faults self.new)) }
        ensures err { OnErr result (written self.new ≡ written self.old) }

        // It keeps its promises.
        ensures served { (room : ℕ) → serves self.old room → length piece.now ≤ room
            → 0 < length piece.now → IsOk result }
        ensures serving { IfOk result (λ count. KeepsRoom (serves self.old) (serves self.new)
            count) }

        ensures faults { faults self.old ≤ faults self.new }
        ensures faults_fit { faults self.new < 2 ^ 64 };
}
