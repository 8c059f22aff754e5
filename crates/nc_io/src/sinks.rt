//! What takes bytes.
ghost use Rattle.std.specs.Prelude.{ℕ, ◌<◌, ◌≤◌, List, length, IfOk};
ghost use Rattle.std.specs.declared.option.Option.{Option};
ghost use Rattle.nc_io.specs.Adds.{PutAdds};
ghost use Rattle.nc_io.specs.Causes.{HasCause};

use crate::Failed;

/// A sink of bytes. It may be used again after `Failed`.
///
/// The ghost member `written` is all the bytes so far, or `None` where the sink doesn't tell them, and `faults` counts
/// its failures. A sink that doesn't tell its bytes never tells them again.
pub trait Sink {
    ghost written: { Self → Option (List ℕ) };

    ghost faults: { Self → ℕ };

    /// Appends the first bytes of `piece`, and answers how many.
    fn put(&mut self, piece: &[u8]) -> Result<usize, Failed>
        requires offered { 0 < length piece.now }
        ensures some { IfOk result (λ n. (0 < n) × (n ≤ length piece.now)) }
        ensures bytes { PutAdds (written self.old) (written self.new) result piece.now }
        ensures cause { HasCause (faults self.old) (faults self.new) result };
}
