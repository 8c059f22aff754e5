//! What gives bytes.
ghost use Rattle.std.specs.Prelude.{ℕ, ◌<◌, List, length};
ghost use Rattle.std.specs.declared.option.Option.{Option};
ghost use Rattle.std.specs.Io.{ReadsAtMost};
ghost use Rattle.std.specs.Io.KnownBytes.{ReadConsumes};
ghost use Rattle.nc_io.specs.Causes.{HasCause};

use crate::Failed;

/// A source of bytes. It may be asked again after `Failed`, and then goes on where it stood.
///
/// The ghost member `left` is the bytes that are not yet taken, or `None` where the source doesn't tell them, and
/// `faults` counts its failures.
pub trait Source {
    ghost left: { Self → Option (List ℕ) };

    ghost faults: { Self → ℕ };

    /// Puts the next bytes at the front of `buf`, and answers how many. None come only at the end of the input.
    fn take(&mut self, buf: &mut [u8]) -> Result<usize, Failed>
        requires room { 0 < length buf.old }
        ensures bound { ReadsAtMost result buf.new }
        ensures bytes { ReadConsumes (left self.old) (left self.new) result buf.new }
        ensures cause { HasCause (faults self.old) (faults self.new) result };
}
