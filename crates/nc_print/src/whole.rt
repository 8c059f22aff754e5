//! Texts that are written whole, or not at all.

ghost use Rattle.std.specs.Prelude.{OnErr, OnOk, take, ◌≡◌};

use std::alloc::AllocError;

/// Takes back what stands behind the first `before` bytes, where memory ran out while it was appended.
pub(crate) fn whole_or_nothing(
    out: &mut Vec<u8>,
    before: usize,
    appended: Result<(), AllocError>,
) -> Result<(), AllocError>
    ensures result { result ≡ appended }
    ensures whole { OnOk result (out.new.items ≡ out.old.items) }
    ensures nothing { OnErr result (out.new.items ≡ take before out.old.items) }
{
    if appended.is_err() {
        out.truncate(before);
    }
    appended
}
