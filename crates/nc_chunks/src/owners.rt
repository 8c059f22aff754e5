//! One more owner of each item of a list.

ghost use Rattle.std.specs.Arc.{arc_value};
ghost use Rattle.std.specs.Prelude.{IfOk, length, map, ◌≡◌, ◌≤◌};

use std::alloc::{AllocError, Global};
use std::sync::Arc;

/// One more owner of each, in a list with room for this many.
pub(crate) fn share_each<T: Drop>(
    alloc: Global,
    items: &[Arc<T, Global>],
    room: usize,
) -> Result<Vec<Arc<T, Global>>, AllocError>
    ensures { IfOk result (λ v. map arc_value v.items ≡ map arc_value items.now) }
{
    let mut owners = Vec::with_capacity(alloc, room)?;
    for item in items {
        owners.push(Arc::try_clone(item)?)?;
    }
    Ok(owners)
}
