//! Sets of signatures in a tree.

ghost use Rattle.nc_queue.specs.Queues.{IsAscending, IsDifference, IsLeastAfter, IsUnion, IsWith};
ghost use Rattle.std.specs.Arc.{arc_value};
ghost use Rattle.std.specs.Option.{option_map};
ghost use Rattle.std.specs.Prelude.{OnErr, OnOk, [], map, option_copied, take, ℕ, ◌∷◌, ◌≡◌};

use nc_sig::Sig;
use std::alloc::AllocError;
use std::collections::BTreeSet;
use std::ops::Bound;
use std::sync::Arc;

/// Adds this one, if it is not there.
pub fn insert_one(kept: &mut BTreeSet<Arc<Sig>>, sig: Arc<Sig>) -> Result<(), AllocError>
    ensures added { OnOk result (IsWith (map arc_value kept.old.keys) (arc_value sig)
        (map arc_value kept.new.keys)) }
    ensures err { OnErr result (kept.new.keys ≡ kept.old.keys) }
    ensures ascending { IsAscending (map arc_value kept.new.keys) }
{
    kept.insert(sig)?;
    Ok(())
}

/// Adds each of these: the first ones, where memory runs out.
pub fn insert_each(kept: &mut BTreeSet<Arc<Sig>>, sigs: &[Arc<Sig>]) -> Result<(), AllocError>
    requires { IsAscending (map arc_value kept.old.keys) }
    ensures some { (n : ℕ) × IsUnion (map arc_value kept.old.keys) (map arc_value (take n sigs.now))
        (map arc_value kept.new.keys) }
    ensures all { OnOk result (IsUnion (map arc_value kept.old.keys) (map arc_value sigs.now)
        (map arc_value kept.new.keys)) }
    ensures ascending { IsAscending (map arc_value kept.new.keys) }
{
    for sig in sigs {
        insert_one(kept, Arc::try_clone(sig)?)?;
    }
    Ok(())
}

/// Takes this one out, if it is there.
fn remove_one(kept: &mut BTreeSet<Arc<Sig>>, sig: &Arc<Sig>)
    ensures rest { IsDifference (map arc_value kept.old.keys) (arc_value sig.now ∷ [])
        (map arc_value kept.new.keys) }
    ensures ascending { IsAscending (map arc_value kept.new.keys) }
{
    kept.remove(sig);
}

/// Takes each of these out that is there.
pub fn remove_each(kept: &mut BTreeSet<Arc<Sig>>, sigs: &[Arc<Sig>])
    requires { IsAscending (map arc_value kept.old.keys) }
    ensures rest { IsDifference (map arc_value kept.old.keys) (map arc_value sigs.now)
        (map arc_value kept.new.keys) }
    ensures ascending { IsAscending (map arc_value kept.new.keys) }
{
    for sig in sigs {
        remove_one(kept, sig);
    }
}

/// The least one that is greater than this.
pub fn least_after<'a>(kept: &'a BTreeSet<Arc<Sig>>, sig: &Arc<Sig>) -> Option<&'a Arc<Sig>>
    ensures { IsLeastAfter (map arc_value kept.now.keys) (arc_value sig.now)
        (option_map arc_value (option_copied result)) }
{
    kept.range((Bound::Excluded(sig), Bound::Unbounded)).next()
}
