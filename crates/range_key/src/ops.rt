//! Fragments as range operations.
ghost use Rattle.std.specs.Prelude.{◌≡◌, ◌++◌, [], ◌∷◌, IfOk, OnOk};
ghost use Rattle.range_key.specs.RangeOps.{operations_of};
ghost use Rattle.mvcc_key.specs.views.SeenRange.{range_ops_of};

use crate::Fragment;
use mvcc_key::{Bytes, Key, OutOfMemory, RangeOp};
use std::alloc::Global;

/// Puts the operations that set the tombstones of a fragment behind the others.
fn push_ops(ops: &mut Vec<RangeOp>, fragment: &Fragment, alloc: Global) -> Result<(), OutOfMemory>
    ensures { OnOk result (range_ops_of ops.new.items ≡ range_ops_of ops.old.items ++ operations_of (fragment.now ∷ [])) }
{
    for ts in fragment.stack.times() {
        ops.push(RangeOp {
            start: Key::copy(alloc, fragment.start_bytes())?,
            end: Key::copy(alloc, fragment.end_bytes())?,
            ts: *ts,
            set: Some(Bytes::new(alloc)),
        })?;
    }
    Ok(())
}

/// The operations that set what the fragments stand for.
pub(crate) fn ops_of(alloc: Global, fragments: &[Fragment]) -> Result<Vec<RangeOp>, OutOfMemory>
    ensures { IfOk result (λ ops. range_ops_of ops.items ≡ operations_of fragments.now) }
{
    let mut ops = Vec::new(alloc);
    for fragment in fragments {
        push_ops(&mut ops, fragment, alloc)?;
    }
    Ok(ops)
}
