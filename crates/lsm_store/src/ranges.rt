//! Range operations, staged on fragments.
ghost use Rattle.std.specs.Prelude.{◌≡◌, [], All, IsTrue, IfOk, OnOk, OnErr};
ghost use Rattle.mvcc_key.specs.Batches.{IsStorableRange};
ghost use Rattle.mvcc_key.specs.Order.{is_below};
ghost use Rattle.mvcc_key.specs.views.SeenRange.{range_ops_of};
ghost use Rattle.range_key.specs.RangeOps.{fragments_after, fragments_with, operations_of};
ghost use Rattle.run_block.specs.Runs.{IsRun};
ghost use Rattle.run_block.specs.views.SeenRange.{lent_range};
ghost use Rattle.lsm_store.specs.Shown.{fragments_in};

use mvcc_key::{OutOfMemory, RangeOp};
use range_key::StagedFragments;
use run_block::{RangeOpRef, Run};
use std::alloc::Global;

/// Stages the operations of a batch on the fragments, on what is staged already. Where memory is wanting nothing is staged.
pub(crate) fn stage_ops(fragments: &mut StagedFragments, ops: &[RangeOp]) -> Result<(), OutOfMemory>
    requires { All IsStorableRange ops.now }
    ensures fragments { fragments.new.fragments ≡ fragments.old.fragments }
    ensures ok { OnOk result (fragments.new.next ≡ fragments_after fragments.old.next (range_ops_of ops.now)) }
    ensures err { OnErr result (fragments.new.next ≡ fragments.old.fragments) }
{
    for op in ops {
        fragments.stage(op)?;
    }
    Ok(())
}

/// Stages the operations of a run in the same way.
pub(crate) fn stage_run(fragments: &mut StagedFragments, run: &Run) -> Result<(), OutOfMemory>
    ensures fragments { fragments.new.fragments ≡ fragments.old.fragments }
    ensures ok { OnOk result (fragments.new.next ≡ fragments_after fragments.old.next run.now.ranges) }
    ensures err { OnErr result (fragments.new.next ≡ fragments.old.fragments) }
    ensures run { IsRun run.now }
{
    for index in 0..run.range_len() {
        if let Some(op) = run.range_op(index as u64) {
            stage_lent(fragments, op)?;
        }
    }
    Ok(())
}

/// Stages one operation that is lent.
fn stage_lent(fragments: &mut StagedFragments, op: RangeOpRef<'_>) -> Result<(), OutOfMemory>
    requires { IsTrue (is_below op.start.now op.end.now) }
    ensures fragments { fragments.new.fragments ≡ fragments.old.fragments }
    ensures ok { OnOk result (fragments.new.next ≡ fragments_with fragments.old.next (lent_range op.entry)) }
    ensures err { OnErr result (fragments.new.next ≡ fragments.old.fragments) }
{
    match op.set {
        Some(_) => fragments.stage_add(op.start, op.end, op.ts),
        None => fragments.stage_remove_at(op.start, op.end, op.ts),
    }
}

/// What the operations of runs, from the newest to the oldest, give together: the closing fragments of the newest, as operations
/// that set.
pub(crate) fn closing_ops(alloc: Global, runs: &[Run]) -> Result<Vec<RangeOp>, OutOfMemory>
    ensures ops { IfOk result (λ ops. range_ops_of ops.items ≡ operations_of (fragments_in runs.now)) }
    ensures storable { IfOk result (λ ops. All IsStorableRange ops.items) }
{
    let mut fragments = StagedFragments::new(alloc);
    let mut rest = runs;
    while let Some((run, newer)) = rest.split_last() {
        stage_run(&mut fragments, run)?;
        rest = newer;
    }
    fragments.commit();
    fragments.lend().to_ops()
}
