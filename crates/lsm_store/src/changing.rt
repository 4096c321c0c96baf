//! Which operations change what is seen.
ghost use Rattle.std.specs.Prelude.{◌≡◌, ◌<◌, ◌∷◌, map, filter, false, Some, None, IsTrue, All};
ghost use Rattle.std.specs.Option.{option_map, option_and_then};
ghost use Rattle.mvcc_key.specs.Order.{Name, is_no_time};
ghost use Rattle.mvcc_key.specs.views.Seen.{time_of};
ghost use Rattle.mvcc_key.specs.Encoded.{IsName, name_in};
ghost use Rattle.mvcc_key.specs.Points.{key_at};
ghost use Rattle.mvcc_key.specs.views.SeenPoint.{point_of};
ghost use Rattle.mvcc_key.specs.Batches.{IsStorable};
ghost use Rattle.mem_table.specs.views.Places.{IsPlaceOf};
ghost use Rattle.mem_table.specs.Table.{state_of};
ghost use Rattle.merge_cursor.specs.Merged.{joined};
ghost use Rattle.lsm_store.specs.Shown.{visible_points};
ghost use Rattle.lsm_store.specs.views.Changing.{is_same_value, is_change, changes_points};

use mem_table::{MemPlace, MemTable};
use mvcc_key::{Bytes, Cursor, PointOp, Timestamp, read_key, seek_ge};
use run_block::Run;

/// Keeps the operations that change what the parts show, in their order. This takes no memory.
pub(crate) fn retain_changes(ops: &mut Vec<PointOp>, table: &MemTable, runs: &[Run])
    requires { All IsStorable ops.old.items }
    ensures { let points = visible_points (table.now.points ∷ map (λ r. r.points) runs.now) in
        ops.new.items ≡ filter (λ op. changes_points points (point_of op)) ops.old.items }
{
    let mut kept = 0;
    for i in 0..ops.len() {
        if changes(table, runs, &ops[i]) {
            ops.swap(kept, i);
            kept += 1;
        }
    }
    ops.truncate(kept);
}

/// Whether the operation changes what is seen of its name: the newest part that knows the name decides.
fn changes(table: &MemTable, runs: &[Run], op: &PointOp) -> bool
    requires { IsName op.now.key }
    ensures { let points = visible_points (table.now.points ∷ map (λ r. r.points) runs.now) in
        result ≡ changes_points points (point_of op.now) }
{
    let place = table.find(op.key.as_slice());
    changes_at(table, place, runs, op)
}

/// The same for an operation whose name has this place in the memory table, by which it is not sought there again.
pub(crate) fn changes_at(table: &MemTable, place: MemPlace, runs: &[Run], op: &PointOp) -> bool
    requires op { IsName op.now.key }
    requires place { IsPlaceOf (name_in op.now.key) table.now.points place }
    ensures { let points = visible_points (table.now.points ∷ map (λ r. r.points) runs.now) in
        result ≡ changes_points points (point_of op.now) }
{
    match table.value_at(place) {
        Some(value) => !is_same(&op.value, value),
        None => changes_runs(runs, op),
    }
}

/// The same for runs alone, from the newest to the oldest. Where the timestamp of the name is above all those of the runs, none of
/// them sets it, and none is asked.
fn changes_runs(runs: &[Run], op: &PointOp) -> bool
    requires { IsName op.now.key }
    ensures { result ≡ is_change op.now.value (state_of (name_in op.now.key) (joined (map (λ r. r.points) runs.now))) }
{
    if are_below(runs, op.key.as_slice()) {
        return op.value.is_some();
    }
    seek_change(runs, op)
}

/// The same by seeks, one a run.
fn seek_change(runs: &[Run], op: &PointOp) -> bool
    requires { IsName op.now.key }
    ensures { result ≡ is_change op.now.value (state_of (name_in op.now.key) (joined (map (λ r. r.points) runs.now))) }
{
    for run in runs {
        if let Some(change) = changes_part(&mut run.cursor(), op) {
            return change;
        }
    }
    op.value.is_some()
}

/// Whether the encoded key has a timestamp that is above all those of the runs, so that none of them sets its name.
fn are_below(runs: &[Run], key: &[u8]) -> bool
    requires { IsName key.now }
    ensures { IsTrue result → option_and_then (λ p. p.value) (state_of (name_in key.now) (joined (map (λ r. r.points) runs.now))) ≡ None }
{
    let ts = read_key(key).ts;
    ts != Timestamp::NONE && end_before(runs, ts)
}

/// Whether all timestamps of the runs are below this one.
fn end_before(runs: &[Run], ts: Timestamp) -> bool
    requires { is_no_time (time_of ts) ≡ false }
    ensures { IsTrue result → (n : Name) → n.ts ≡ time_of ts → option_and_then (λ p. p.value) (state_of n (joined (map (λ r. r.points) runs.now))) ≡ None }
{
    for run in runs {
        if !ends_before(run, ts) {
            return false;
        }
    }
    true
}

/// Whether all timestamps of the run are below this one.
fn ends_before(run: &Run, ts: Timestamp) -> bool
    requires { is_no_time (time_of ts) ≡ false }
    ensures { IsTrue result → (n : Name) → n.ts ≡ time_of ts → option_and_then (λ p. p.value) (state_of n run.now.points) ≡ None }
{
    match run.time_span() {
        Some((_, greatest)) => greatest.compare(ts).is_lt(),
        None => true,
    }
}

/// Whether the operation changes what a part says of its name. `None` where the part does not know the name.
fn changes_part<C: Cursor>(cursor: &mut C, op: &PointOp) -> Option<bool>
    requires { IsName op.now.key }
    ensures { result ≡ option_map (λ p. is_change op.now.value (Some p)) (state_of (name_in op.now.key) (C.points cursor.old)) }
{
    seek_ge(cursor, op.key.as_slice());
    if is_at(cursor, op.key.as_slice()) {
        Some(!is_same(&op.value, cursor.value()))
    } else {
        None
    }
}

/// Whether the cursor stands at the encoded key.
fn is_at<C: Cursor>(cursor: &C, key: &[u8]) -> bool
    ensures { result ≡ is_same_value (Some key.now) (key_at (C.points cursor.now) (C.place cursor.now)) }
{
    match cursor.key() {
        Some(here) => key == here,
        None => false,
    }
}

/// Whether both are the same bytes, or neither is there.
fn is_same(a: &Option<Bytes>, b: Option<&[u8]>) -> bool
    ensures { result ≡ is_same_value a.now (option_map (λ v. v.now) b.entry) }
{
    match (a, b) {
        (None, None) => true,
        (Some(a), Some(b)) => a.as_slice() == b,
        _ => false,
    }
}
