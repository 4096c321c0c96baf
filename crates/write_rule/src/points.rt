//! The operations on stored pairs that a write comes to.
ghost use Rattle.std.specs.Prelude.{◌≡◌, Option, Ok, IfOk, IfErr, IfSome, MatchResult, false, length, ◌≤◌};
ghost use Rattle.mvcc_key.specs.Batches.{AreEntries};
ghost use Rattle.mvcc_key.specs.History.{History, Intent, intent_of};
ghost use Rattle.mvcc_key.specs.Limits.{max_stored_length};
ghost use Rattle.mvcc_key.specs.Order.{is_no_time};
ghost use Rattle.mvcc_key.specs.views.Seen.{time_of};
ghost use Rattle.mvcc_key.specs.views.SeenPoint.{points_of};
ghost use Rattle.mvcc_value.specs.Encoding.{value_bytes};
ghost use Rattle.mvcc_value.specs.views.Seen.{seen_body};
ghost use Rattle.intent_meta.specs.Valid.{IsStoredBody, IsStoredKey};
ghost use Rattle.txn_state.specs.Transaction.{Txn, In, write_time};
ghost use Rattle.txn_state.specs.views.Seen.{actor_of};
ghost use Rattle.write_rule.specs.Planned as planned;
ghost use Rattle.write_rule.specs.Write as rule;
ghost use Rattle.write_rule.specs.views.Own.{AreOwn, IsFirst};
ghost use Rattle.write_rule.specs.views.Points.{IsPut, Writes, unless_too_long};
ghost use Rattle.write_rule.specs.views.Seen.{IsLate, Tells, refusal_of, request_of};

use crate::ops::{intent_ops, set};
use crate::own_intent::OwnIntent;
use crate::record::{moved, new_record, raised};
use crate::{WriteFault, WriteRequest};
use mvcc_key::{Bytes, Elements, MAX_STORED_LEN, OutOfMemory, PointOp, Timestamp};
use mvcc_value::{Body, encode};
use std::alloc::Global;
use txn_state::{Actor, Txn};

/// The operations by which the value is written: a version, or in a transaction its intent.
pub(crate) fn written(
    alloc: Global,
    key: &[u8],
    request: &WriteRequest<'_>,
    own: Option<OwnIntent<'_>>,
    body: Body<'_>,
) -> Result<Elements<PointOp>, WriteFault>
    requires key { IsStoredKey key.now }
    requires body { IsStoredBody (seen_body body) }
    requires time { is_no_time (write_time (actor_of request.now.who)) ≡ false }
    requires first { (t : Txn) → actor_of request.now.who ≡ In t → IfSome own (λ o. IsFirst o t) }
    ensures outcome { (h : History) → AreOwn own.entry (actor_of request.now.who) (intent_of key.now h)
        → MatchResult result
        (λ points. Writes h key.now (request_of request.now) (seen_body body.entry) points)
        (λ why. Tells (refusal_of why) (rule.written h key.now (actor_of request.now.who) (time_of request.now.local) (seen_body body.entry))) }
    ensures batch { IfOk result AreEntries }
    ensures late { IfErr result IsLate }
{
    match request.who {
        Actor::At(ts) => Ok(version_points(alloc, key, ts, request.local, body)?),
        Actor::In(txn) => intent_points(alloc, key, txn, request.local, own, body),
    }
}

/// The one operation that adds a version.
fn version_points(
    alloc: Global,
    key: &[u8],
    ts: Timestamp,
    local: Timestamp,
    body: Body<'_>,
) -> Result<Elements<PointOp>, OutOfMemory>
    requires key { IsStoredKey key.now }
    requires body { IsStoredBody (seen_body body) }
    ensures points { IfOk result (λ points. points_of points ≡ planned.version_points (rule.new_version key.now (time_of ts) (time_of local) (seen_body body.entry))) }
    ensures batch { IfOk result AreEntries }
{
    let value = encoded(alloc, body, local, ts)?;
    let mut points = Elements::new(alloc);
    points.push(set(alloc, key, ts, value)?)?;
    Ok(points)
}

/// The operations that put the writer's intent in the place of its earlier one, if there is one.
fn intent_points(
    alloc: Global,
    key: &[u8],
    txn: &Txn,
    local: Timestamp,
    own: Option<OwnIntent<'_>>,
    body: Body<'_>,
) -> Result<Elements<PointOp>, WriteFault>
    requires key { IsStoredKey key.now }
    requires body { IsStoredBody (seen_body body) }
    requires time { is_no_time txn.now.write_ts ≡ false }
    requires first { IfSome own (λ o. IsFirst o txn.now) }
    ensures outcome { (i : Option Intent) → AreOwn own.entry (In txn.now) i → IfSome i (λ j. j.key ≡ key.now)
        → MatchResult result
        (λ points. IsPut i (rule.new_intent key.now txn.now i (time_of local) (seen_body body.entry)) points)
        (λ why. Tells (refusal_of why) (unless_too_long (rule.new_intent key.now txn.now i (time_of local) (seen_body body.entry)))) }
    ensures batch { IfOk result AreEntries }
    ensures late { IfErr result IsLate }
{
    let ts = raised(txn.write_ts(), own);
    let value = encoded(alloc, body, local, ts)?;
    let record = new_record(alloc, txn, ts, own, body, value.as_slice().len() as u32)?;
    let size = record.encoded_len();
    if size > MAX_STORED_LEN as u64 {
        return Err(WriteFault::IntentTooLong(size));
    }
    Ok(intent_ops(alloc, key, &record, ts, value, moved(own, ts))?)
}

/// The encoded value of a version, which is short enough to be stored.
fn encoded(
    alloc: Global,
    body: Body<'_>,
    local: Timestamp,
    ts: Timestamp,
) -> Result<Bytes, OutOfMemory>
    requires { IsStoredBody (seen_body body) }
    ensures value { IfOk result (λ b. b ≡ value_bytes (seen_body body.entry) (time_of local) (time_of ts)) }
    ensures short { IfOk result (λ b. length b ≤ max_stored_length) }
{
    Ok(Bytes::from_vec(encode(alloc, body, local, ts)?))
}
