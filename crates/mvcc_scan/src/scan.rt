//! A read of the keys of a span.
ghost use Rattle.std.specs.Prelude.{◌≡◌, ◌<◌, false, map, option_map, reverse, Option, IfOk, if◌then◌else◌};
ghost use Rattle.read_rule.specs.Read as read;
ghost use Rattle.read_rule.specs.Scan as scan;
ghost use Rattle.read_rule.specs.views.Decided.{request_of};
ghost use Rattle.mvcc_key.specs.Spans as spans;
ghost use Rattle.mvcc_cursor.specs.WellFormed.{IsWellFormed, history_in};
ghost use Rattle.mvcc_scan.specs.views.Ascending.{IsAllInWay, IsInWay};
ghost use Rattle.mvcc_scan.specs.views.Seen.{AnswersScan, asked, limits_of, span_of};
ghost use Rattle.mvcc_scan.specs.views.Taking.{IsTaken, stop_of};
ghost use Rattle.mvcc_scan.specs.views.Walking.{IsResumed, IsWalk, bounds_of};

use crate::get::has_bad_options;
use crate::taken::{Stop, Taken};
use crate::walk::{Bounds, Walk, begin, walk_keys};
use crate::{ScanAnswer, ScanFault, ScanLimits};
use intent_meta::IntentSeen;
use lsm_store::Store;
use mvcc_cursor::MvccCursor;
use mvcc_key::{Elements, Key, Looks, OutOfMemory, Span, is_bad_span};
use read_rule::{ReadOptions, ReadRequest};
use std::alloc::Global;
use std::marker::Brand;
use std::sync::ledger::{Blank, Ledger};
use txn_state::Actor;

/// A read of the keys of [start, end) that have a stored pair, upwards, or downwards in a reverse scan (CockroachDB `pkg/storage`
/// `MVCCScan`). Each is read as [`plan_get`](crate::plan_get) reads it; a conflict or a read that is too old gives no row, and the
/// walk goes on.
///
/// Its refusals are, in this order, BadOptions; BadSpan; EpochFault or Uncertain of the key that ended the walk; TooOld with the greatest such
/// timestamp of the walked keys; Conflict with all intents in the way of the walked keys. Once `max` rows are taken, or their
/// sizes come to `target`, the walk stops at the next stored key, and so it does at a row that would pass `target`: there the
/// resume span begins, or ends behind it in a reverse scan.
///
/// It is one walk of a cursor. Each row is copied once, into the answer.
pub fn plan_scan(
    alloc: Global,
    store: &Store,
    who: Actor<'_>,
    start: &[u8],
    end: &[u8],
    options: ReadOptions,
    limits: ScanLimits,
) -> Result<ScanAnswer, ScanFault>
    requires { IsWellFormed (history_in store.now) store.now }
    ensures { AnswersScan result (scan.scan (history_in store.now) (asked who.entry options) start.now end.now (limits_of limits)) }
{
    let request = ReadRequest { who, options };
    if has_bad_options(&request) {
        return Err(ScanFault::BadOptions);
    }
    if is_bad_span(start, end) {
        return Err(ScanFault::BadSpan);
    }
    let reverse = limits.reverse;
    let bounds = Bounds {
        start,
        end,
        reverse,
    };
    scan_from::<Brand>(alloc, store, bounds, &request, &limits, Blank::new(1))
}

/// The scan of a good span with good options, with the looks in a ledger of their own.
fn scan_from<L: Ledger>(
    alloc: Global,
    store: &Store,
    bounds: Bounds<'_>,
    request: &ReadRequest<'_>,
    limits: &ScanLimits,
    blank: Blank,
) -> Result<ScanAnswer, ScanFault>
    requires formed { IsWellFormed (history_in store.now) store.now }
    requires good { read.are_bad_options (request_of request.now) ≡ false }
    requires span { spans.is_bad_span bounds.start.now bounds.end.now ≡ false }
    requires same { bounds.reverse ≡ limits.now.reverse }
    requires name { blank.name ≡ L.name }
    requires parts { blank.parts ≡ L.parts }
    requires some { 0 < blank.parts }
    ensures { AnswersScan result (scan.scan (history_in store.now) (request_of request.now) bounds.entry.start.now bounds.entry.end.now (limits_of limits.now)) }
{
    let mut cursor = MvccCursor::over(alloc, store)?;
    let mut looks = Looks::<L>::new(blank);
    begin(&mut cursor, bounds, &mut looks);
    let walked = walk_keys(alloc, &mut cursor, request, bounds, limits, &mut looks)?;
    answer(alloc, walked, bounds)
}

/// What a walk answers.
fn answer(alloc: Global, walk: Walk, bounds: Bounds<'_>) -> Result<ScanAnswer, ScanFault>
    ensures { (l : scan.ScanLimits) (w : scan.Walk) → IsWalk l w walk → IsAllInWay bounds.entry.reverse w
        → AnswersScan result (scan.answer_of bounds.entry.start.now bounds.entry.end.now bounds.entry.reverse w) }
{
    let Walk { taken, stop } = walk;
    match resume_of(alloc, stop, bounds) {
        Ok(resume) => collected(taken, resume, bounds.reverse),
        Err(fault) => Err(fault),
    }
}

/// What the way in which a walk ended leaves of its span, or how it was refused.
fn resume_of(alloc: Global, stop: Stop, bounds: Bounds<'_>) -> Result<Option<Span>, ScanFault>
    ensures { IsResumed (bounds_of bounds.entry) (stop_of stop) result }
{
    match stop {
        Stop::AtEnd => Ok(None),
        Stop::Before(key) => Ok(Some(rest_of_span(alloc, bounds, key)?)),
        Stop::Uncertain(ts, local) => Err(ScanFault::Uncertain(ts, local)),
        Stop::EpochFault(own, other) => Err(ScanFault::EpochFault(own, other)),
    }
}

/// What was taken, unless a refusal was collected: the greatest timestamp that was too recent, or else the intents in the way.
fn collected(taken: Taken, resume: Option<Span>, is_reverse: bool) -> Result<ScanAnswer, ScanFault>
    ensures { (l : scan.ScanLimits) (t : scan.Taken) (rest : Option spans.Span) → IsTaken l taken t → IsInWay is_reverse t.listed → IsInWay is_reverse t.conflicts → option_map span_of resume ≡ rest
        → AnswersScan result (scan.unless_collected t.too_old t.conflicts (record { rows = map (λ row. row.found) t.rows; intents = scan.ascending t.listed; resume = rest })) }
{
    if let Some(existing) = taken.too_old {
        return Err(ScanFault::TooOld(existing));
    }
    if !taken.conflicts.is_empty() {
        return Err(ScanFault::Conflict(upwards(taken.conflicts, is_reverse)));
    }
    Ok(ScanAnswer {
        rows: taken.rows,
        intents: upwards(taken.listed, is_reverse),
        resume,
    })
}

/// What is left of the span from the key on, in the walk's direction.
fn rest_of_span(alloc: Global, bounds: Bounds<'_>, key: Key) -> Result<Span, OutOfMemory>
    ensures { IfOk result (λ span. span_of span ≡ scan.rest_of_span bounds.entry.start.now bounds.entry.end.now bounds.entry.reverse key) }
{
    if !bounds.reverse {
        let end = Key::copy(alloc, bounds.end)?;
        return Ok(Span { start: key, end });
    }
    let mut behind = Vec::from_slice(alloc, key.bytes())?;
    behind.push(0)?;
    Ok(Span {
        start: Key::copy(alloc, bounds.start)?,
        end: Key::copy(alloc, behind.as_slice())?,
    })
}

/// Intents in the order of a walk, upwards.
fn upwards(intents: Elements<IntentSeen>, is_reverse: bool) -> Elements<IntentSeen>
    ensures { result ≡ (if is_reverse then reverse intents else intents) }
{
    if !is_reverse {
        return intents;
    }
    let mut turned = intents.into_vec();
    turned.reverse();
    Elements::from_vec(turned)
}
