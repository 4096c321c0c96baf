//! What becomes of an intent.
ghost use Rattle.std.specs.Prelude.{◌≡◌, ◌==◌, ◌++◌, ◌∷◌, [], IfOk, IfSome, MatchOption, List, None, Some, map, nat_lt, true, false};
ghost use Rattle.std.specs.Option.{option_map};
ghost use Rattle.std.specs.List.{AllByRecursion};
ghost use Rattle.mvcc_key.specs.Lists as lists;
ghost use Rattle.mvcc_key.specs.History as history;
ghost use Rattle.mvcc_key.specs.History.{Entry as EntryOf, Intent};
ghost use Rattle.mvcc_key.specs.Order as order;
ghost use Rattle.mvcc_key.specs.views.Seen.{range_of, time_of};
ghost use Rattle.mvcc_value.specs.Encoding.{IsEncodable, plain_bytes, value_bytes};
ghost use Rattle.mvcc_value.specs.views.Seen.{seen_body};
ghost use Rattle.intent_meta.specs.Entries.{some_entries};
ghost use Rattle.intent_meta.specs.Record.{is_entry_value};
ghost use Rattle.intent_meta.specs.Rules.{AreRecordEntries};
ghost use Rattle.intent_meta.specs.StoredPairs.{plain_entry};
ghost use Rattle.intent_resolve.specs.Resolve as rule;
ghost use Rattle.intent_resolve.specs.views.Left.{Rules, left_by, seen_left, seen_new};
ghost use Rattle.intent_resolve.specs.views.Own.{IsLentOf, IsOfStored, IsSomeIntent, with_last};
ghost use Rattle.intent_resolve.specs.views.Seen.{update_of};

use crate::own_intent::{OwnIntent, later};
use crate::{ResolveFault, TxnStatus, Update};
use intent_meta::{Entries, Entry, IntentRecord};
use mvcc_key::{Bytes, MAX_COUNT, OutOfMemory, SeqRange, Timestamp};
use mvcc_value::{Body, decode, encode};
use std::alloc::Global;

/// A version that is put: its timestamp, and its encoded value.
#[derive(Drop)]
pub(crate) struct NewVersion {
    pub ts: Timestamp,
    pub value: Bytes,
}

/// What becomes of an intent.
#[derive(Drop)]
pub(crate) enum Resolution {
    /// It goes.
    Gone,
    /// It stays: its encoded record, and its provisional version.
    Stays(Bytes, NewVersion),
    /// It becomes a version.
    Becomes(NewVersion),
}

/// What becomes of an intent of the transaction.
pub(crate) fn resolve_intent(
    alloc: Global,
    update: &Update,
    own: OwnIntent<'_>,
) -> Result<Resolution, ResolveFault>
    requires { IsSomeIntent own }
    ensures { (i : Intent) → IsLentOf own.entry i → Rules result (rule.resolution (update_of update.now).status (update_of update.now) i) }
{
    match update.status {
        TxnStatus::Aborted => Ok(Resolution::Gone),
        TxnStatus::Committed => committed(alloc, update, own),
        TxnStatus::Pending => pending(alloc, update, own),
    }
}

/// What becomes of it where the transaction has committed: one of another epoch goes.
fn committed(alloc: Global, update: &Update, own: OwnIntent<'_>) -> Result<Resolution, ResolveFault>
    requires { IsSomeIntent own }
    ensures { (i : Intent) → IsLentOf own.entry i → Rules result (rule.resolution rule.Committed (update_of update.now) i) }
{
    if own.is_of_epoch(update.epoch) {
        settled(alloc, update, own)
    } else {
        Ok(Resolution::Gone)
    }
}

/// What becomes of it where its epoch has committed: the last entry that counts becomes a version, if there is one.
fn settled(alloc: Global, update: &Update, own: OwnIntent<'_>) -> Result<Resolution, ResolveFault>
    requires { IsSomeIntent own }
    ensures { (i : Intent) → IsLentOf own.entry i → (update.now.epoch == i.epoch) ≡ true → Rules result (rule.resolution rule.Committed (update_of update.now) i) }
{
    match last_value(own, update.ignored.as_slice()) {
        Some(value) => version_of(alloc, update, own, value),
        None => Ok(Resolution::Gone),
    }
}

/// The version that it becomes, of the value of the last entry that counts: none below the intent's timestamp.
fn version_of(
    alloc: Global,
    update: &Update,
    own: OwnIntent<'_>,
    value: Body<'_>,
) -> Result<Resolution, ResolveFault>
    ensures { (i : Intent) → IsLentOf own.entry i → (update.now.epoch == i.epoch) ≡ true
        → Some (seen_body value.entry) ≡ option_map (λ (e : EntryOf history.Body). e.value) (lists.last (history.without_ignored (map range_of update.now.ignored) i.entries))
        → Rules result (rule.resolution rule.Committed (update_of update.now) i) }
{
    let old = own.ts();
    let ts = update.ts;
    if ts.compare(old).is_lt() {
        return Err(ResolveFault::CommitBelowIntent(old));
    }
    let version = new_version(alloc, value, own.moved_local(ts), ts)?;
    Ok(Resolution::Becomes(version))
}

/// What becomes of it where the transaction goes on: one of an earlier epoch goes.
fn pending(alloc: Global, update: &Update, own: OwnIntent<'_>) -> Result<Resolution, ResolveFault>
    requires { IsSomeIntent own }
    ensures { (i : Intent) → IsLentOf own.entry i → Rules result (rule.resolution rule.Pending (update_of update.now) i) }
{
    if own.is_before_epoch(update.epoch) {
        Ok(Resolution::Gone)
    } else {
        moving(alloc, update, own)
    }
}

/// What becomes of it where its epoch goes on: it moves with the entries that count, if there are any.
fn moving(alloc: Global, update: &Update, own: OwnIntent<'_>) -> Result<Resolution, ResolveFault>
    requires { IsSomeIntent own }
    ensures { (i : Intent) → IsLentOf own.entry i → nat_lt i.epoch update.now.epoch ≡ false → Rules result (rule.resolution rule.Pending (update_of update.now) i) }
{
    let ts = later(own.ts(), update.ts);
    let kept = kept_entries(alloc, update, own)?;
    match kept {
        Some((before, last)) => Ok(moved(alloc, own, ts, before, &last)?),
        None => Ok(Resolution::Gone),
    }
}

/// The value of the last entry whose sequence is not ignored.
fn last_value<'a>(own: OwnIntent<'a>, ignored: &[SeqRange]) -> Option<Body<'a>>
    requires { IsSomeIntent own }
    ensures { (i : Intent) → IsLentOf own.entry i
        → option_map seen_body result ≡ option_map (λ (e : EntryOf history.Body). e.value) (lists.last (history.without_ignored (map range_of ignored.now) i.entries)) }
{
    let bytes = own.head.entry_at(MAX_COUNT, ignored, own.provisional)?;
    Some(plain_body(bytes))
}

/// The entries that count: those before the last one, and the last one. Of an intent of a later epoch all count.
fn kept_entries(
    alloc: Global,
    update: &Update,
    own: OwnIntent<'_>,
) -> Result<Option<(Entries, Entry)>, OutOfMemory>
    requires { IsSomeIntent own }
    ensures entries { (i : Intent) → IsLentOf own.entry i
        → IfOk result (λ left. option_map with_last left ≡ some_entries (map plain_entry (rule.dropped (update_of update.now) i).entries)) }
    ensures rules { IfOk result (λ left. IfSome left (λ p. AreRecordEntries None p.1.sequence p.0)) }
    ensures last { IfOk result (λ left. IfSome left (λ p. IsOfStored p.1)) }
{
    let ignored = dropped(update, own);
    let left = own.head.without_ignored(alloc, ignored, own.provisional)?;
    match left {
        Some(entries) => Ok(split_last(entries)),
        None => Ok(None),
    }
}

/// The ranges of sequences that do not count: none where the intent is of another epoch.
fn dropped<'u>(update: &'u Update, own: OwnIntent<'_>) -> &'u [SeqRange]
    ensures { (i : Intent) → IsLentOf own.entry i → history.without_ignored (map range_of result.now) i.entries ≡ (rule.dropped (update_of update.now) i).entries }
{
    if own.is_of_epoch(update.epoch) {
        update.ignored.as_slice()
    } else {
        &[]
    }
}

/// The entries before the last one, and the last one.
fn split_last(mut entries: Entries) -> Option<(Entries, Entry)>
    ensures { MatchOption result (entries ≡ []) (λ p. entries ≡ p.0 ++ p.1 ∷ []) }
{
    let last = entries.pop()?;
    Some((entries, last))
}

/// The intent at another timestamp, with these entries.
fn moved(
    alloc: Global,
    own: OwnIntent<'_>,
    ts: Timestamp,
    before: Entries,
    last: &Entry,
) -> Result<Resolution, OutOfMemory>
    requires time { order.is_no_time (time_of ts) ≡ false }
    requires rules { AreRecordEntries None last.now.sequence before }
    requires last { IsOfStored last.now }
    ensures { (i : Intent) (es : List (EntryOf history.Body)) → IsLentOf own.entry i → AllByRecursion (λ e. IsEncodable e.value) es → before ++ last.now ∷ [] ≡ map plain_entry es
        → IfOk result (λ r. seen_left r ≡ left_by (rule.Stays (rule.moved (time_of ts) (record i { entries = es })))) }
{
    let body = plain_body(last.value.as_slice());
    let version = new_version(alloc, body, own.moved_local(ts), ts)?;
    let head = IntentRecord::new(
        own.head.id(),
        own.head.epoch(),
        ts,
        last.sequence,
        is_deletion(body),
        version.value.as_slice().len() as u32,
        before,
    );
    Ok(Resolution::Stays(Bytes::from_vec(head.encode(alloc)?), version))
}

/// The value is a deletion.
fn is_deletion(body: Body<'_>) -> bool
    ensures { result ≡ history.is_deletion (seen_body body.entry) }
{
    matches!(body, Body::Deletion)
}

/// The version of this value, which keeps the local timestamp where it is below its own.
fn new_version(
    alloc: Global,
    body: Body<'_>,
    local: Timestamp,
    ts: Timestamp,
) -> Result<NewVersion, OutOfMemory>
    ensures { IfOk result (λ v. seen_new v ≡ record { ts = time_of ts; value = value_bytes (seen_body body.entry) (time_of local) (time_of ts) }) }
{
    Ok(NewVersion {
        ts,
        value: Bytes::from_vec(encode(alloc, body, local, ts)?),
    })
}

/// The value that these bytes are: a plain value, or nothing for a deletion.
fn plain_body(bytes: &[u8]) -> Body<'_>
    requires { is_entry_value bytes.now ≡ true }
    ensures { (body : history.Body) → IsEncodable body → bytes.now ≡ plain_bytes body → seen_body result ≡ body }
{
    decode(bytes, Timestamp::NONE).unwrap().body
}
