//! A read of one key.
ghost use Rattle.std.specs.Prelude.{◌≡◌, ◌<◌, false, IfOk};
ghost use Rattle.mvcc_key.specs.History.{History};
ghost use Rattle.intent_meta.specs.KeyHistory.{key_history};
ghost use Rattle.read_rule.specs.Read as read;
ghost use Rattle.read_rule.specs.views.Decided.{request_of};
ghost use Rattle.mvcc_cursor.specs.WellFormed.{IsWellFormed, history_in};
ghost use Rattle.mvcc_scan.specs.views.Kept.{IsLooked, listed_as};
ghost use Rattle.mvcc_scan.specs.views.Seen.{AnswersGet, asked};

use crate::kept::Kept;
use crate::look::{Looked, look};
use crate::met::Met;
use crate::{GetAnswer, ScanFault};
use intent_meta::IntentSeen;
use lsm_store::Store;
use mvcc_cursor::MvccCursor;
use mvcc_key::{Elements, Key, Looks, OutOfMemory};
use mvcc_value::Found;
use read_rule::{ReadOptions, ReadRequest};
use std::alloc::Global;
use std::marker::Brand;
use std::mem;
use std::sync::ledger::{Blank, Ledger};
use txn_state::Actor;

/// A read of one key (CockroachDB `pkg/storage` `MVCCGet`). Its refusals are, in this order, BadOptions, and that of
/// [`read_rule::decide`] of the key: Conflict, EpochFault, TooOld or Uncertain. An inconsistent read lists the intent that it passes over.
///
/// It seeks once where the newest version answers, and once more where an older one does. A key above 4,096 bytes, which is
/// stored nowhere, has no data. Beside the cursor it takes the memory of its answer.
pub fn plan_get(
    alloc: Global,
    store: &Store,
    who: Actor<'_>,
    key: &[u8],
    options: ReadOptions,
) -> Result<GetAnswer, ScanFault>
    requires { IsWellFormed (history_in store.now) store.now }
    ensures { AnswersGet result (read.get (history_in store.now) (asked who.entry options) key.now) }
{
    plan_get_with(&mut Vec::new(alloc), alloc, store, who, key, options)
}

/// The same, with a buffer that is kept from one read to the next: once it has grown to the 4,111 bytes that a cursor needs, no
/// later read takes memory for it. What it holds says nothing.
pub fn plan_get_with(
    buffer: &mut Vec<u8>,
    alloc: Global,
    store: &Store,
    who: Actor<'_>,
    key: &[u8],
    options: ReadOptions,
) -> Result<GetAnswer, ScanFault>
    requires { IsWellFormed (history_in store.now) store.now }
    ensures { AnswersGet result (read.get (history_in store.now) (asked who.entry options) key.now) }
{
    let request = ReadRequest { who, options };
    if has_bad_options(&request) {
        return Err(ScanFault::BadOptions);
    }
    get_from::<Brand>(buffer, alloc, store, key, &request, Blank::new(1))
}

/// Whether an inconsistent read is in a transaction, or fails on more recent items.
pub(crate) fn has_bad_options(request: &ReadRequest<'_>) -> bool
    ensures { result ≡ read.are_bad_options (request_of request.now) }
{
    let options = request.options;
    options.inconsistent && (matches!(request.who, Actor::In(_)) || options.fail_more_recent)
}

/// The read with good options, its looks in a ledger of their own.
fn get_from<L: Ledger>(
    buffer: &mut Vec<u8>,
    alloc: Global,
    store: &Store,
    key: &[u8],
    request: &ReadRequest<'_>,
    blank: Blank,
) -> Result<GetAnswer, ScanFault>
    requires formed { IsWellFormed (history_in store.now) store.now }
    requires good { read.are_bad_options (request_of request.now) ≡ false }
    requires name { blank.name ≡ L.name }
    requires parts { blank.parts ≡ L.parts }
    requires some { 0 < blank.parts }
    ensures { AnswersGet result (read.get (history_in store.now) (request_of request.now) key.now) }
{
    let lent = mem::replace(buffer, Vec::new(alloc));
    let mut cursor = MvccCursor::with_buffer(lent, store)?;
    let mut looks = Looks::<L>::new(blank);
    cursor.seek_exact(key, &mut looks);
    let looked = look(alloc, &mut cursor, request, &mut looks)?;
    *buffer = cursor.into_buffer();
    answer(alloc, key, looked)
}

/// The answer that a look at the key comes to.
fn answer(alloc: Global, key: &[u8], looked: Looked) -> Result<GetAnswer, ScanFault>
    ensures { (h : History) (r : read.ReadRequest) → read.are_bad_options r ≡ false → IsLooked r (key_history key.now h) looked
        → AnswersGet result (read.get h r key.now) }
{
    let Looked { kept, listed: met } = looked;
    match kept {
        Kept::Row(value, ts, _) => {
            let key_of_row = Key::copy(alloc, key)?;
            let found = Found {
                key: key_of_row,
                value,
                ts,
            };
            Ok(found_with(alloc, key, Some(found), met)?)
        }
        Kept::Nothing => Ok(found_with(alloc, key, None, met)?),
        Kept::Conflict(met) => Err(ScanFault::Conflict(listed(alloc, key, Some(met))?)),
        Kept::Uncertain(ts, local) => Err(ScanFault::Uncertain(ts, local)),
        Kept::TooOld(ts) => Err(ScanFault::TooOld(ts)),
        Kept::EpochFault(own, other) => Err(ScanFault::EpochFault(own, other)),
    }
}

/// What is found, with the intent that was met at the key, if one was.
fn found_with(
    alloc: Global,
    key: &[u8],
    found: Option<Found>,
    met: Option<Met>,
) -> Result<GetAnswer, OutOfMemory>
    ensures found { IfOk result (λ a. a.found ≡ found) }
    ensures intents { IfOk result (λ a. a.intents ≡ listed_as key.now met) }
{
    let intents = listed(alloc, key, met)?;
    Ok(GetAnswer { found, intents })
}

/// The intent that was met at the key, if one was.
fn listed(alloc: Global, key: &[u8], met: Option<Met>) -> Result<Elements<IntentSeen>, OutOfMemory>
    ensures { IfOk result (λ intents. intents ≡ listed_as key.now met) }
{
    let mut intents = Elements::new(alloc);
    if let Some(met) = met {
        intents.push(met.at(alloc, key)?)?;
    }
    Ok(intents)
}
