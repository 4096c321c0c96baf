//! What is read of the point at which a cursor stands.
ghost use Rattle.std.specs.Prelude.{◌≡◌, ◌≤◌, ◌&&◌, not, is_some, unwrap_or, [], vec_capacity, IsOk, Ok};
ghost use Rattle.intent_meta.specs.Record.{record_of};
ghost use Rattle.intent_meta.specs.views.Seen.{seen_intent};
ghost use Rattle.std.specs.Option.{option_map};
ghost use Rattle.mvcc_key.specs.Order.{is_no_time, is_same_key};
ghost use Rattle.mvcc_key.specs.KeyFormat.{encoded_name};
ghost use Rattle.mvcc_key.specs.Points.{point_at, value_at};
ghost use Rattle.mvcc_key.specs.views.Seen.{time_of};
ghost use Rattle.mvcc_cursor.specs.KeyPoints.{record_name, kept_if, key_in, is_of_key, is_version};
ghost use Rattle.mvcc_cursor.specs.views.Short.{AreShortKeys, AreSet};
ghost use Rattle.mvcc_cursor.specs.views.Lent.{seen_version, version_in, bytes_in};

use crate::VersionRef;
use crate::bytes::name_record;
use intent_meta::{IntentRef, decode};
use mvcc_key::{Cursor, KeyRef, Timestamp, read_key};

/// Whether the point here is one of the key.
pub(crate) fn is_at<C: Cursor>(cursor: &C, key: &[u8]) -> bool
    ensures { result ≡ is_some (kept_if (is_of_key key.now) (point_at (C.points cursor.now) (C.place cursor.now))) }
{
    match cursor.key() {
        Some(encoded) => is_same(read_key(encoded).key, key),
        None => false,
    }
}

/// Whether the point here is the record of the key.
pub(crate) fn is_at_record<C: Cursor>(cursor: &C, key: &[u8]) -> bool
    ensures { result ≡ is_some (kept_if (λ p. is_of_key key.now p && is_no_time p.name.ts) (point_at (C.points cursor.now) (C.place cursor.now))) }
{
    match cursor.key() {
        Some(encoded) => is_record_of(read_key(encoded), key),
        None => false,
    }
}

/// The value of the point here, and nothing where there is none.
pub(crate) fn value_here<C: Cursor>(cursor: &C) -> &[u8]
    ensures { result.now ≡ bytes_in (value_at (C.points cursor.now) (C.place cursor.now)) }
{
    match cursor.value() {
        Some(value) => value,
        None => &[],
    }
}

/// The intent record that these bytes are known to be.
pub(crate) fn read_record(bytes: &[u8]) -> IntentRef<'_>
    requires { IsOk (record_of bytes.now) }
    ensures { record_of bytes.now ≡ Ok (seen_intent result) }
{
    decode(bytes).unwrap()
}

/// The version here, where the point is one of the key.
pub(crate) fn version_here<'a, C: Cursor>(cursor: &'a C, key: &[u8]) -> Option<VersionRef<'a>>
    requires { AreSet (C.points cursor.now) }
    ensures { option_map seen_version result ≡ option_map version_in
        (kept_if (λ p. is_of_key key.now p && is_version p) (point_at (C.points cursor.now) (C.place cursor.now))) }
{
    let encoded = cursor.key()?;
    let value = cursor.value()?;
    let name = read_key(encoded);
    if is_version_of(name, key) {
        Some(VersionRef { ts: name.ts, value })
    } else {
        None
    }
}

/// Makes the bytes the name of the record of the key here, or of the empty key where there is none.
pub(crate) fn take_key<C: Cursor>(cursor: &C, sought: &mut Vec<u8>) -> bool
    requires short { AreShortKeys (C.points cursor.now) }
    requires room { 4111 ≤ vec_capacity sought.old }
    ensures found { result ≡ is_some (point_at (C.points cursor.now) (C.place cursor.now)) }
    ensures items { sought.new.items ≡ encoded_name (record_name (unwrap_or (key_in (point_at (C.points cursor.now) (C.place cursor.now))) [])) }
    ensures room { 4111 ≤ vec_capacity sought.new }
{
    match cursor.key() {
        Some(encoded) => {
            name_record(sought, read_key(encoded).key);
            true
        }
        None => {
            name_record(sought, &[]);
            false
        }
    }
}

/// Whether the name is that of a version of the key.
fn is_version_of(name: KeyRef<'_>, key: &[u8]) -> bool
    ensures { result ≡ (is_same_key name.entry.key.now key.now && not (is_no_time (time_of name.entry.ts))) }
{
    is_same(name.key, key) && !is_none(name.ts)
}

/// Whether the name is that of the record of the key.
fn is_record_of(name: KeyRef<'_>, key: &[u8]) -> bool
    ensures { result ≡ (is_same_key name.entry.key.now key.now && is_no_time (time_of name.entry.ts)) }
{
    is_same(name.key, key) && is_none(name.ts)
}

/// Whether it is the timestamp that stands for none.
pub(crate) fn is_none(ts: Timestamp) -> bool
    ensures { result ≡ is_no_time (time_of ts) }
{
    ts == Timestamp::NONE
}

/// Whether both keys are the same.
fn is_same(a: &[u8], b: &[u8]) -> bool
    ensures { result ≡ is_same_key a.now b.now }
{
    a == b
}
