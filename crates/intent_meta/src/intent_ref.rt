//! Intent records that are lent where they lie.
ghost use Rattle.std.specs.Prelude.{◌≡◌, ℕ, IsOk, IfOk, IfSome, None, map, true, is_ok, ◌+◌, ◌≤◌, length, take, drop};
ghost use Rattle.std.specs.Int.{w32, from_be_bytes};
ghost use Rattle.std.specs.Option.{option_map};
ghost use Rattle.mvcc_key.specs.Encoded.{IsBytes};
ghost use Rattle.mvcc_key.specs.History.{entry_at, without_ignored};
ghost use Rattle.mvcc_key.specs.views.Seen.{range_of, time_of};
ghost use Rattle.intent_meta.specs.Entries as words;
ghost use Rattle.intent_meta.specs.Record.{record_bytes, record_of};

use crate::entries::{is_seen, kept, last_seen};
use crate::fields::EntryRef;
use crate::layout::{DELETED, EPOCH, HISTORY, SEQUENCE, VALUE_LEN};
use crate::{Entries, record_time};
use mvcc_key::numbers::read_u32;
use mvcc_key::{OutOfMemory, SeqRange, Timestamp};
use std::alloc::Global;
use uuid::Uuid;

/// An intent record in its bytes, which are lent and were judged once by [`decode`](crate::decode) (CockroachDB
/// `enginepb.MVCCMetadata`). Its readers take the fields from where they lie.
#[derive(Clone, Copy, Debug)]
pub struct IntentRef<'a> {
    bytes: &'a [u8],
    ghost are_bytes: { IsBytes bytes.now },
    ghost are_read: { is_ok (record_of bytes.now) ≡ true },
}

impl<'a> IntentRef<'a> {
    ghost use Rattle.intent_meta.specs.Rules.{AreRecordEntries, IsRecord, IsRecordEntry};
    ghost use Rattle.intent_meta.specs.views.Seen.{record_in, seen_intent};

    /// The record that these bytes are.
    pub(crate) fn over(bytes: &'a [u8]) -> IntentRef<'a>
        requires { IsOk (record_of bytes.now) }
        ensures { seen_intent result ≡ record_in bytes.now }
    {
        IntentRef { bytes }
    }

    /// The encoded record.
    pub fn bytes(&self) -> &'a [u8]
        ensures bytes_are { result.now ≡ record_bytes (seen_intent self.now) }
        ensures rules { IsRecord (seen_intent self.now) }
    {
        self.bytes
    }

    /// The transaction's id.
    pub fn id(&self) -> Uuid
        ensures { result ≡ (seen_intent self.now).id }
    {
        let mut id = [0; 16];
        id.copy_from_slice(self.bytes.split_at(EPOCH).0);
        Uuid::from_bytes(id)
    }

    /// The transaction's epoch, at most 2^31-1.
    pub fn epoch(&self) -> u32
        ensures { result ≡ (seen_intent self.now).epoch }
    {
        self.number_at(EPOCH)
    }

    /// The sequence of the provisional value, at most 2^31-1.
    pub fn sequence(&self) -> u32
        ensures { result ≡ (seen_intent self.now).sequence }
    {
        self.number_at(SEQUENCE)
    }

    /// The timestamp of the provisional version.
    pub fn ts(&self) -> Timestamp
        ensures { time_of result ≡ (seen_intent self.now).ts }
    {
        record_time(self.bytes).unwrap()
    }

    /// Whether the provisional value is a deletion.
    pub fn deleted(&self) -> bool
        ensures { result ≡ (seen_intent self.now).deleted }
    {
        self.bytes[DELETED] == 1
    }

    /// How many bytes the encoded value of the provisional version has, its header among them where a local timestamp is kept.
    pub fn value_len(&self) -> u32
        ensures { result ≡ (seen_intent self.now).value_length }
    {
        self.number_at(VALUE_LEN)
    }

    /// The plain value that a read of its transaction sees at this sequence: that of the greatest sequence that is at most the
    /// given one and not ignored. `provisional` is the plain provisional value, or nothing for a deletion. `None` exactly where
    /// there is no such entry. (CockroachDB `pkg/storage` `pebbleMVCCScanner.getFromIntentHistory`.)
    pub fn entry_at(
        &self,
        sequence: u32,
        ignored: &[SeqRange],
        provisional: &'a [u8],
    ) -> Option<&'a [u8]>
        ensures { option_map (λ v. v.now) result ≡ option_map (λ e. e.value)
            (entry_at sequence (map range_of ignored.now) (words.entries_with (seen_intent self.now) provisional.now)) }
    {
        if is_seen(self.sequence(), sequence, ignored) {
            return Some(provisional);
        }
        last_seen(self.history(), sequence, ignored)
    }

    /// The entries whose sequences are not ignored, the provisional value as the last of them. `None` exactly where none is
    /// left. `provisional` is as for [`entry_at`](IntentRef::entry_at), and is copied, as each value is. Where it may stand in the
    /// history of a record, so may all that are left. (CockroachDB `pkg/storage` `mvccMaybeRewriteIntentHistory`.)
    pub fn without_ignored(
        &self,
        alloc: Global,
        ignored: &[SeqRange],
        provisional: &[u8],
    ) -> Result<Option<Entries>, OutOfMemory>
        ensures entries { IfOk result (λ left. left ≡ words.some_entries
            (without_ignored (map range_of ignored.now) (words.entries_with (seen_intent self.now) provisional.now))) }
        ensures rules { (limit : ℕ)
            → IsRecordEntry None limit (record { sequence = (seen_intent self.now).sequence; value = provisional.now })
            → IfOk result (λ left. IfSome left (AreRecordEntries None limit)) }
    {
        let mut left = kept(alloc, self.history(), ignored)?;
        let sequence = self.sequence();
        let value = provisional;
        EntryRef { sequence, value }.keep(alloc, ignored, &mut left)?;
        Ok(some_entries(left))
    }

    /// The number of 32 bits at a place.
    fn number_at(&self, place: usize) -> u32
        requires { place + 4 ≤ length self.now.bytes.now }
        ensures { result ≡ from_be_bytes w32 (take 4 (drop place self.now.bytes.now)) }
    {
        read_u32(self.bytes.split_at(place).1)
    }

    /// The bytes of the history entries.
    fn history(&self) -> &'a [u8]
        ensures { words.AreBytesOf result.now (seen_intent self.now).history }
    {
        self.bytes.split_at(HISTORY).1
    }
}

/// The entries, where there are any.
fn some_entries(entries: Entries) -> Option<Entries>
    ensures { result ≡ words.some_entries entries }
{
    if entries.is_empty() {
        None
    } else {
        Some(entries)
    }
}
