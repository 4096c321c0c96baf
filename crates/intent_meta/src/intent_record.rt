//! Intent records.
ghost use Rattle.std.specs.Prelude.{◌≡◌, ◌≤◌, ◌+◌, ◌++◌, false, true, Ok, None, IfOk, length, vec_len, vec_capacity};
ghost use Rattle.mvcc_key.specs.Limits.{max_count};
ghost use Rattle.mvcc_key.specs.Order.{is_no_time};
ghost use Rattle.mvcc_key.specs.views.Seen.{time_of};
ghost use Rattle.mvcc_value.specs.Encoding.{is_value_length};
ghost use Rattle.intent_meta.specs.Record.{head_bytes, record_bytes, record_of};
ghost use Rattle.intent_meta.specs.Rules.{AreRecordEntries};

use crate::encoding::{entries_len, put_entries};
use crate::{Entries, Entry};
use mvcc_key::numbers::{put_bytes, put_u32, put_u64};
use mvcc_key::{OutOfMemory, Timestamp};
use std::alloc::Global;
use std::marker::Model;
use uuid::{Bytes, Uuid};

/// A transaction's pending write of a key, as it is stored before its provisional version (CockroachDB
/// `enginepb.MVCCMetadata`): the transaction, the timestamp, whether the provisional value is a deletion and how long its
/// encoded value is, and the values that the transaction wrote before it. Contracts see it as a record, and it keeps the rules
/// by which it can be read from its bytes.
#[derive(Debug, Drop)]
pub struct IntentRecord {
    id: Bytes,
    epoch: u32,
    ts: Timestamp,
    sequence: u32,
    deleted: bool,
    value_len: u32,
    history: Entries,
}

impl Model for IntentRecord {
    ghost use Rattle.intent_meta.specs.Record.{IntentRecord};
    ghost use Rattle.intent_meta.specs.Rules.{IsRecord};
    ghost use Rattle.mvcc_key.specs.views.Seen.{time_of};

    ghost Value = { IntentRecord };

    ghost view = { λ r. record {
      id = r.id;
      epoch = r.epoch;
      sequence = r.sequence;
      ts = time_of r.ts;
      deleted = r.deleted;
      value_length = r.value_len;
      history = r.history;
    } };

    ghost invariant = { λ r. IsRecord (record {
      id = r.id;
      epoch = r.epoch;
      sequence = r.sequence;
      ts = time_of r.ts;
      deleted = r.deleted;
      value_length = r.value_len;
      history = r.history;
    }) };
}

impl IntentRecord {
    ghost use Rattle.intent_meta.specs.Rules.{IsRecord};

    /// The record of these fields. `value_len` is the length of the provisional version's encoded value, and the sequences of
    /// the history rise below `sequence`. Epochs and sequences are at most 2^31-1. This takes no memory.
    pub fn new(
        id: Uuid,
        epoch: u32,
        ts: Timestamp,
        sequence: u32,
        deleted: bool,
        value_len: u32,
        history: Entries,
    ) -> IntentRecord
        requires epoch_limit { epoch ≤ max_count }
        requires sequence_limit { sequence ≤ max_count }
        requires some_time { is_no_time (time_of ts) ≡ false }
        requires value { is_value_length deleted value_len ≡ true }
        requires entries { AreRecordEntries None sequence history }
        ensures { result ≡ record {
          id = id;
          epoch = epoch;
          sequence = sequence;
          ts = time_of ts;
          deleted = deleted;
          value_length = value_len;
          history = history;
        } }
    {
        IntentRecord {
            id: id.into_bytes(),
            epoch,
            ts,
            sequence,
            deleted,
            value_len,
            history,
        }
    }

    /// How many bytes [`encode`](IntentRecord::encode) gives.
    pub fn encoded_len(&self) -> u64
        ensures value { result ≡ length (record_bytes self.now) }
        ensures rules { IsRecord self.now }
    {
        45 + entries_len(self.entries())
    }

    /// The record's bytes: 45 for its fields, and for each history entry 8 and those of its value. All memory is taken at once.
    pub fn encode(&self, alloc: Global) -> Result<Vec<u8>, OutOfMemory>
        ensures bytes { IfOk result (λ v. v.items ≡ record_bytes self.now) }
        ensures read { IfOk result (λ v. record_of v.items ≡ Ok self.now) }
    {
        let mut out = Vec::with_capacity(alloc, self.encoded_len() as usize)?;
        self.put_head(&mut out);
        put_entries(&mut out, self.entries());
        Ok(out)
    }

    /// The history entries.
    fn entries(&self) -> &[Entry]
        ensures value { result.now ≡ self.now.history }
        ensures rules { IsRecord self.now }
    {
        self.history.as_slice()
    }

    /// Puts the bytes before the history entries at the end, where there is room.
    fn put_head(&self, out: &mut Vec<u8>)
        requires { vec_len out.old + 45 ≤ vec_capacity out.old }
        ensures items { out.new.items ≡ out.old.items ++ head_bytes self.now }
        ensures len { vec_len out.new ≡ vec_len out.old + 45 }
        ensures room { vec_capacity out.old ≤ vec_capacity out.new }
    {
        put_bytes(out, &self.id);
        put_u32(out, self.epoch);
        put_u32(out, self.sequence);
        put_u64(out, self.ts.wall());
        put_u32(out, self.ts.logical());
        put_bytes(out, &[u8::from(self.deleted)]);
        put_u32(out, self.value_len);
        put_u32(out, self.entries().len() as u32);
    }
}
