//! A key's items, held in a list.
ghost use Rattle.std.specs.Prelude.{◌≡◌, ◌↔◌, ◌++◌, [], ◌∷◌, ℕ, List, IsSome, IfSome, IfOk, OnOk, OnErr, IsTrue, true, false, None, MatchResult, if◌then◌else◌};
ghost use Rattle.std.specs.Option.{option_map};
ghost use Rattle.mvcc_key.specs.Encoded.{IsBytes};
ghost use Rattle.mvcc_key.specs.History as history;
ghost use Rattle.mvcc_key.specs.Items.{tombstone_item, effective_local};
ghost use Rattle.mvcc_key.specs.Order.{Key, is_up_to};
ghost use Rattle.mvcc_key.specs.views.Seen.{time_of};
ghost use Rattle.mvcc_value.specs.views.Seen.{seen_body};
ghost use Rattle.intent_meta.specs.KeyHistory.{is_uncertain};
ghost use Rattle.intent_meta.specs.views.WholeKeys.{IsWholeItem, IsWholeIntent};
ghost use Rattle.intent_meta.specs.views.Lent.{lent_item, lent_intent, seen_item, seen_intent_at};
ghost use Rattle.intent_meta.specs.views.Listed as views;

use crate::{IntentAt, IntentRef, ItemRef, decode};
use mvcc_key::{Bytes, OutOfMemory, Timestamp};
use mvcc_value::{Body, encode, has_bytes, is_deletion, kept_local, plain_value};
use std::alloc::Global;
use std::marker::Model;

/// An item with bytes of its own: a version's encoded value, or a tombstone.
#[derive(Debug, Drop)]
pub struct ListedItem {
    ts: Timestamp,
    local: Timestamp,
    value: Option<Bytes>,
}

impl Model for ListedItem {
    ghost use Rattle.mvcc_key.specs.Items.{Item};
    ghost use Rattle.mvcc_key.specs.views.Seen.{time_of};
    ghost use Rattle.intent_meta.specs.views.Listed.{body_in, IsListedItem};

    ghost Value = { Item };

    ghost view = { λ i. record { ts = time_of i.ts; local = time_of i.local; body = body_in (time_of i.ts) i.value } };

    ghost invariant = { λ i. IsListedItem (record { ts = time_of i.ts; local = time_of i.local; body = body_in (time_of i.ts) i.value }) i.value };
}

impl ListedItem {
    /// The version at `ts` with this value. The local timestamp is kept where it is below `ts`.
    pub fn version(
        alloc: Global,
        ts: Timestamp,
        local: Timestamp,
        body: Body<'_>,
    ) -> Result<ListedItem, OutOfMemory>
        ensures { IfOk result (λ i. i ≡ record {
          ts = time_of ts;
          local = history.kept_local (time_of local) (time_of ts);
          body = seen_body body.entry;
        }) }
    {
        has_bytes(body);
        let value = Bytes::from_vec(encode(alloc, body, local, ts)?);
        Ok(ListedItem {
            ts,
            local: kept_local(local, ts),
            value: Some(value),
        })
    }

    /// The tombstone at `ts`.
    pub fn tombstone(ts: Timestamp) -> ListedItem
        ensures { result ≡ tombstone_item (time_of ts) }
    {
        ListedItem {
            ts,
            local: Timestamp::NONE,
            value: None,
        }
    }

    /// Its timestamp.
    pub(crate) fn ts(&self) -> Timestamp
        ensures ts { time_of result ≡ self.now.ts }
        ensures whole { IsWholeItem self.now }
    {
        self.ts
    }

    /// Its local timestamp where one is kept, and else its own.
    pub(crate) fn effective_local(&self) -> Timestamp
        ensures { time_of result ≡ effective_local self.now }
    {
        if self.local == Timestamp::NONE {
            self.ts
        } else {
            self.local
        }
    }

    /// It is at or below `ts`.
    pub(crate) fn is_up_to(&self, ts: Timestamp) -> bool
        ensures { result ≡ is_up_to self.now.ts (time_of ts) }
    {
        self.ts.compare(ts).is_le()
    }

    /// It is above `above`, at or below `limit`, and was written at or below `local_limit`, where that is one.
    pub(crate) fn is_uncertain(
        &self,
        above: Timestamp,
        limit: Timestamp,
        local_limit: Timestamp,
    ) -> bool
        ensures { result ≡ is_uncertain (time_of above) (time_of limit) (time_of local_limit) self.now }
    {
        above.compare(self.ts).is_lt()
            && self.is_up_to(limit)
            && (local_limit == Timestamp::NONE
                || self.effective_local().compare(local_limit).is_le())
    }

    /// The item where it lies.
    pub(crate) fn lent(&self) -> ItemRef<'_>
        ensures { seen_item result ≡ lent_item self.now }
    {
        let value = match &self.value {
            Some(value) => Some(value.as_slice()),
            None => None,
        };
        ItemRef {
            ts: self.ts,
            local: self.local,
            value,
        }
    }
}

/// An intent with bytes of its own: its record, and the encoded value of its provisional version.
#[derive(Debug, Drop)]
pub struct ListedIntent {
    head: Bytes,
    value: Bytes,
}

impl Model for ListedIntent {
    ghost use Rattle.intent_meta.specs.views.Listed.{ListedIntent, IsListedIntent, intent_in};

    ghost Value = { ListedIntent };

    ghost view = { λ i. intent_in i.head i.value };

    ghost invariant = { λ i. IsListedIntent i.head i.value (intent_in i.head i.value) };
}

impl ListedIntent {
    /// The intent of this encoded record and this encoded provisional value. `None` exactly where one of them is none, or the
    /// record speaks of another value, by its length or by whether it is a deletion.
    pub fn read(head: Bytes, value: Bytes) -> Option<ListedIntent>
        ensures some { IsSome result ↔ IsTrue (views.are_intent head value) }
        ensures is { IfSome result (λ i. i ≡ views.intent_in head value) }
    {
        if are_intent(head.as_slice(), value.as_slice()) {
            Some(ListedIntent { head, value })
        } else {
            None
        }
    }

    /// It is whole at each key.
    pub(crate) fn is_whole(&self)
        ensures { (key : Key) → IsWholeIntent key (views.intent_at key self.now) }
    {
        let _ = &self.head;
    }

    /// The intent where it lies.
    pub(crate) fn lent(&self) -> IntentAt<'_>
        ensures lent { (key : Key) → seen_intent_at result ≡ lent_intent (views.intent_at key self.now) }
    {
        IntentAt {
            head: IntentRef::over(self.head.as_slice()),
            provisional: plain_value(self.value.as_slice()),
        }
    }
}

/// The bytes are an intent's record and the value of its provisional version.
fn are_intent(head: &[u8], value: &[u8]) -> bool
    ensures value { result ≡ views.are_intent head.now value.now }
    ensures head_bytes { IsBytes head.now }
    ensures value_bytes { IsBytes value.now }
{
    let Ok(record) = decode(head) else {
        return false;
    };
    let Ok(read) = mvcc_value::decode(value, record.ts()) else {
        return false;
    };
    record.deleted() == is_deletion(&read) && record.value_len() as usize == value.len()
}
