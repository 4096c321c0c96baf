//! An intent of the writer's transaction, and what its entries say of a write.
ghost use Rattle.std.specs.Prelude.{◌≡◌, ℕ, ◌^◌, ◌<◌, true, length};
ghost use Rattle.mvcc_key.specs.History as history;
ghost use Rattle.mvcc_value.specs.Encoding.{IsEncodable, plain_bytes};
ghost use Rattle.mvcc_value.specs.views.Seen.{seen_body};
ghost use Rattle.intent_meta.specs.Record.{is_entry_value};

use intent_meta::{Entries, IntentAt, IntentRef};
use mvcc_key::{OutOfMemory, SeqRange, Timestamp};
use mvcc_value::{Body, decode};
use std::alloc::Global;
use txn_state::Txn;

/// An intent of the writer's transaction where it lies, of the writer's epoch or an earlier one.
#[derive(Clone, Copy)]
pub(crate) struct OwnIntent<'a> {
    /// The writer.
    pub(crate) txn: &'a Txn,
    /// The intent's record.
    pub(crate) head: IntentRef<'a>,
    /// The plain provisional value, and nothing for a deletion.
    pub(crate) provisional: &'a [u8],
    ghost plain: { is_entry_value provisional.now ≡ true },
    ghost short: { length provisional.now < 2 ^ 32 },
}

impl<'a> OwnIntent<'a> {
    ghost use Rattle.std.specs.Prelude.{◌==◌, false, None, map, nat_le, IfOk};
    ghost use Rattle.std.specs.Option.{option_map};
    ghost use Rattle.mvcc_key.specs.History.{Intent, entry_at, without_ignored};
    ghost use Rattle.mvcc_key.specs.views.Seen.{time_of};
    ghost use Rattle.intent_meta.specs.Rules.{AreRecordEntries};
    ghost use Rattle.intent_meta.specs.views.Lent.{seen_intent_at};
    ghost use Rattle.intent_meta.specs.StoredPairs.{plain_entry, provisional_sequence};
    ghost use Rattle.txn_state.specs.Transaction.{Actor};
    ghost use Rattle.txn_state.specs.views.Seen.{ranges_of};
    ghost use Rattle.write_rule.specs.Write.{entry_below, first_write};
    ghost use Rattle.write_rule.specs.views.Own.{IsOwn, seen_own};

    /// The intent of this transaction.
    pub(crate) fn of(txn: &'a Txn, intent: IntentAt<'a>) -> OwnIntent<'a>
        requires plain { is_entry_value intent.provisional.now ≡ true }
        requires short { length intent.provisional.now < 2 ^ 32 }
        ensures txn { result.txn.now ≡ txn.now }
        ensures lent { seen_own result ≡ seen_intent_at intent.entry }
    {
        OwnIntent {
            txn,
            head: intent.head,
            provisional: intent.provisional,
        }
    }

    /// It is of the writer's epoch, so that its entries count.
    pub(crate) fn is_of_epoch(self) -> bool
        ensures value { result ≡ (self.entry.txn.now.epoch == (seen_own self.entry).head.epoch) }
        ensures of { (who : Actor) (i : Intent) → IsOwn self.entry who i → result ≡ (self.entry.txn.now.epoch == i.epoch) }
    {
        self.txn.epoch() == self.head.epoch()
    }

    /// The timestamp of its provisional version.
    pub(crate) fn ts(self) -> Timestamp
        ensures value { time_of result ≡ (seen_own self.entry).head.ts }
        ensures of { (who : Actor) (i : Intent) → IsOwn self.entry who i → time_of result ≡ i.ts }
    {
        self.head.ts()
    }

    /// A write at the transaction's sequence was made before: the last entry is at that sequence or behind it.
    pub(crate) fn has_replay(self) -> bool
        ensures value { result ≡ nat_le self.entry.txn.now.sequence (seen_own self.entry).head.sequence }
        ensures of { (who : Actor) (i : Intent) → IsOwn self.entry who i → result ≡ nat_le self.entry.txn.now.sequence (provisional_sequence i) }
    {
        self.txn.sequence() <= self.head.sequence()
    }

    /// The value of the last entry that is before the transaction's sequence and not ignored.
    pub(crate) fn entry_below(self) -> Option<Body<'a>>
        ensures { (who : Actor) (i : Intent) → IsOwn self.entry who i
            → option_map seen_body result ≡ option_map (λ e. e.value) (entry_below self.entry.txn.now.sequence self.entry.txn.now.ignored i.entries) }
    {
        let last = self.txn.sequence().checked_sub(1)?;
        self.value_at(last, self.txn.ignored())
    }

    /// The value of the entry at the transaction's sequence, ignored or not.
    pub(crate) fn entry_here(self) -> Option<Body<'a>>
        ensures { (who : Actor) (i : Intent) → IsOwn self.entry who i
            → option_map seen_body result ≡ option_map (λ e. e.value) (first_write self.entry.txn.now i) }
    {
        let sequence = self.txn.sequence();
        match sequence.checked_sub(1) {
            Some(last) => self.value_at(sequence, &[SeqRange { first: 0, last }]),
            None => self.value_at(sequence, &[]),
        }
    }

    /// The value of the last entry up to the sequence that is not ignored.
    fn value_at(self, sequence: u32, ignored: &[SeqRange]) -> Option<Body<'a>>
        ensures { (who : Actor) (i : Intent) → IsOwn self.entry who i
            → option_map seen_body result ≡ option_map (λ e. e.value) (entry_at sequence (ranges_of ignored.now) i.entries) }
    {
        let bytes = self.head.entry_at(sequence, ignored, self.provisional)?;
        Some(plain_body(bytes))
    }

    /// The entries that are not ignored, as they stand in the history of the record of a later write.
    pub(crate) fn kept(self, alloc: Global) -> Result<Entries, OutOfMemory>
        ensures entries { (who : Actor) (i : Intent) → IsOwn self.entry who i
            → IfOk result (λ left. left ≡ map plain_entry (without_ignored self.entry.txn.now.ignored i.entries)) }
        ensures rules { nat_le self.entry.txn.now.sequence (seen_own self.entry).head.sequence ≡ false → IfOk result (AreRecordEntries None self.entry.txn.now.sequence) }
    {
        let left = self
            .head
            .without_ignored(alloc, self.txn.ignored(), self.provisional)?;
        match left {
            Some(entries) => Ok(entries),
            None => Ok(Entries::new(alloc)),
        }
    }
}

/// The value that these bytes are: a plain value, or nothing for a deletion.
fn plain_body(bytes: &[u8]) -> Body<'_>
    requires { is_entry_value bytes.now ≡ true }
    ensures { (body : history.Body) → IsEncodable body → bytes.now ≡ plain_bytes body → seen_body result ≡ body }
{
    decode(bytes, Timestamp::NONE).unwrap().body
}
