//! The newest item of a key.
ghost use Rattle.std.specs.Prelude.{◌≡◌, Option, Ok, true, is_ok, IfErr, MatchResult};
ghost use Rattle.std.specs.Option.{option_map};
ghost use Rattle.mvcc_key.specs.Items.{Item, newest};
ghost use Rattle.mvcc_key.specs.views.Seen.{time_of};
ghost use Rattle.mvcc_value.specs.Encoding.{value_of};
ghost use Rattle.mvcc_value.specs.views.Seen.{seen_body};
ghost use Rattle.intent_meta.specs.views.WholeKeys.{IsWholeItem};
ghost use Rattle.intent_meta.specs.views.Lent.{lent_item, seen_item};
ghost use Rattle.txn_state.specs.Transaction.{read_time};
ghost use Rattle.write_rule.specs.Write as rule;
ghost use Rattle.write_rule.specs.views.Own.{seen_newest, stamped};
ghost use Rattle.write_rule.specs.views.Seen.{IsLate, Tells, refusal_of};

use crate::WriteFault;
use intent_meta::{ItemRef, KeyItems};
use mvcc_key::Timestamp;
use mvcc_value::{Body, decode};

/// The newest item of a key: its timestamp, and its value.
#[derive(Clone, Copy)]
pub(crate) struct Newest<'a> {
    pub(crate) ts: Timestamp,
    pub(crate) body: Body<'a>,
}

/// The newest item of the key. A tombstone over the key is a deletion.
pub(crate) fn newest_of<K: KeyItems>(items: &K) -> Option<Newest<'_>>
    ensures { option_map seen_newest result ≡ option_map stamped (newest (K.shown items.now).items) }
{
    let item = items.newest()?;
    let body = body_of(item);
    Some(Newest { ts: item.ts, body })
}

/// The value of an item. A tombstone has no bytes, as a deletion has none.
fn body_of(item: ItemRef<'_>) -> Body<'_>
    requires { is_ok (value_of (time_of item.ts) (seen_item item).bytes) ≡ true }
    ensures { (i : Item) → IsWholeItem i → seen_item item.entry ≡ lent_item i → seen_body result ≡ i.body }
{
    let bytes = item.value.unwrap_or(&[]);
    decode(bytes, item.ts).unwrap().body
}

/// Whether the newest item, where there is one, is older than the writer's reads.
pub(crate) fn past_newest(newest: Option<Newest<'_>>, read_ts: Timestamp) -> Result<(), WriteFault>
    ensures outcome { (item : Option Item) (w : rule.WriteRequest) → option_map seen_newest newest.entry ≡ option_map stamped item → read_time w.who ≡ time_of read_ts
        → MatchResult result (λ _. rule.past_newest item w ≡ Ok w) (λ why. Tells (refusal_of why) (rule.past_newest item w)) }
    ensures late { IfErr result IsLate }
{
    match newest {
        Some(Newest { ts, .. }) if ts.compare(read_ts).is_ge() => Err(WriteFault::TooOld(ts)),
        _ => Ok(()),
    }
}
