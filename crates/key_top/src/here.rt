//! The top of the key at which a cursor stands.
ghost use Rattle.std.specs.Prelude.{◌≡◌, ◌≤◌, ◌+◌, Option, length};
ghost use Rattle.std.specs.Option.{option_map};
ghost use Rattle.mvcc_key.specs.History.{Intent, Version};
ghost use Rattle.mvcc_key.specs.Items.{version_item};
ghost use Rattle.mvcc_key.specs.Lists.{first};
ghost use Rattle.mvcc_key.specs.Order.{Key, max_logical, max_wall};
ghost use Rattle.mvcc_key.specs.views.Seen.{time_of};
ghost use Rattle.intent_meta.specs.StoredPairs.{intent_record};
ghost use Rattle.intent_meta.specs.Valid.{IsValid};
ghost use Rattle.intent_meta.specs.views.Lent.{lent_item, seen_item};
ghost use Rattle.intent_meta.specs.views.Seen.{seen_intent};
ghost use Rattle.stat_core.specs.views.Seen.{version_shape_of};
ghost use Rattle.stat_delta.specs.Shapes as shapes;
ghost use Rattle.mvcc_cursor.specs.Standing.{AtKey, anew, committed, entries_of, one_seek};
ghost use Rattle.mvcc_cursor.specs.WellFormed.{IsWellFormed, history_in};
ghost use Rattle.mvcc_cursor.specs.views.Seen.{seen};
ghost use Rattle.key_top.specs.Top.{top_in};
ghost use Rattle.key_top.specs.views.Seen.{intent_shape_of, seen_top};

use crate::top::{IntentShape, KeyTop, version_shape};
use intent_meta::{IntentRef, ItemRef};
use mvcc_cursor::MvccCursor;
use mvcc_key::{Looks, MAX_COUNT, MAX_WALL, Timestamp};
use stat_core::VersionShape;
use std::sync::ledger::Ledger;

/// The newest committed version of the key, which is known once the cursor has come to the key. The versions behind it are not
/// looked at. The cursor gives the key's versions anew after it.
pub fn newest_here<L: Ledger>(
    cursor: &mut MvccCursor<'_>,
    looks: &mut Looks<L>,
) -> Option<VersionShape>
    requires { IsValid (history_in (seen cursor.old).store) }
    ensures stands { seen cursor.new ≡ anew (seen cursor.old) }
    ensures newest { option_map version_shape_of result ≡ option_map shapes.version_shape (first (committed (seen cursor.old))) }
    ensures later { looks.old ≤ looks.new }
    ensures looks { (key : Key) → (seen cursor.old).at ≡ AtKey key → looks.new ≤ looks.old + one_seek (seen cursor.old).store + entries_of key (seen cursor.old).store }
{
    match cursor.version_at_or_below(last_time(), looks) {
        Some(version) => Some(shape_of_item(version)),
        None => None,
    }
}

/// The top of the key at which the cursor stands, a key of so many bytes, whose newest committed version [`newest_here`] has told. It
/// takes no looks.
pub fn top_here<'c>(
    cursor: &'c MvccCursor<'_>,
    key_len: u64,
    newest: Option<VersionShape>,
) -> KeyTop<'c>
    requires { option_map version_shape_of newest ≡ option_map shapes.version_shape (first (committed (seen cursor.now))) }
    ensures { (key : Key) → (seen cursor.now).at ≡ AtKey key → key_len ≡ length key → IsWellFormed (history_in (seen cursor.now).store) (seen cursor.now).store
        → seen_top result ≡ top_in (history_in (seen cursor.now).store) key }
{
    KeyTop {
        key_len,
        intent: intent_shape(cursor.meta()),
        newest,
        stack: cursor.stack_here(),
    }
}

/// What the statistics see of the intent whose record this is, if there is one.
pub fn intent_shape(head: Option<IntentRef<'_>>) -> Option<IntentShape>
    ensures { (i : Option Intent) → option_map seen_intent head.entry ≡ option_map intent_record i → option_map intent_shape_of result ≡ option_map shapes.intent_shape i }
{
    match head {
        Some(found) => Some(IntentShape {
            record_len: found.bytes().len() as u64,
            provisional: VersionShape {
                ts: found.ts(),
                value_len: u64::from(found.value_len()),
                deletion: found.deleted(),
            },
        }),
        None => None,
    }
}

/// The greatest timestamp.
fn last_time() -> Timestamp
    ensures { time_of result ≡ record { wall = max_wall; logical = max_logical } }
{
    Timestamp::new(MAX_WALL, MAX_COUNT).unwrap()
}

/// What the statistics see of a version that is lent as an item.
fn shape_of_item(item: ItemRef<'_>) -> VersionShape
    ensures { (v : Version) → seen_item item.entry ≡ lent_item (version_item v) → version_shape_of result ≡ shapes.version_shape v }
{
    let value = match item.value {
        Some(value) => value,
        None => &[],
    };
    version_shape(item.ts, value)
}
