//! What a key shows, as it is lent: its intent and its items.
ghost use Rattle.std.specs.Prelude.{◌≡◌, ◌≤◌, ⊤, find};
ghost use Rattle.std.specs.Option.{option_map};
ghost use Rattle.std.specs.Borrow.{sem, follows_so};
ghost use mathlib.Core.Option.{none};
ghost use Rattle.mvcc_key.specs.Items.{newest, newest_at};
ghost use Rattle.mvcc_key.specs.views.Seen.{time_of};
ghost use Rattle.intent_meta.specs.KeyHistory.{KeyHistory, is_uncertain};
ghost use Rattle.intent_meta.specs.views.WholeKeys.{IsKeyHistory};
ghost use Rattle.intent_meta.specs.views.Lent.{Stays, lent_item, lent_intent, item_times, seen_item, seen_intent_at, seen_times};

use crate::IntentRef;
use mvcc_key::{Looks, Timestamp};
use std::sync::ledger::Ledger;

/// An item of a key where it lies: a version without its key, or a tombstone over the key.
#[derive(Clone, Copy, Debug)]
pub struct ItemRef<'a> {
    pub ts: Timestamp,
    /// The local timestamp that is kept, or [`Timestamp::NONE`] where that is the item's own.
    pub local: Timestamp,
    /// The encoded value, and `None` for a tombstone.
    pub value: Option<&'a [u8]>,
}

/// A key's intent where it lies: its record, and its provisional value.
#[derive(Clone, Copy, Debug)]
pub struct IntentAt<'a> {
    pub head: IntentRef<'a>,
    /// The plain provisional value, and nothing for a deletion.
    pub provisional: &'a [u8],
}

/// One key's intent, and its items from the newest on: its committed versions and the tombstones over it. No call changes what
/// is told of the key, nor the place.
pub trait KeyItems {
    /// What is told of the key.
    ghost shown: { Self → KeyHistory };

    /// The type of places.
    ghost Place: { Type 0 };

    /// Where it stands, a meaning that each implementation says.
    ghost place: { Self → Place };

    /// The key's intent. `None` exactly where it has none.
    fn intent(&self) -> Option<IntentAt<'_>>
        ensures { option_map seen_intent_at result ≡ option_map lent_intent (shown self.now).intent };

    /// The newest item. `None` exactly where there is none.
    fn newest(&self) -> Option<ItemRef<'_>>
        ensures { option_map seen_item result ≡ option_map lent_item (newest (shown self.now).items) };

    /// The newest item at or below `ts`. `None` exactly where there is none.
    fn at_or_below<L: Ledger>(&mut self, ts: Timestamp, looks: &mut Looks<L>) -> Option<ItemRef<'_>>
        ensures* stays { sem 𝓛 (follows_so Self.row Self.row self.entry.ghost_name none (λ _ _. ⊤) (Stays shown place self.old)) }
        ensures value { option_map seen_item result ≡ option_map lent_item (newest_at (time_of ts) (shown self.old).items) }
        ensures later { looks.old ≤ looks.new };

    /// The timestamp and the effective local timestamp of the newest item that is above `above`, at or below `limit`, and whose
    /// effective local timestamp is at or below `local_limit` where that is not [`Timestamp::NONE`]. `None` exactly where
    /// there is none.
    fn uncertain<L: Ledger>(
        &mut self,
        above: Timestamp,
        limit: Timestamp,
        local_limit: Timestamp,
        looks: &mut Looks<L>,
    ) -> Option<(Timestamp, Timestamp)>
        ensures stays { Stays shown place self.old self.new }
        ensures value { option_map seen_times result
            ≡ option_map item_times (find (is_uncertain (time_of above) (time_of limit) (time_of local_limit)) (shown self.old).items) }
        ensures later { looks.old ≤ looks.new };

    ghost whole: { (k : Self) → IsKeyHistory (shown k) };
}
