//! A key whose items are held in a list.
ghost use Rattle.std.specs.Prelude.{◌≡◌, [], ◌++◌, ◌∷◌, List, find, IfSome, OnOk, OnErr, true, false, Ok};
ghost use Rattle.std.specs.Option.{option_map};
ghost use Rattle.mvcc_key.specs.Items as history;
ghost use Rattle.mvcc_key.specs.views.Seen.{time_of};
ghost use Rattle.intent_meta.specs.KeyHistory.{is_uncertain};
ghost use Rattle.intent_meta.specs.views.WholeKeys.{IsKeyHistory, IsWholeIntent};
ghost use Rattle.intent_meta.specs.views.KeyHistoryProps.{IsKeyHistory-prop};
ghost use Rattle.intent_meta.specs.views.Lent.{lent_item, item_times, seen_item, seen_times};
ghost use Rattle.intent_meta.specs.views.Listed as views;

use crate::{IntentAt, ItemRef, KeyItems, ListedIntent, ListedItem};
use mvcc_key::{Elements, Key, Looks, OutOfMemory, Timestamp};
use std::alloc::Global;
use std::sync::ledger::Ledger;

/// A key's intent and its items, held in a list: for callers that have them at hand, as tests do. Its place never changes.
#[derive(Debug, Drop)]
pub struct ListedItems {
    key: Key,
    intent: Option<ListedIntent>,
    items: Elements<ListedItem>,
    ghost whole: { IsKeyHistory (views.listed key intent items) } by { IsKeyHistory-prop (views.listed key intent items) },
}

impl ListedItems {
    ghost use Rattle.intent_meta.specs.views.SeenListed.{history_of};

    /// A key with this intent and no items. This takes no memory.
    pub fn new(alloc: Global, key: Key, intent: Option<ListedIntent>) -> ListedItems
        ensures { history_of result ≡ views.listed key intent [] }
    {
        intent_is_whole(&intent);
        ListedItems {
            key,
            intent,
            items: Elements::new(alloc),
        }
    }

    /// Puts an item that is older than all others at the end, and answers whether it is. Otherwise, and where memory is wanting,
    /// the items are as they were.
    pub fn push(&mut self, item: ListedItem) -> Result<bool, OutOfMemory>
        ensures ok { OnOk result (history_of self.new ≡ record (history_of self.old) { items = views.with_older (history_of self.old).items item }) }
        ensures older { (put : _) → result ≡ Ok put → put ≡ views.is_older (history_of self.old).items item }
        ensures err { OnErr result (history_of self.new ≡ history_of self.old) }
    {
        if !is_older(self.items.as_slice(), &item) {
            return Ok(false);
        }
        self.items.push(item)?;
        Ok(true)
    }
}

/// The intent is whole at each key.
fn intent_is_whole(intent: &Option<ListedIntent>)
    ensures { (key : List _) → IfSome (option_map (views.intent_at key) intent.now) (IsWholeIntent key) }
{
    if let Some(intent) = intent {
        intent.is_whole();
    }
}

/// The item is older than all others.
fn is_older(items: &[ListedItem], item: &ListedItem) -> bool
    ensures { result ≡ views.is_older items.now item.now }
{
    match items.last() {
        Some(last) => item.ts().compare(last.ts()).is_lt(),
        None => true,
    }
}

/// The newest item at or below `ts`.
fn newest_at(items: &[ListedItem], ts: Timestamp) -> Option<ItemRef<'_>>
    ensures { option_map seen_item result ≡ option_map lent_item (history.newest_at (time_of ts) items.now) }
{
    for item in items {
        if item.is_up_to(ts) {
            return Some(item.lent());
        }
    }
    None
}

/// The timestamps of the newest uncertain item.
fn first_uncertain(
    items: &[ListedItem],
    above: Timestamp,
    limit: Timestamp,
    local_limit: Timestamp,
) -> Option<(Timestamp, Timestamp)>
    ensures { option_map seen_times result ≡ option_map item_times (find (is_uncertain (time_of above) (time_of limit) (time_of local_limit)) items.now) }
{
    for item in items {
        if item.is_uncertain(above, limit, local_limit) {
            return Some((item.ts(), item.effective_local()));
        }
    }
    None
}

impl KeyItems for ListedItems {
    ghost use Rattle.intent_meta.specs.views.SeenListed.{history_of};

    ghost shown = { history_of };

    ghost Place = { Unit {0} };

    ghost place = { λ _. tt };

    ghost whole = { λ l. l.whole };

    fn intent(&self) -> Option<IntentAt<'_>> {
        match &self.intent {
            Some(intent) => Some(intent.lent()),
            None => None,
        }
    }

    fn newest(&self) -> Option<ItemRef<'_>> {
        match self.items.as_slice().first() {
            Some(item) => Some(item.lent()),
            None => None,
        }
    }

    fn at_or_below<L: Ledger>(
        &mut self,
        ts: Timestamp,
        _looks: &mut Looks<L>,
    ) -> Option<ItemRef<'_>> {
        newest_at(self.items.as_slice(), ts)
    }

    fn uncertain<L: Ledger>(
        &mut self,
        above: Timestamp,
        limit: Timestamp,
        local_limit: Timestamp,
        _looks: &mut Looks<L>,
    ) -> Option<(Timestamp, Timestamp)> {
        first_uncertain(self.items.as_slice(), above, limit, local_limit)
    }
}
