//! The intent that a key has.
ghost use Rattle.std.specs.Prelude.{◌≡◌, IfOk};
ghost use Rattle.std.specs.Option.{option_map};
ghost use Rattle.mvcc_cursor.specs.views.Seen.{told_by};
ghost use Rattle.mvcc_scan.specs.views.Kept.{met_as, met_of};

use intent_meta::{IntentSeen, KeyItems};
use mvcc_cursor::MvccCursor;
use mvcc_key::{Key, OutOfMemory, Timestamp};
use std::alloc::Global;
use txn_state::TxnId;

/// An intent that was met: its transaction's id, and its timestamp.
#[derive(Clone, Copy)]
pub(crate) struct Met {
    pub(crate) id: TxnId,
    pub(crate) ts: Timestamp,
}

impl Met {
    /// The same with its key.
    pub(crate) fn at(self, alloc: Global, key: &[u8]) -> Result<IntentSeen, OutOfMemory>
        ensures { IfOk result (λ seen. seen ≡ met_as key.now self) }
    {
        Ok(IntentSeen {
            key: Key::copy(alloc, key)?,
            id: self.id.into(),
            ts: self.ts,
        })
    }
}

/// The intent of the key at which the cursor stands.
pub(crate) fn intent_met(cursor: &MvccCursor<'_>) -> Option<Met>
    ensures { option_map met_of result ≡ option_map (λ i. (i.id, i.ts)) (told_by cursor.now).intent }
{
    let intent = cursor.intent()?;
    Some(Met {
        id: TxnId::from(intent.head.id()),
        ts: intent.head.ts(),
    })
}
