//! What the versions of the key at which a cursor stands tell of its intent.
ghost use Rattle.std.specs.Prelude.{◌≡◌, ◌≤◌, ◌+◌, Some, is_some, true};
ghost use Rattle.mvcc_key.specs.History.{Intent, intent_of};
ghost use Rattle.mvcc_key.specs.Order.{Key};
ghost use Rattle.mvcc_key.specs.views.Seen.{time_of};
ghost use Rattle.merge_cursor.specs.Merged.{entries_below};
ghost use Rattle.lsm_store.specs.Shown.{points_in};
ghost use Rattle.mvcc_cursor.specs.KeyPoints.{record_name};
ghost use Rattle.mvcc_cursor.specs.Standing.{AtKey, after_one, anew, entries_of, one_seek, told};
ghost use Rattle.mvcc_cursor.specs.WellFormed.{IsWellFormed, history_in};
ghost use Rattle.mvcc_cursor.specs.views.Seen.{passed, seen};

use mvcc_cursor::MvccCursor;
use mvcc_key::{Looks, Timestamp};
use mvcc_value::read;
use std::sync::ledger::Ledger;

/// The local timestamp that the provisional version of the key's intent keeps, once the cursor has come to the key.
pub(crate) fn local_here<L: Ledger>(cursor: &mut MvccCursor<'_>, looks: &mut Looks<L>) -> Timestamp
    requires formed { IsWellFormed (history_in (seen cursor.old).store) (seen cursor.old).store }
    requires fresh { seen cursor.old ≡ anew (seen cursor.old) }
    requires there { is_some (told (seen cursor.old)).intent ≡ true }
    ensures stands { seen cursor.new ≡ after_one (seen cursor.old) }
    ensures local { (key : Key) (i : Intent) → (seen cursor.old).at ≡ AtKey key → intent_of key (history_in (seen cursor.old).store) ≡ Some i → time_of result ≡ i.local }
    ensures later { looks.old ≤ looks.new }
    ensures looks { (key : Key) → (seen cursor.old).at ≡ AtKey key → passed cursor.old ≡ entries_below (record_name key) (points_in (seen cursor.old).store)
        → looks.new ≤ looks.old + one_seek (seen cursor.old).store + entries_of key (seen cursor.old).store }
{
    let version = cursor.next_version(looks).unwrap();
    read(version.value, version.ts).local
}
