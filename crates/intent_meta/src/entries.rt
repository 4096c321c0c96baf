//! The entries that lie in a record's bytes.
ghost use Rattle.std.specs.Prelude.{◌≡◌, ℕ, List, IfOk, map, ◌&&◌, not, nat_le, OnOk, [], ◌∷◌, ◌++◌, if◌then◌else◌};
ghost use Rattle.std.specs.Option.{option_map};
ghost use Rattle.mvcc_key.specs.History as history;
ghost use Rattle.mvcc_key.specs.views.Seen.{range_of};
ghost use Rattle.intent_meta.specs.Entries.{AreBytesOf};
ghost use Rattle.intent_meta.specs.views.Seen.{is_ignored_by, seen_entry};

use crate::fields::{EntryRef, first_entry};
use crate::{Entries, Entry};
use mvcc_key::{Bytes, OutOfMemory, SeqRange};
use std::alloc::Global;

/// Whether a range contains the sequence.
fn is_ignored(sequence: u32, ignored: &[SeqRange]) -> bool
    ensures { result ≡ is_ignored_by ignored.now sequence }
{
    ignored
        .iter()
        .any(|range| range.first <= sequence && sequence <= range.last)
}

/// Whether a read at the sequence sees what was written at `own`.
pub(crate) fn is_seen(own: u32, sequence: u32, ignored: &[SeqRange]) -> bool
    ensures { result ≡ (nat_le own sequence && not (is_ignored_by ignored.now own)) }
{
    own <= sequence && !is_ignored(own, ignored)
}

impl EntryRef<'_> {
    /// The entry with bytes of its own.
    fn copy(&self, alloc: Global) -> Result<Entry, OutOfMemory>
        ensures { IfOk result (λ e. e ≡ seen_entry self.now) }
    {
        Ok(Entry {
            sequence: self.sequence,
            value: Bytes::copy(alloc, self.value)?,
        })
    }

    /// Puts a copy of the entry behind those that are left, unless its sequence is ignored.
    pub(crate) fn keep(
        &self,
        alloc: Global,
        ignored: &[SeqRange],
        left: &mut Entries,
    ) -> Result<(), OutOfMemory>
        ensures { OnOk result (left.new ≡ left.old
            ++ (if is_ignored_by ignored.now self.now.sequence then [] else seen_entry self.now ∷ [])) }
    {
        if !is_ignored(self.sequence, ignored) {
            left.push(self.copy(alloc)?)?;
        }
        Ok(())
    }
}

/// The value of the last entry that is at most the sequence and not ignored.
pub(crate) fn last_seen<'a>(
    bytes: &'a [u8],
    sequence: u32,
    ignored: &[SeqRange],
) -> Option<&'a [u8]>
    ensures { (es : List (history.Entry (List ℕ))) → AreBytesOf bytes.now es
        → option_map (λ v. v.now) result ≡ option_map (λ e. e.value) (history.entry_at sequence (map range_of ignored.now) es) }
{
    let mut found = None;
    let mut rest = bytes;
    while let Ok((entry, behind)) = first_entry(rest) {
        if is_seen(entry.sequence, sequence, ignored) {
            found = Some(entry.value);
        }
        rest = behind;
    }
    found
}

/// The entries that are not ignored.
pub(crate) fn kept(
    alloc: Global,
    bytes: &[u8],
    ignored: &[SeqRange],
) -> Result<Entries, OutOfMemory>
    ensures { IfOk result (λ left. (es : List (history.Entry (List ℕ))) → AreBytesOf bytes.now es
        → left ≡ history.without_ignored (map range_of ignored.now) es) }
{
    let mut left = Entries::new(alloc);
    let mut rest = bytes;
    while let Ok((entry, behind)) = first_entry(rest) {
        entry.keep(alloc, ignored, &mut left)?;
        rest = behind;
    }
    Ok(left)
}
