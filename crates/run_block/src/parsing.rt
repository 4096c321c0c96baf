//! From bytes to a run.
ghost use Rattle.std.specs.Prelude.{◌≡◌, ℕ, ◌<◌, [], length, nat_lt, true, false, Ok, None, IfOk, IfErr, OnOk, MatchResult};
ghost use Rattle.mvcc_key.specs.FileKind as format;
ghost use Rattle.run_block.specs.RunFormat as words;
ghost use Rattle.run_block.specs.Runs.{IsRun};
ghost use Rattle.run_block.specs.views.Seen.{fault_of, IsFaultOf};
ghost use Rattle.run_block.specs.views.Places.{IsIndex, points_in, ranges_in, run_in};
ghost use Rattle.run_block.specs.views.Reading.{rest_of, Reads, ArePointsAt, AreRangesAt};

use crate::index::Index;
use crate::reader::Reader;
use crate::write::MAGIC;
use crate::{FileKind, ParseFault, Run, RunFault};
use mvcc_key::OutOfMemory;
use std::alloc::Global;

/// The run that these bytes are, or their first fault, by reading from left to right. A field that is not whole is
/// [`FileKind::Short`] at its first byte. The kind of an entry is judged when it is read, a key when it is whole, first by
/// [`FileKind::Key`] and then by [`FileKind::Order`]; the length of a value or a bound is judged before the value or the bound
/// is read, and a range operation otherwise when it is whole. The bytes are copied once, and the memory taken is in proportion
/// to them, whatever number of entries they claim.
pub fn parse(alloc: Global, bytes: &[u8]) -> Result<Run, ParseFault>
    ensures run { IfOk result (λ run. words.run_of bytes.now ≡ Ok run) }
    ensures spelled { IfOk result (λ run. words.run_bytes run ≡ bytes.now) }
    ensures whole { IfOk result IsRun }
    ensures fault { IfErr result (λ e. IsFaultOf e (words.run_of bytes.now)) }
{
    let index = read_index(alloc, bytes)?;
    let Ok(bytes) = Vec::from_slice(alloc, bytes) else {
        return Err(ParseFault::OutOfMemory);
    };
    Ok(Run::new(bytes, index))
}

/// Where the entries of a run lie.
fn read_index(alloc: Global, bytes: &[u8]) -> Result<Index, ParseFault>
    ensures run { IfOk result (λ index. words.run_of bytes.now ≡ Ok (run_in bytes.now index)) }
    ensures index { IfOk result (IsIndex bytes.now) }
    ensures fault { IfErr result (λ e. IsFaultOf e (words.run_of bytes.now)) }
{
    let mut reader = Reader::new(bytes);
    let (points, ranges) = reader.head()?;
    let mut index = Index::with_room(alloc, 0, 0)?;
    read_points(&mut reader, points, &mut index)?;
    read_ranges(&mut reader, ranges, &mut index)?;
    reader.end()?;
    Ok(index)
}

/// Takes so many points up.
fn read_points(reader: &mut Reader<'_>, count: u64, index: &mut Index) -> Result<(), ParseFault>
    requires index { IsIndex reader.old.bytes.now index.old }
    requires points { index.old.points.items ≡ [] }
    requires ranges { index.old.ranges.items ≡ [] }
    ensures same { reader.new.bytes.now ≡ reader.old.bytes.now }
    ensures points { OnOk result (ArePointsAt count (rest_of reader.old) (rest_of reader.new) (points_in reader.old.bytes.now index.new.points.items)) }
    ensures index { OnOk result (IsIndex reader.old.bytes.now index.new) }
    ensures ranges { OnOk result (index.new.ranges.items ≡ []) }
    ensures fault { IfErr result (λ e. IsFaultOf e (words.points_at count None (rest_of reader.old))) }
{
    let mut before = None;
    'points: for _ in 0..count {
        let point = reader.point(before)?;
        index.add_point(reader.bytes, point)?;
        before = Some(point.key);
    }
    Ok(())
}

/// Takes so many range operations up.
fn read_ranges(reader: &mut Reader<'_>, count: u64, index: &mut Index) -> Result<(), ParseFault>
    requires index { IsIndex reader.old.bytes.now index.old }
    requires ranges { index.old.ranges.items ≡ [] }
    ensures same { reader.new.bytes.now ≡ reader.old.bytes.now }
    ensures ranges { OnOk result (AreRangesAt count (rest_of reader.old) (rest_of reader.new) (ranges_in reader.old.bytes.now index.new.ranges.items)) }
    ensures index { OnOk result (IsIndex reader.old.bytes.now index.new) }
    ensures points { OnOk result (index.new.points.items ≡ index.old.points.items) }
    ensures fault { IfErr result (λ e. IsFaultOf e (words.ranges_at count (rest_of reader.old))) }
{
    'operations: for _ in 0..count {
        let range = reader.range()?;
        index.add_range(range)?;
    }
    Ok(())
}

impl Reader<'_> {
    /// The magic, and how many points and range operations there are.
    fn head(&mut self) -> Result<(u64, u64), RunFault>
        ensures reading { Reads (λ n. n) result (words.head_at (rest_of self.old)) (rest_of self.new) }
        ensures same { self.new.bytes.now ≡ self.old.bytes.now }
    {
        let bad_magic = self.fault(FileKind::Magic);
        let magic = self.field(8)?;
        if magic.slice(self.bytes) != MAGIC.as_slice() {
            return Err(bad_magic);
        }
        let points = self.number64()?;
        let ranges = self.number64()?;
        Ok((points, ranges))
    }

    /// Nothing is left.
    fn end(&self) -> Result<(), RunFault>
        ensures { MatchResult result
            (λ _. nat_lt 0 (length (rest_of self.now).bytes) ≡ false)
            (λ e. (nat_lt 0 (length (rest_of self.now).bytes) ≡ true) × (fault_of e ≡ words.fault_at format.FileKind.Trailing self.now.place)) }
    {
        if self.place < self.bytes.len() {
            return Err(self.fault(FileKind::Trailing));
        }
        Ok(())
    }
}
