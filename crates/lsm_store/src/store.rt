//! The store of parts.
ghost use Rattle.std.specs.Prelude.{◌≡◌, ◌≤◌, [], ◌∷◌, map, All, false, not, IsOk, IfOk, OnOk, OnErr, if◌then◌else◌};
ghost use Rattle.mvcc_key.specs.views.SeenPoint.{point_of, points_of};
ghost use Rattle.mvcc_key.specs.views.SeenRange.{range_ops_of};
ghost use Rattle.mvcc_key.specs.Batches.{AreEntries, IsBatch, IsStorable};
ghost use Rattle.mvcc_key.specs.SameFragments.{are_same_fragments};
ghost use Rattle.range_key.specs.RangeOps.{fragments_after};
ghost use Rattle.lsm_store.specs.Parts.{after_batch, flushed, compacted, layout};
ghost use Rattle.lsm_store.specs.FileParts.{with_run};
ghost use Rattle.lsm_store.specs.Shown.{first_runs, points_in, shown, with_batch, fragments_in, part_of, parts_of, stage_of};
ghost use Rattle.lsm_store.specs.views.Changing.{changes_points};
ghost use Rattle.lsm_store.specs.views.Seen.{seen_shape};

use crate::changing::{changes_at, retain_changes};
use crate::closing::{close_table, run_of};
use crate::counting::shape_of;
use crate::ranges::{stage_ops, stage_run};
use crate::uniting::unite;
use crate::{PartCursor, PartShape, StoreCursor};
use mem_table::MemTable;
use merge_cursor::{MergeCursor, VisibleCursor};
use mvcc_key::{Batch, Cursor, Elements, OutOfMemory, PointOp, RangeOp};
use range_key::{FragmentsRef, StagedFragments};
use run_block::Run;
use std::alloc::Global;
use std::marker::Model;

/// Stored pairs in parts: a memory table, which takes up what is written, and under it sorted runs, from the newest to the
/// oldest (Pebble's memtable and sstables). Of each name the newest part counts, and the range operations of a part come after
/// those of all older parts. The fragments that all of them give are kept beside the parts. Contracts see the store as the runs
/// that its parts are, the memory table first.
///
/// ```text
///                        memory table      runs, the newest first       shown
/// apply(b=1, c=2)        b=1 c=2                                        b=1 c=2
/// flush                                    [b=1 c=2]                    b=1 c=2
/// apply(a=3, b cleared)  a=3 b cleared     [b=1 c=2]                    a=3 c=2
/// apply(c=2)             a=3 b cleared     [b=1 c=2]                    a=3 c=2, as it was
/// flush                                    [a=3 b cleared] [b=1 c=2]    a=3 c=2
/// compact(1)                               [a=3 c=2]                    a=3 c=2
/// ```
#[derive(Drop)]
pub struct Store {
    alloc: Global,
    table: MemTable,
    /// From the newest to the oldest.
    runs: Vec<Run>,
    /// What the range operations of all parts give.
    fragments: StagedFragments,
}

impl Model for Store {
    ghost use Rattle.std.specs.Prelude.{◌≡◌, List, ◌∷◌};
    ghost use Rattle.range_key.specs.views.Stages.{settled};
    ghost use Rattle.run_block.specs.RunFormat.{Run};
    ghost use Rattle.lsm_store.specs.Shown.{fragments_in};
    ghost use Rattle.lsm_store.specs.views.Seen.{run_of_table};

    ghost Value = { List Run };

    ghost view = { λ s. run_of_table s.table ∷ s.runs.items };

    ghost invariant = { λ s. s.fragments ≡ settled (fragments_in (run_of_table s.table ∷ s.runs.items)) };
}

impl Store {
    ghost use Rattle.merge_cursor.specs.views.SeenVisible.{lists_behind, StandsOnParts};

    /// A store that holds nothing. This takes no memory.
    pub fn new(alloc: Global) -> Store
        ensures { result ≡ first_runs }
    {
        Store {
            alloc,
            table: MemTable::new(alloc),
            runs: Vec::new(alloc),
            fragments: StagedFragments::new(alloc),
        }
    }

    /// Takes a batch up, whole or, where memory is wanting, not at all. Each name whose pair differs then has its new state in the
    /// memory table, and point operations that leave what is seen as it is are dropped. The range operations are all taken up where
    /// together they change the fragments, and else are all dropped. A batch without range operations does no work on fragments.
    pub fn apply(&mut self, batch: Batch) -> Result<(), OutOfMemory>
        requires { IsBatch batch }
        ensures shown { OnOk result (shown self.new ≡ with_batch (points_of batch.points) (shown self.old)) }
        ensures fragments { OnOk result (fragments_in self.new ≡ fragments_after (fragments_in self.old) (range_ops_of batch.ranges)) }
        ensures parts { OnOk result (parts_of self.new ≡ after_batch (stage_of self.old) (stage_of self.new) (parts_of self.old)) }
        ensures err { OnErr result (self.new ≡ self.old) }
    {
        if batch.ranges.is_empty() {
            self.apply_points(batch.points)
        } else {
            self.apply_both(batch)
        }
    }

    /// The same for a batch of point operations alone.
    fn apply_points(&mut self, points: Elements<PointOp>) -> Result<(), OutOfMemory>
        requires { AreEntries points }
        ensures shown { OnOk result (shown self.new ≡ with_batch (points_of points) (shown self.old)) }
        ensures fragments { fragments_in self.new ≡ fragments_in self.old }
        ensures parts { OnOk result (parts_of self.new ≡ after_batch (stage_of self.old) (stage_of self.new) (parts_of self.old)) }
        ensures err { OnErr result (self.new ≡ self.old) }
    {
        let mut ops = points.into_vec();
        if ops.len() == 1 {
            return self.apply_one(ops.swap_remove(0));
        }
        self.apply_both(Batch {
            points: Elements::from_vec(ops),
            ranges: Elements::new(self.alloc),
        })
    }

    /// The same for one operation, whose name is sought in the memory table once.
    fn apply_one(&mut self, op: PointOp) -> Result<(), OutOfMemory>
        requires { IsStorable op }
        ensures idle { changes_points (shown self.old) (point_of op) ≡ false → IsOk result }
        ensures shown { OnOk result (shown self.new ≡ with_batch (points_of (op ∷ [])) (shown self.old)) }
        ensures fragments { fragments_in self.new ≡ fragments_in self.old }
        ensures parts { OnOk result (parts_of self.new ≡ after_batch (stage_of self.old) (stage_of self.new) (parts_of self.old)) }
        ensures err { OnErr result (self.new ≡ self.old) }
    {
        let place = self.table.find(op.key.as_slice());
        if changes_at(&self.table, place, &self.runs, &op) {
            self.table.put_at(place, op)
        } else {
            Ok(())
        }
    }

    /// The same for a batch of any operations. What it makes of the fragments is staged before the first change, and put in place
    /// after the last; where it has no range operation there is nothing to stage.
    fn apply_both(&mut self, batch: Batch) -> Result<(), OutOfMemory>
        requires { IsBatch batch }
        ensures shown { OnOk result (shown self.new ≡ with_batch (points_of batch.points) (shown self.old)) }
        ensures fragments { OnOk result (fragments_in self.new ≡ fragments_after (fragments_in self.old) (range_ops_of batch.ranges)) }
        ensures parts { OnOk result (parts_of self.new ≡ after_batch (stage_of self.old) (stage_of self.new) (parts_of self.old)) }
        ensures err { OnErr result (self.new ≡ self.old) }
    {
        stage_ops(&mut self.fragments, batch.ranges.as_slice())?;
        let ranges = changing_ops(&self.fragments, batch.ranges, self.alloc);
        let mut ops = batch.points.into_vec();
        retain_changes(&mut ops, &self.table, &self.runs);
        let points = Elements::from_vec(ops);
        match self.table.apply(Batch { points, ranges }) {
            Ok(()) => {
                self.fragments.commit();
                Ok(())
            }
            Err(OutOfMemory) => {
                self.fragments.discard();
                Err(OutOfMemory)
            }
        }
    }

    /// Makes a memory table that is not empty the newest run, under an empty table. An empty one is left.
    pub fn flush(&mut self) -> Result<(), OutOfMemory>
        ensures shown { shown self.new ≡ shown self.old }
        ensures fragments { fragments_in self.new ≡ fragments_in self.old }
        ensures parts { OnOk result (parts_of self.new ≡ flushed (parts_of self.old)) }
        ensures err { OnErr result (self.new ≡ self.old) }
    {
        if let Some(run) = run_of(self.alloc, &self.table)? {
            self.runs.insert(0, run)?;
            self.table = MemTable::new(self.alloc);
        }
        Ok(())
    }

    /// Flushes, and then makes the run the newest one, both or, where memory is wanting, neither. The run has an entry.
    pub fn add_run(&mut self, run: Run) -> Result<(), OutOfMemory>
        requires { (run.points ≡ []) × (run.ranges ≡ []) → ⊥ }
        ensures shown { OnOk result (shown self.new ≡ with_batch run.points (shown self.old)) }
        ensures fragments { OnOk result (fragments_in self.new ≡ fragments_after (fragments_in self.old) run.ranges) }
        ensures parts { OnOk result (parts_of self.new ≡ with_run (part_of run (fragments_in self.new)) (parts_of self.old)) }
        ensures err { OnErr result (self.new ≡ self.old) }
    {
        let flushed = run_of(self.alloc, &self.table)?;
        self.runs.reserve(2)?;
        stage_run(&mut self.fragments, &run)?;
        close_table(&mut self.table, &mut self.runs, flushed, self.alloc);
        self.runs.insert(0, run).unwrap();
        self.fragments.commit();
        Ok(())
    }

    /// Unites the oldest runs into one, so that at most `keep` are left. Cleared names go. In place of their range operations the
    /// run has the closing fragments of the newest of them, as operations that set. A run without an entry goes whole.
    pub fn compact(&mut self, keep: u64) -> Result<(), OutOfMemory>
        requires { 1 ≤ keep }
        ensures shown { shown self.new ≡ shown self.old }
        ensures fragments { fragments_in self.new ≡ fragments_in self.old }
        ensures parts { OnOk result (parts_of self.new ≡ compacted keep (parts_of self.old)) }
        ensures err { OnErr result (self.new ≡ self.old) }
    {
        let keep = keep as usize;
        if self.runs.len() <= keep {
            return Ok(());
        }
        let first = keep - 1;
        let run = unite(self.alloc, self.runs.split_at(first).1)?;
        if run.is_empty() {
            self.runs.truncate(first);
        } else {
            self.runs[first] = run;
            self.runs.truncate(keep);
        }
        Ok(())
    }

    /// The fragments of all range operations. This takes no memory.
    pub fn fragments(&self) -> FragmentsRef<'_>
        ensures { result ≡ fragments_in self.now }
    {
        self.fragments.lend()
    }

    /// A cursor over the visible pairs, before the first.
    pub fn cursor<'a>(&'a self) -> Result<StoreCursor<'a>, OutOfMemory>
        ensures points { IfOk result (λ c. ⟦<StoreCursor<'a> as Cursor>⟧.points c ≡ shown self.now) }
        ensures place { IfOk result (λ c. ⟦<StoreCursor<'a> as Cursor>⟧.place c ≡ 0) }
        ensures lists { IfOk result (λ c. lists_behind ⟦<PartCursor<'a> as Cursor>⟧.points c ≡ points_in self.now) }
        ensures parts { IfOk result (λ c. StandsOnParts ⟦<PartCursor<'a> as Cursor>⟧.is_part c) }
    {
        Ok(VisibleCursor::over(MergeCursor::over(self.cursors()?)))
    }

    /// The cursors of the parts.
    fn cursors<'a>(&'a self) -> Result<Vec<PartCursor<'a>>, OutOfMemory>
        ensures points { IfOk result (λ v. map ⟦<PartCursor<'a> as Cursor>⟧.points v.items ≡ points_in self.now) }
        ensures places { IfOk result (λ v. All (λ c. ⟦<PartCursor<'a> as Cursor>⟧.place c ≡ 0) v.items) }
    {
        let mut cursors = Vec::with_capacity(self.alloc, 1 + self.runs.len())?;
        cursors.push(PartCursor::Memory(self.table.cursor()))?;
        for run in &self.runs {
            cursors.push(PartCursor::Run(run.cursor()))?;
        }
        Ok(cursors)
    }

    /// How many names each part holds and clears, and whether it has range operations: the memory table first, then the runs from
    /// the newest to the oldest.
    pub fn layout(&self) -> Result<Vec<PartShape>, OutOfMemory>
        ensures { IfOk result (λ shapes. map seen_shape shapes.items ≡ layout (parts_of self.now)) }
    {
        let mut shapes = Vec::with_capacity(self.alloc, 1 + self.runs.len())?;
        let ranges = !self.table.range_ops().is_empty();
        shapes.push(shape_of(&mut self.table.cursor(), self.table.len(), ranges))?;
        for run in &self.runs {
            shapes.push(shape_of(&mut run.cursor(), run.len(), run.range_len() > 0))?;
        }
        Ok(shapes)
    }
}

/// The operations where what is staged differs from the fragments, and else none.
fn changing_ops(
    fragments: &StagedFragments,
    ops: Elements<RangeOp>,
    alloc: Global,
) -> Elements<RangeOp>
    ensures { result ≡ (if not (are_same_fragments fragments.now.fragments fragments.now.next) then ops else []) }
{
    if fragments.is_changed() {
        ops
    } else {
        Elements::new(alloc)
    }
}
