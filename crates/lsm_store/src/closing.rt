//! The memory table made a run.
ghost use Rattle.std.specs.Prelude.{◌≡◌, ◌+◌, ◌≤◌, ◌<◌, IfOk, vec_len, vec_capacity};
ghost use Rattle.lsm_store.specs.Shown.{empty_run};
ghost use Rattle.lsm_store.specs.views.Closing.{IsRunOfTable, flushed_runs};
ghost use Rattle.lsm_store.specs.views.Seen.{run_of_table};

use crate::counting::entries_len;
use mem_table::MemTable;
use mvcc_key::OutOfMemory;
use run_block::{Room, Run, collect};
use std::alloc::Global;

/// The run of what a memory table holds, where that is anything.
pub(crate) fn run_of(alloc: Global, table: &MemTable) -> Result<Option<Run>, OutOfMemory>
    ensures { IfOk result (λ run. IsRunOfTable (run_of_table table.now) run) }
{
    if table.is_empty() {
        return Ok(None);
    }
    let points = table.len();
    let bytes = entries_len(&mut table.cursor(), points);
    let room = Room { points, bytes };
    let run = collect(alloc, &mut table.cursor(), table.range_ops(), room)?;
    Ok(Some(run))
}

/// Puts the run of the memory table, where there is one, before the others, and empties the table. There is room for it.
pub(crate) fn close_table(
    table: &mut MemTable,
    runs: &mut Vec<Run>,
    flushed: Option<Run>,
    alloc: Global,
)
    requires run { IsRunOfTable (run_of_table table.old) flushed }
    requires room { vec_len runs.old < vec_capacity runs.old }
    ensures table { run_of_table table.new ≡ empty_run }
    ensures runs { runs.new.items ≡ flushed_runs (run_of_table table.old) runs.old.items }
    ensures len { vec_len runs.new ≤ vec_len runs.old + 1 }
    ensures capacity { vec_capacity runs.old ≤ vec_capacity runs.new }
{
    if let Some(run) = flushed {
        runs.insert(0, run).unwrap();
        *table = MemTable::new(alloc);
    }
}
