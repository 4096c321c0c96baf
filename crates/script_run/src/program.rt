//! The top call: a script is read and carried out, and its answers are written.
ghost use Rattle.std.specs.Prelude.{◌≡◌, ◌≤◌, ◌⊎◌, IsNone, IsSome, IfSome, length, map, string_bytes};
ghost use Rattle.io_edge.specs.Causes.{Rose};
ghost use Rattle.script_line.specs.CommandLine.{invocation};
ghost use Rattle.script_run.specs.Promise.{TakesWithin, WritesAll, WritesBeginning, WritesWholeLines, script_max};
ghost use Rattle.script_run.specs.Output.{output, script_output};
ghost use Rattle.script_run.specs.views.Ending.{AnswersAs, EndsAs, number_of, status_after};

use crate::answers::{WriteStop, write_answers};
use crate::script::{ReadStop, SCRIPT_MAX, read_script, whole_part};
use io_edge::{Sink, Source};
use mvcc_key::OutOfMemory;
use script_line::{Options, read_command_line};
use std::alloc::Global;
use std::thread::Threads;

/// How a run ends.
#[derive(Clone, Copy, Debug, PartialEq, Eq)]
pub enum Status {
    /// The script was read to its end, and all answers were written.
    Done,
    /// The words of the command line have no reading. Nothing was read or written.
    Usage,
    /// A read failed: the source's count of faults rose.
    ReadFault,
    /// A write failed: the sink's count of faults rose.
    WriteFault,
    /// The source gave more than 1,048,576 bytes. The answers of the whole lines among the first that many were written.
    ScriptTooLong,
    /// Memory was wanting.
    OutOfMemory,
}

impl Status {
    /// The exit status of the program: 0, 2, 3, 4, 5 and 6, in the order of the variants.
    pub fn number(self) -> u8
        ensures { result ≡ number_of self }
    {
        match self {
            Status::Done => 0,
            Status::Usage => 2,
            Status::ReadFault => 3,
            Status::WriteFault => 4,
            Status::ScriptTooLong => 5,
            Status::OutOfMemory => 6,
        }
    }
}

/// Carries out what the words of the command line say, which are those behind the program's name: `run` reads a script from
/// the source and writes the answers of its lines to the sink. After `ReadFault`, `WriteFault` and `OutOfMemory` a beginning
/// of the answers is written.
pub fn run<R: Threads + Sync, S: Source, K: Sink>(
    _rt: &R,
    alloc: Global,
    words: &[String],
    source: &mut S,
    sink: &mut K,
) -> Status
    // The transcript theorem: the program writes exactly the text that a small history defines.
    ensures done { result ≡ Status.Done
        → WritesAll (output (map string_bytes words.now)) (S.left source.old) (S.left source.new) (K.held sink.old) (K.held sink.new) }
    ensures too_long { result ≡ Status.ScriptTooLong
        → WritesWholeLines (output (map string_bytes words.now)) (S.left source.old) (S.left source.new) (K.held sink.old) (K.held sink.new) }
    ensures part { (result ≡ Status.ReadFault) ⊎ ((result ≡ Status.WriteFault) ⊎ (result ≡ Status.OutOfMemory))
        → WritesBeginning (output (map string_bytes words.now)) (S.left source.old) (S.left source.new) (K.held sink.old) (K.held sink.new) }

    // Words without a reading.
    ensures usage { IsNone (invocation (map string_bytes words.now)) → (result ≡ Status.Usage) ⊎ (result ≡ Status.OutOfMemory) }
    ensures usage_only { result ≡ Status.Usage → IsNone (invocation (map string_bytes words.now)) }
    ensures untouched { IsNone (invocation (map string_bytes words.now)) → (source.new ≡ source.old) × (sink.new ≡ sink.old) }

    // The causes of faults, and how much is read.
    ensures read { result ≡ Status.ReadFault → Rose (S.faults source.old) (S.faults source.new) }
    ensures write { result ≡ Status.WriteFault → Rose (K.faults sink.old) (K.faults sink.new) }
    ensures source_counts { S.faults source.old ≤ S.faults source.new }
    ensures sink_counts { K.faults sink.old ≤ K.faults sink.new }
    ensures sure { result ≡ Status.Done → (S.faults source.new ≡ S.faults source.old) × (K.faults sink.new ≡ K.faults sink.old) }
    ensures within { TakesWithin (S.left source.old) (S.left source.new) }

    // Where nothing fails and the script is short enough, all of it is answered.
    ensures complete { IfSome (S.left source.old) (λ script. IsSome (invocation (map string_bytes words.now)) → length script ≤ script_max
        → ¬ Rose (S.faults source.old) (S.faults source.new) → ¬ Rose (K.faults sink.old) (K.faults sink.new)
        → (result ≡ Status.Done) ⊎ (result ≡ Status.OutOfMemory)) }
{
    match read_command_line(alloc, words) {
        Ok(Some(options)) => run_script(alloc, options, source, sink),
        Ok(None) => Status::Usage,
        Err(OutOfMemory) => Status::OutOfMemory,
    }
}

/// Carries out a script.
fn run_script<S: Source, K: Sink>(
    alloc: Global,
    options: Options,
    source: &mut S,
    sink: &mut K,
) -> Status
    ensures ends { EndsAs result (script_output options) (S.left source.old) (S.left source.new) (K.held sink.old) (K.held sink.new) }
    ensures within { TakesWithin (S.left source.old) (S.left source.new) }
    ensures read { result ≡ Status.ReadFault → Rose (S.faults source.old) (S.faults source.new) }
    ensures write { result ≡ Status.WriteFault → Rose (K.faults sink.old) (K.faults sink.new) }
    ensures source_counts { S.faults source.old ≤ S.faults source.new }
    ensures sink_counts { K.faults sink.old ≤ K.faults sink.new }
    ensures sure { result ≡ Status.Done → (S.faults source.new ≡ S.faults source.old) × (K.faults sink.new ≡ K.faults sink.old) }
{
    match read_script(alloc, source) {
        Ok(script) => answer_script(alloc, options, script.as_slice(), sink),
        Err(ReadStop::ReadFault) => Status::ReadFault,
        Err(ReadStop::OutOfMemory) => Status::OutOfMemory,
    }
}

/// Answers a script, or the whole lines of its first bytes where it is too long.
fn answer_script<K: Sink>(alloc: Global, options: Options, script: &[u8], sink: &mut K) -> Status
    ensures answered { AnswersAs result (script_output options) script.now (K.held sink.old) (K.held sink.new) }
    ensures write { result ≡ Status.WriteFault → Rose (K.faults sink.old) (K.faults sink.new) }
    ensures counts { K.faults sink.old ≤ K.faults sink.new }
    ensures sure { result ≡ Status.Done → K.faults sink.new ≡ K.faults sink.old }
{
    if script.len() > SCRIPT_MAX {
        let whole = whole_part(script.split_at(SCRIPT_MAX).0);
        status_after(
            write_answers(alloc, options, whole, sink),
            Status::ScriptTooLong,
        )
    } else {
        status_after(write_answers(alloc, options, script, sink), Status::Done)
    }
}

/// The status of a run whose answers were written so, and that else ends in this one.
fn status_after(written: Result<(), WriteStop>, otherwise: Status) -> Status
    ensures { result ≡ status_after written otherwise }
{
    match written {
        Ok(()) => otherwise,
        Err(WriteStop::WriteFault) => Status::WriteFault,
        Err(WriteStop::OutOfMemory) => Status::OutOfMemory,
    }
}
