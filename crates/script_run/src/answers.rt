//! The answers of a script, gathered and written in large pieces.
ghost use Rattle.std.specs.Prelude.{◌≡◌, ◌≤◌, ◌<◌, vec_len, [], OnOk, OnErr, IfErr};
ghost use Rattle.std.specs.Io.KnownBytes.{Appends};
ghost use Rattle.io_edge.specs.Causes.{HasCause, Rose};
ghost use Rattle.io_edge.specs.Writing.{AppendsBeginning};
ghost use Rattle.script_run.specs.Output.{script_output};
ghost use Rattle.script_run.specs.views.Gathering.{Gathers, Moves};
ghost use Rattle.script_run.specs.views.Stopping.{StopsAt};

use crate::script::first_line;
use crate::session::Session;
use io_edge::{Failed, Sink, write_all};
use mvcc_key::OutOfMemory;
use script_line::Options;
use std::alloc::Global;

/// About how many bytes of answers are gathered before they are written.
const PIECE_SIZE: usize = 65_536;

/// Why not all answers are written.
#[derive(Clone, Copy, Debug, PartialEq, Eq)]
pub enum WriteStop {
    OutOfMemory,
    /// A write failed.
    WriteFault,
}

impl From<OutOfMemory> for WriteStop {
    ghost use Rattle.std.specs.Prelude.{◌≡◌};
    ghost use Rattle.script_run.specs.declared.answers.WriteStop.TheVariants as stop;

    ghost from_gives = { λ _ e. e ≡ stop.OutOfMemory };

    fn from(_: OutOfMemory) -> Self {
        WriteStop::OutOfMemory
    }
}

impl From<Failed> for WriteStop {
    ghost use Rattle.std.specs.Prelude.{◌≡◌};
    ghost use Rattle.script_run.specs.declared.answers.WriteStop.TheVariants as stop;

    ghost from_gives = { λ _ e. e ≡ stop.WriteFault };

    fn from(_: Failed) -> Self {
        WriteStop::WriteFault
    }
}

/// Carries out the lines of a script one after another, and writes their answers. Where memory is wanting for a line, the
/// answers of the lines before it are written all the same.
pub fn write_answers<K: Sink>(
    alloc: Global,
    options: Options,
    script: &[u8],
    sink: &mut K,
) -> Result<(), WriteStop>
    ensures ok { OnOk result (Appends (K.held sink.old) (K.held sink.new) (script_output options script.now)) }
    ensures err { OnErr result (AppendsBeginning (K.held sink.old) (K.held sink.new) (script_output options script.now)) }
    ensures later { K.faults sink.old ≤ K.faults sink.new }
    ensures sure { OnOk result (K.faults sink.new ≡ K.faults sink.old) }
    ensures cause { IfErr result (λ stop. stop ≡ WriteStop.WriteFault → Rose (K.faults sink.old) (K.faults sink.new)) }
{
    let mut text = Vec::new(alloc);
    match gather_answers(alloc, options, script, &mut text, sink) {
        Ok(()) => {
            write_all(sink, text.as_slice())?;
            Ok(())
        }
        Err(WriteStop::WriteFault) => Err(WriteStop::WriteFault),
        Err(WriteStop::OutOfMemory) => {
            write_all(sink, text.as_slice())?;
            Err(WriteStop::OutOfMemory)
        }
    }
}

/// Carries out the lines of a script, and leaves of their answers the last ones in the text, which begins empty.
fn gather_answers<K: Sink>(
    alloc: Global,
    options: Options,
    script: &[u8],
    text: &mut Vec<u8>,
    sink: &mut K,
) -> Result<(), WriteStop>
    requires { text.old.items ≡ [] }
    ensures ok { OnOk result (Gathers (K.held sink.old) (K.held sink.new) text.new.items (script_output options script.now)) }
    ensures err { IfErr result (λ stop. StopsAt stop (K.held sink.old) (K.held sink.new) text.new.items (script_output options script.now)) }
    ensures later { K.faults sink.old ≤ K.faults sink.new }
    ensures sure { OnOk result (K.faults sink.new ≡ K.faults sink.old) }
    ensures cause { IfErr result (λ stop. stop ≡ WriteStop.WriteFault → Rose (K.faults sink.old) (K.faults sink.new)) }
{
    let mut session = Session::new(alloc, options);
    let mut rest = script;
    let mut number: u64 = 0;
    while !rest.is_empty() {
        let (line, behind) = first_line(rest);
        number += 1;
        session.carry_out(options, number, line, text)?;
        write_if_large(text, sink)?;
        rest = behind;
    }
    Ok(())
}

/// Writes what is gathered, where it is about a piece.
fn write_if_large<K: Sink>(text: &mut Vec<u8>, sink: &mut K) -> Result<(), Failed>
    ensures ok { OnOk result (Moves (K.held sink.old) (K.held sink.new) text.old.items text.new.items) }
    ensures small { OnOk result (vec_len text.new < 65536) }
    ensures err { OnErr result (AppendsBeginning (K.held sink.old) (K.held sink.new) text.old.items) }
    ensures cause { HasCause (K.faults sink.old) (K.faults sink.new) result }
{
    if text.len() < PIECE_SIZE {
        return Ok(());
    }
    write_all(sink, text.as_slice())?;
    text.clear();
    Ok(())
}
