//! A script as bytes: reading it, and cutting it into lines.
ghost use Rattle.std.specs.Prelude.{◌≡◌, ◌≤◌, ◌<◌, ◌∷◌, ◌==◌, ◌+◌, IfOk, IfSome, IfErr, OnErr, length, position, vec_len};
ghost use Rattle.io_edge.specs.Causes.{Rose};
ghost use Rattle.script_run.specs.Output.{lines, whole_part, without_return};
ghost use Rattle.script_run.specs.Promise.{ReadsScript, TakesWithin, script_max};

use io_edge::{Failed, Source};
use memchr::memchr;
use std::alloc::{AllocError, Global};

/// The longest script, in bytes.
pub const SCRIPT_MAX: usize = 1_048_576;

/// The most bytes that one read asks for.
const READ_SIZE: usize = 65_536;

/// Why a script is not read.
#[derive(Clone, Copy, Debug, PartialEq, Eq)]
pub enum ReadStop {
    OutOfMemory,
    /// A read failed.
    ReadFault,
}

impl From<AllocError> for ReadStop {
    ghost use Rattle.std.specs.Prelude.{◌≡◌};
    ghost use Rattle.script_run.specs.declared.script.ReadStop.TheVariants as stop;

    ghost from_gives = { λ _ e. e ≡ stop.OutOfMemory };

    fn from(_: AllocError) -> Self {
        ReadStop::OutOfMemory
    }
}

/// Reads the script to its end, or until more than [`SCRIPT_MAX`] bytes were given.
pub fn read_script<S: Source>(alloc: Global, source: &mut S) -> Result<Vec<u8>, ReadStop>
    ensures ok { IfOk result (λ script. ReadsScript (S.left source.old) (S.left source.new) script.items) }
    ensures err { OnErr result (TakesWithin (S.left source.old) (S.left source.new)) }
    ensures later { S.faults source.old ≤ S.faults source.new }
    ensures sure { IfOk result (λ _. S.faults source.new ≡ S.faults source.old) }
    ensures cause { IfErr result (λ stop. stop ≡ ReadStop.ReadFault → Rose (S.faults source.old) (S.faults source.new)) }
{
    let mut script = Vec::new(alloc);
    let mut buffer = zeros(alloc, READ_SIZE)?;
    while script.len() <= SCRIPT_MAX {
        let count = match source.read(&mut buffer) {
            Ok(count) => count,
            Err(Failed) => return Err(ReadStop::ReadFault),
        };
        if count == 0 {
            return Ok(script);
        }
        script.extend_from_slice(buffer.as_slice().split_at(count).0)?;
    }
    Ok(script)
}

/// A buffer of this many bytes.
fn zeros(alloc: Global, size: usize) -> Result<Vec<u8>, AllocError>
    ensures { IfOk result (λ buffer. vec_len buffer ≡ size) }
{
    vec![in alloc; 0u8; size]
}

/// The first line of a script that is not empty, without its newline, and what stands behind that.
pub fn first_line(script: &[u8]) -> (&[u8], &[u8])
    requires { 0 < length script.now }
    ensures lines { lines script.now ≡ result.0.now ∷ lines result.1.now }
    ensures shorter { length result.1.now < length script.now }
{
    match place_of_newline(script) {
        Some(place) => (script.split_at(place).0, script.split_at(place + 1).1),
        None => (script, script.split_at(script.len()).1),
    }
}

fn place_of_newline(script: &[u8]) -> Option<usize>
    ensures value { result ≡ position (λ byte. byte == 0x0a) script.now }
    ensures within { IfSome result (λ place. place < length script.now) }
{
    memchr(b'\n', script)
}

/// The line without a carriage return at its end.
pub fn without_return(line: &[u8]) -> &[u8]
    ensures { result.now ≡ without_return line.now }
{
    match line.split_last() {
        Some((last, before)) => { if *last == b'\r' { before } else { line } }
        None => line,
    }
}

/// The script up to and with its last newline.
pub fn whole_part(script: &[u8]) -> &[u8]
    ensures { result.now ≡ whole_part script.now }
{
    let mut whole = script;
    while let Some((last, before)) = whole.split_last() {
        if *last == b'\n' {
            break;
        }
        whole = before;
    }
    whole
}
