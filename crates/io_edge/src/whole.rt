//! A piece handed to a sink in as many writes as it takes.
ghost use Rattle.std.specs.Prelude.{◌≡◌, is_some, OnOk, OnErr};
ghost use Rattle.std.specs.Io.KnownBytes.{Appends};
ghost use Rattle.io_edge.specs.Causes.{HasCause};
ghost use Rattle.io_edge.specs.Writing.{AppendsBeginning};

use crate::traits::{Failed, Sink};

/// Writes the whole piece, in as many writes as the sink needs for it. An empty piece makes no write.
///
/// The first write that fails ends the call. The sink has then taken a beginning of the piece, which may be empty.
pub fn write_all<K: Sink>(sink: &mut K, piece: &[u8]) -> Result<(), Failed>
    ensures ok { OnOk result (Appends (K.held sink.old) (K.held sink.new) piece.now) }
    ensures err { OnErr result (AppendsBeginning (K.held sink.old) (K.held sink.new) piece.now) }
    ensures told { is_some (K.held sink.new) ≡ is_some (K.held sink.old) }
    ensures cause { HasCause (K.faults sink.old) (K.faults sink.new) result }
{
    let mut rest = piece;
    while !rest.is_empty() {
        let count = sink.write(rest)?;
        rest = rest.split_at(count).1;
    }
    Ok(())
}
