//! Keys, values, times and ids as they are shown.
ghost use Rattle.std.specs.Prelude.{◌≡◌, ◌++◌, OnOk, OnErr};
ghost use Rattle.mvcc_key.specs.views.Seen.{time_of};
ghost use Rattle.mvcc_value.specs.views.Seen.{owned_body};
ghost use Rattle.script_text.specs.Text.{id, quoted, time, value};
ghost use Rattle.script_text.specs.views.Appending.{Extends};

use crate::pieces::{append, append_escaped, append_nine_digits, append_number, append_signed};
use mvcc_key::{OutOfMemory, Timestamp};
use mvcc_value::OwnedValue;
use uuid::Uuid;

/// A key in quotation marks.
#[tactic(auto, unfolding(crate::specs::Text::quoted))]
pub fn append_quoted(key: &[u8], into: &mut Vec<u8>) -> Result<(), OutOfMemory>
    ensures ok { OnOk result (into.new.items ≡ into.old.items ++ quoted key.now) }
    ensures err { OnErr result (Extends into.old.items into.new.items) }
{
    append(b"\"", into)?;
    append_escaped(key, into)?;
    append(b"\"", into)?;
    Ok(())
}

/// A value by its kind.
#[tactic(auto, unfolding(crate::specs::Text::value))]
pub fn append_value(stored: &OwnedValue, into: &mut Vec<u8>) -> Result<(), OutOfMemory>
    ensures ok { OnOk result (into.new.items ≡ into.old.items ++ value (owned_body stored.now)) }
    ensures err { OnErr result (Extends into.old.items into.new.items) }
{
    match stored {
        OwnedValue::Bytes(bytes) => {
            append(b"/BYTES/", into)?;
            append_escaped(bytes.bytes(), into)?;
            Ok(())
        }
        OwnedValue::Int(number) => {
            append(b"/INT/", into)?;
            append_signed(*number, into)?;
            Ok(())
        }
    }
}

/// Seconds, nine digits of nanoseconds, and the counter.
#[tactic(auto, unfolding(crate::specs::Text::time))]
pub fn append_time(ts: Timestamp, into: &mut Vec<u8>) -> Result<(), OutOfMemory>
    ensures ok { OnOk result (into.new.items ≡ into.old.items ++ time (time_of ts)) }
    ensures err { OnErr result (Extends into.old.items into.new.items) }
{
    append_number(ts.wall() / 1_000_000_000, into)?;
    append(b".", into)?;
    append_nine_digits((ts.wall() % 1_000_000_000) as u32, into)?;
    append(b",", into)?;
    append_number(u64::from(ts.logical()), into)?;
    Ok(())
}

/// Words with a timestamp behind them.
pub fn append_timed(words: &[u8], ts: Timestamp, into: &mut Vec<u8>) -> Result<(), OutOfMemory>
    ensures ok { OnOk result (into.new.items ≡ into.old.items ++ (words.now ++ time (time_of ts))) }
    ensures err { OnErr result (Extends into.old.items into.new.items) }
{
    append(words, into)?;
    append_time(ts, into)?;
    Ok(())
}

/// An id in its form with hyphens.
#[tactic(auto, unfolding(crate::specs::Text::id))]
pub fn append_id(uuid: Uuid, into: &mut Vec<u8>) -> Result<(), OutOfMemory>
    ensures ok { OnOk result (into.new.items ≡ into.old.items ++ id uuid) }
    ensures err { OnErr result (into.new.items ≡ into.old.items) }
{
    let mut buffer = Uuid::encode_buffer();
    append(uuid.hyphenated().encode_lower(&mut buffer).as_bytes(), into)
}
