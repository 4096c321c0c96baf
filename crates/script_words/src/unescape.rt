//! Texts with escapes.
ghost use Rattle.std.specs.Prelude.{◌≡◌, ◌<◌, ◌+◌, ◌*◌, ◌&&◌, ◌∷◌, IfSome, MatchOption, None, length, option_map};
ghost use Rattle.std.specs.Char.{digit_value};
ghost use Rattle.script_words.specs.Forms.{is_hex_digit, is_printed, text, where_it};
ghost use Rattle.script_words.specs.views.Reading.{Gives};

use crate::fault::LineFault;
use std::alloc::Global;

/// The bytes that a text writes, where it is one.
pub fn unescape(alloc: Global, bytes: &[u8]) -> Result<Vec<u8>, LineFault>
    ensures { Gives (λ t. t.items) result (text bytes.now) }
{
    let mut text = Vec::new(alloc);
    let mut rest = bytes;
    while !rest.is_empty() {
        let (byte, behind) = first_byte(rest).ok_or(LineFault::BadLine)?;
        text.push(byte)?;
        rest = behind;
    }
    Ok(text)
}

/// The first byte that a text of some bytes writes, and what stands behind it.
fn first_byte(bytes: &[u8]) -> Option<(u8, &[u8])>
    requires { 0 < length bytes.now }
    ensures first { MatchOption result (text bytes.now ≡ None) (λ r. text bytes.now ≡ option_map (λ bs. r.0 ∷ bs) (text r.1.now)) }
    ensures shorter { IfSome result (λ r. length r.1.now < length bytes.now) }
{
    let (first, behind) = bytes.split_first()?;
    if *first == b'\\' {
        escaped(behind)
    } else if is_printed(*first) {
        Some((*first, behind))
    } else {
        None
    }
}

/// The byte that a backslash and what stands behind it write, and what stands behind that.
fn escaped(bytes: &[u8]) -> Option<(u8, &[u8])>
    ensures first { MatchOption result (text (0x5c ∷ bytes.now) ≡ None) (λ r. text (0x5c ∷ bytes.now) ≡ option_map (λ bs. r.0 ∷ bs) (text r.1.now)) }
    ensures shorter { IfSome result (λ r. length r.1.now < length bytes.now) }
{
    let (kind, behind) = bytes.split_first()?;
    match *kind {
        b'\\' => Some((b'\\', behind)),
        b'x' => digits(behind),
        _ => None,
    }
}

/// The byte that two digits write, and what stands behind them.
fn digits(bytes: &[u8]) -> Option<(u8, &[u8])>
    ensures first { MatchOption result (text (0x5c ∷ 0x78 ∷ bytes.now) ≡ None) (λ r. text (0x5c ∷ 0x78 ∷ bytes.now) ≡ option_map (λ bs. r.0 ∷ bs) (text r.1.now)) }
    ensures shorter { IfSome result (λ r. length r.1.now < length bytes.now) }
{
    let (high, behind) = bytes.split_first()?;
    let (low, behind) = behind.split_first()?;
    let byte = byte_of(*high, *low)?;
    Some((byte, behind))
}

/// Whether the byte is printed.
pub fn is_printed(byte: u8) -> bool
    ensures { result ≡ is_printed byte }
{
    (0x21..=0x7e).contains(&byte)
}

/// The byte that two digits of either case write.
fn byte_of(high: u8, low: u8) -> Option<u8>
    ensures { result ≡ where_it (is_hex_digit high && is_hex_digit low) (digit_value high * 16 + digit_value low) }
{
    let high = char::from(high).to_digit(16)?;
    let low = char::from(low).to_digit(16)?;
    Some((high * 16 + low) as u8)
}
