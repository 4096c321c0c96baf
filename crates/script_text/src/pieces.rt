//! Pieces of text. Where memory is wanting the bytes stay as they were, or have a beginning of the piece behind them.
ghost use Rattle.std.specs.Prelude.{◌≡◌, ◌++◌, ◌+◌, ◌%◌, ◌^◌, ◌<◌, decimal, OnOk, OnErr};
ghost use Rattle.std.specs.Fmt.{signed_decimal};
ghost use Rattle.std.specs.Char.{digit_char};
ghost use Rattle.std.specs.List.{list_all};
ghost use Rattle.script_text.specs.Text.{escaped, escaped_byte, is_unescaped, nine_digits};
ghost use Rattle.script_text.specs.views.Appending.{Extends};

use itoa::Buffer;
use mvcc_key::OutOfMemory;

/// Bytes as they are.
pub fn append(text: &[u8], into: &mut Vec<u8>) -> Result<(), OutOfMemory>
    ensures ok { OnOk result (into.new.items ≡ into.old.items ++ text.now) }
    ensures err { OnErr result (into.new.items ≡ into.old.items) }
{
    into.extend_from_slice(text)?;
    Ok(())
}

/// A number in decimal.
pub fn append_number(number: u64, into: &mut Vec<u8>) -> Result<(), OutOfMemory>
    ensures ok { OnOk result (into.new.items ≡ into.old.items ++ decimal number) }
    ensures err { OnErr result (into.new.items ≡ into.old.items) }
{
    let mut buffer = Buffer::new();
    append(buffer.format(number).as_bytes(), into)
}

/// A signed number in decimal.
pub fn append_signed(number: i64, into: &mut Vec<u8>) -> Result<(), OutOfMemory>
    ensures ok { OnOk result (into.new.items ≡ into.old.items ++ signed_decimal number) }
    ensures err { OnErr result (into.new.items ≡ into.old.items) }
{
    let mut buffer = Buffer::new();
    append(buffer.format(number).as_bytes(), into)
}

/// Words with a number behind them.
pub fn append_numbered(words: &[u8], number: u64, into: &mut Vec<u8>) -> Result<(), OutOfMemory>
    ensures ok { OnOk result (into.new.items ≡ into.old.items ++ (words.now ++ decimal number)) }
    ensures err { OnErr result (Extends into.old.items into.new.items) }
{
    append(words, into)?;
    append_number(number, into)?;
    Ok(())
}

/// Words with a signed number behind them.
pub fn append_integer(words: &[u8], number: i64, into: &mut Vec<u8>) -> Result<(), OutOfMemory>
    ensures ok { OnOk result (into.new.items ≡ into.old.items ++ (words.now ++ signed_decimal number)) }
    ensures err { OnErr result (Extends into.old.items into.new.items) }
{
    append(words, into)?;
    append_signed(number, into)?;
    Ok(())
}

/// Bytes, each for itself or escaped.
#[tactic(auto, using(crate::proofs::TextLaws::unescaped_text))]
pub fn append_escaped(bytes: &[u8], into: &mut Vec<u8>) -> Result<(), OutOfMemory>
    ensures ok { OnOk result (into.new.items ≡ into.old.items ++ escaped bytes.now) }
    ensures err { OnErr result (Extends into.old.items into.new.items) }
{
    if are_unescaped(bytes) {
        append(bytes, into)?;
        return Ok(());
    }
    for byte in bytes {
        append_byte(*byte, into)?;
    }
    Ok(())
}

#[tactic(auto, unfolding(crate::specs::Text::escaped_byte))]
fn append_byte(byte: u8, into: &mut Vec<u8>) -> Result<(), OutOfMemory>
    ensures ok { OnOk result (into.new.items ≡ into.old.items ++ escaped_byte byte) }
    ensures err { OnErr result (into.new.items ≡ into.old.items) }
{
    if is_unescaped(byte) {
        append(&[byte], into)
    } else if byte == b'\\' {
        append(b"\\\\", into)
    } else {
        append(
            &[b'\\', b'x', hex_byte(byte / 16), hex_byte(byte % 16)],
            into,
        )
    }
}

/// Whether each of the bytes is printed as it is.
fn are_unescaped(bytes: &[u8]) -> bool
    ensures { result ≡ list_all is_unescaped bytes.now }
{
    bytes.iter().all(|byte| is_unescaped(*byte))
}

/// Whether the byte is printed as it is.
fn is_unescaped(byte: u8) -> bool
    ensures { result ≡ is_unescaped byte }
{
    (0x21..=0x7e).contains(&byte) && byte != b'"' && byte != b'\\'
}

/// The last nine decimal digits.
pub fn append_nine_digits(n: u32, into: &mut Vec<u8>) -> Result<(), OutOfMemory>
    requires { n < 10 ^ 9 }
    ensures ok { OnOk result (into.new.items ≡ into.old.items ++ nine_digits n) }
    ensures err { OnErr result (into.new.items ≡ into.old.items) }
{
    let digits = [
        digit(n / 100_000_000),
        digit(n / 10_000_000),
        digit(n / 1_000_000),
        digit(n / 100_000),
        digit(n / 10_000),
        digit(n / 1_000),
        digit(n / 100),
        digit(n / 10),
        digit(n),
    ];
    append(&digits, into)
}

/// The last decimal digit.
fn digit(n: u32) -> u8
    ensures { result ≡ 48 + n % 10 }
{
    b'0' + (n % 10) as u8
}

/// The lower-case byte that writes a digit.
fn hex_byte(digit: u8) -> u8
    requires { digit < 16 }
    ensures { result ≡ digit_char digit }
{
    if digit < 10 {
        b'0' + digit
    } else {
        b'a' + (digit - 10)
    }
}
