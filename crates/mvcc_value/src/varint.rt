//! Numbers in groups of 7 bits, and signed numbers as unsigned ones (Protocol Buffers' `varint` and zigzag form).
ghost use Rattle.std.specs.Prelude.{◌≡◌, ◌+◌, ◌≤◌, ◌++◌, false, true, length, vec_len, vec_capacity, MatchOption, nat_lt, ◌&&◌, ◌||◌};
ghost use Rattle.mvcc_key.specs.Lists.{is_empty};
ghost use Rattle.mvcc_value.specs.Encoding.{from_zigzag, is_varint, number_of, varint, zigzag};

/// The signed number as an unsigned one, small where the number is near 0.
pub(crate) fn to_unsigned(number: i64) -> u64
    ensures { result ≡ zigzag number }
{
    if number >= 0 {
        2 * (number as u64)
    } else {
        2 * (-(number + 1) as u64) + 1
    }
}

/// The signed number that an unsigned one stands for.
pub(crate) fn to_signed(number: u64) -> i64
    ensures { result ≡ from_zigzag number }
{
    let half = (number / 2) as i64;
    if number % 2 == 0 { half } else { -1 - half }
}

/// How many groups the number has.
pub(crate) fn varint_len(mut number: u64) -> u64
    ensures value { result ≡ length (varint number) }
    ensures few { result ≤ 10 }
{
    let mut len = 1;
    while number >= 128 {
        number /= 128;
        len += 1;
    }
    len
}

/// Appends the number's groups, the lowest first.
pub(crate) fn put_varint(out: &mut Vec<u8>, mut number: u64)
    requires { vec_len out.old + length (varint number) ≤ vec_capacity out.old }
    ensures { out.new.items ≡ out.old.items ++ varint number }
{
    while number >= 128 {
        out.push(128 + (number % 128) as u8).unwrap();
        number /= 128;
    }
    out.push(number as u8).unwrap();
}

/// The last group of a number is low, and 0 only where it stands alone.
fn is_last_group(group: u8, front: &[u8]) -> bool
    ensures { result ≡ (nat_lt group 128 && (nat_lt 0 group || is_empty front.now)) }
{
    group < 128 && (group > 0 || front.is_empty())
}

/// The number whose groups these bytes are. `None` where they are those of no number, which includes all spellings but the
/// shortest and all numbers of more than 64 bits.
pub(crate) fn read_varint(bytes: &[u8]) -> Option<u64>
    ensures { MatchOption result (is_varint bytes.now ≡ false) (λ n. (is_varint bytes.now ≡ true) × (number_of bytes.now ≡ n)) }
{
    let (last, mut front) = bytes.split_last()?;
    if !is_last_group(*last, front) {
        return None;
    }
    let mut number = u64::from(*last);
    while let Some((group, rest)) = front.split_last() {
        if *group < 128 || number >= 1 << 57 {
            return None;
        }
        number = number * 128 + u64::from(*group % 128);
        front = rest;
    }
    Some(number)
}
