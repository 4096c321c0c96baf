//! Numbers in bytes, the highest byte first, as every format of the store has them.
ghost use Rattle.std.specs.Prelude.{◌≡◌, ◌≤◌, ◌+◌, ◌++◌, length, take, drop, vec_len, vec_capacity, OnOk};
ghost use Rattle.std.specs.Int.{w32, w64, to_be_bytes, from_be_bytes};

use crate::OutOfMemory;
use byteorder::{BigEndian, ByteOrder};

/// The number in the first four bytes.
pub fn read_u32(bytes: &[u8]) -> u32
    requires { 4 ≤ length bytes.now }
    ensures { result ≡ from_be_bytes w32 (take 4 bytes.now) }
{
    BigEndian::read_u32(bytes)
}

/// The number in the first eight bytes.
pub fn read_u64(bytes: &[u8]) -> u64
    requires { 8 ≤ length bytes.now }
    ensures { result ≡ from_be_bytes w64 (take 8 bytes.now) }
{
    BigEndian::read_u64(bytes)
}

/// Puts bytes at the end, where there is room.
pub fn put_bytes(out: &mut Vec<u8>, bytes: &[u8])
    requires { vec_len out.old + length bytes.now ≤ vec_capacity out.old }
    ensures items { out.new.items ≡ out.old.items ++ bytes.now }
    ensures len { vec_len out.new ≡ vec_len out.old + length bytes.now }
    ensures room { vec_capacity out.old ≤ vec_capacity out.new }
{
    out.extend_from_slice(bytes).unwrap();
}

/// Puts the number's four bytes at the end, where there is room.
pub fn put_u32(out: &mut Vec<u8>, number: u32)
    requires { vec_len out.old + 4 ≤ vec_capacity out.old }
    ensures items { out.new.items ≡ out.old.items ++ to_be_bytes w32 number }
    ensures len { vec_len out.new ≡ vec_len out.old + 4 }
    ensures room { vec_capacity out.old ≤ vec_capacity out.new }
{
    let mut bytes = [0; 4];
    BigEndian::write_u32(&mut bytes, number);
    put_bytes(out, &bytes);
}

/// Puts the number's eight bytes at the end, where there is room.
pub fn put_u64(out: &mut Vec<u8>, number: u64)
    requires { vec_len out.old + 8 ≤ vec_capacity out.old }
    ensures items { out.new.items ≡ out.old.items ++ to_be_bytes w64 number }
    ensures len { vec_len out.new ≡ vec_len out.old + 8 }
    ensures room { vec_capacity out.old ≤ vec_capacity out.new }
{
    let mut bytes = [0; 8];
    BigEndian::write_u64(&mut bytes, number);
    put_bytes(out, &bytes);
}

/// Puts the number's four bytes at the end, and takes the room for them.
pub fn append_u32(out: &mut Vec<u8>, number: u32) -> Result<(), OutOfMemory>
    ensures { OnOk result (out.new.items ≡ out.old.items ++ to_be_bytes w32 number) }
{
    let mut bytes = [0; 4];
    BigEndian::write_u32(&mut bytes, number);
    out.extend_from_slice(&bytes)?;
    Ok(())
}

/// Puts the number's eight bytes at the end, and takes the room for them.
pub fn append_u64(out: &mut Vec<u8>, number: u64) -> Result<(), OutOfMemory>
    ensures { OnOk result (out.new.items ≡ out.old.items ++ to_be_bytes w64 number) }
{
    let mut bytes = [0; 8];
    BigEndian::write_u64(&mut bytes, number);
    out.extend_from_slice(&bytes)?;
    Ok(())
}

/// Writes the number's eight bytes over those at a place.
pub fn set_u64(bytes: &mut [u8], place: usize, number: u64)
    requires { place + 8 ≤ length bytes.old }
    ensures { bytes.new ≡ take place bytes.old ++ to_be_bytes w64 number ++ drop (place + 8) bytes.old }
{
    let (_, rest) = bytes.split_at_mut(place);
    BigEndian::write_u64(rest, number);
}
