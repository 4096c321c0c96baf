//! How the bytes of a value are laid out, numbers from their highest byte on.
//!
//! | value | bytes |
//! |---|---|
//! | a deletion | none |
//! | the bytes `abc` | `00000000 03 616263`: checksum, tag, data |
//! | the number 100 | `00000000 01 c801`: 200 in groups of 7 bits |
//! | the bytes `de`, written at 2 s | `0000000c 7f 0000000077359400 00000000`, and then `00000000 03 6465` |
//! | a deletion, written at 2 s | `0000000c 7f 0000000077359400 00000000` |
ghost use Rattle.std.specs.Prelude.{◌≡◌, ◌&&◌, not};
ghost use Rattle.mvcc_key.specs.Order.{is_before, is_no_time};
ghost use Rattle.mvcc_key.specs.views.Seen.{time_of};
ghost use Rattle.mvcc_value.specs.Encoding as words;

use mvcc_key::Timestamp;

/// The tag of a number.
pub(crate) const INT_TAG: u8 = 0x01;

/// The tag of bytes.
pub(crate) const BYTES_TAG: u8 = 0x03;

/// The checksum bytes and the tag.
pub(crate) const PLAIN_LEN: usize = 5;

/// The checksum bytes of a plain value.
pub(crate) const CHECKSUM: [u8; 4] = [0; 4];

/// How a header begins: four bytes, and the mark where a plain value has its tag.
pub(crate) const HEADER_START: [u8; 5] = [0, 0, 0, 0x0c, HEADER_MARK];

/// The mark of a header.
pub(crate) const HEADER_MARK: u8 = 0x7f;

/// Where the wall time of a header begins.
pub(crate) const HEADER_WALL: usize = 5;

/// Where the logical counter of a header begins.
pub(crate) const HEADER_LOGICAL: usize = 13;

/// All of a header: its beginning, the wall time and the logical counter.
pub(crate) const HEADER_LEN: usize = 17;

/// A value of a version at `ts` keeps the local timestamp: it is one, and below `ts`.
pub(crate) fn is_kept(local: Timestamp, ts: Timestamp) -> bool
    ensures { result ≡ (not (is_no_time (time_of local)) && is_before (time_of local) (time_of ts)) }
{
    local != Timestamp::NONE && local.compare(ts).is_lt()
}

/// Whether these bytes, which are a value's, are those of a deletion: none, or a header alone.
pub fn is_deletion_value(bytes: &[u8]) -> bool
    ensures { result ≡ words.is_deletion_value bytes.now }
{
    bytes.is_empty() || (bytes.len() == HEADER_LEN && bytes[4] == HEADER_MARK)
}

/// Whether the encoded bytes of a deletion, or of another value, may be so many.
pub fn is_value_len(deletion: bool, len: u32) -> bool
    ensures { result ≡ words.is_value_length deletion len }
{
    let len = len as usize;
    if deletion {
        len == 0 || len == HEADER_LEN
    } else {
        len >= PLAIN_LEN
    }
}
