//! Entries, written one behind another.
ghost use Rattle.std.specs.Prelude.{◌≡◌, ◌≤◌, ◌<◌, ◌+◌, ◌^◌, ◌++◌, ◌∷◌, [], ℕ, List, length, vec_len, IfOk, OnOk};
ghost use Rattle.std.specs.Option.{ForSome, option_map};
ghost use Rattle.mvcc_key.specs.Encoded.{IsName};
ghost use Rattle.mvcc_key.specs.Limits.{max_stored_length};
ghost use Rattle.run_block.specs.RunFormat.{with_length, value_part, point_bytes, range_bytes, kind_byte};
ghost use Rattle.mvcc_key.specs.Batches.{IsStorableRange};
ghost use Rattle.mvcc_key.specs.views.SeenRange.{range_op_of};
ghost use Rattle.run_block.specs.views.Places.{piece_in, point_in, range_in, IsPlaced, IsRangePlaced};
ghost use Rattle.run_block.specs.views.Writing.{head_bytes, point_with, IsBehind};

use crate::piece::Piece;
use crate::place::{PointPlace, RangePlace};
use mvcc_key::numbers::{append_u32, append_u64, set_u64};
use mvcc_key::{Bytes, OutOfMemory, RangeOp, abbreviated_key};

/// How a run begins.
pub(crate) const MAGIC: &[u8; 8] = b"MVCCRUN1";

/// How many bytes stand before the first entry: the magic and the counts.
pub(crate) const HEAD_LEN: usize = 24;

/// Where the count of points stands, behind the magic.
const POINT_COUNT: usize = 8;

/// Puts the magic and the counts.
pub(crate) fn put_head(out: &mut Vec<u8>, points: usize, ranges: usize) -> Result<(), OutOfMemory>
    ensures { OnOk result (out.new.items ≡ out.old.items ++ head_bytes points ranges) }
{
    out.extend_from_slice(MAGIC)?;
    append_u64(out, points as u64)?;
    append_u64(out, ranges as u64)?;
    Ok(())
}

/// Writes another count of points into a head.
pub(crate) fn set_point_count(out: &mut Vec<u8>, points: usize)
    requires { 24 ≤ vec_len out.old }
    ensures { (before ranges : ℕ) (body : List ℕ) → out.old.items ≡ head_bytes before ranges ++ body → out.new.items ≡ head_bytes points ranges ++ body }
{
    set_u64(out.as_mut_slice(), POINT_COUNT, points as u64);
}

/// Puts bytes with their length before them, and tells where they lie.
fn put_counted(out: &mut Vec<u8>, bytes: &[u8]) -> Result<Piece, OutOfMemory>
    requires { length bytes.now < 2 ^ 32 }
    ensures items { OnOk result (out.new.items ≡ out.old.items ++ with_length bytes.now) }
    ensures piece { IfOk result (λ p. (more : List ℕ) → piece_in (out.new.items ++ more) p ≡ bytes.now) }
    ensures behind { IfOk result (λ p. length out.old.items ≤ p.start) }
    ensures end { IfOk result (λ p. p.end ≡ length out.new.items) }
{
    append_u32(out, bytes.len() as u32)?;
    let start = out.len();
    out.extend_from_slice(bytes)?;
    Ok(Piece {
        start,
        end: out.len(),
    })
}

/// What is set, if anything is.
pub(crate) fn lent(value: &Option<Bytes>) -> Option<&[u8]>
    ensures { option_map (λ v. v.now) result ≡ value.now }
{
    match value {
        Some(value) => Some(value.as_slice()),
        None => None,
    }
}

/// Puts the kind of an entry.
fn put_kind(out: &mut Vec<u8>, value: Option<&[u8]>) -> Result<(), OutOfMemory>
    ensures { OnOk result (out.new.items ≡ out.old.items ++ kind_byte (option_map (λ v. v.now) value.entry) ∷ []) }
{
    out.push(u8::from(value.is_some()))?;
    Ok(())
}

/// Puts the value of a point, where it is set.
fn put_value(out: &mut Vec<u8>, value: Option<&[u8]>) -> Result<Option<Piece>, OutOfMemory>
    requires { ForSome (option_map (λ v. v.now) value) (λ v. length v ≤ max_stored_length) }
    ensures items { OnOk result (out.new.items ≡ out.old.items ++ value_part (option_map (λ v. v.now) value.entry)) }
    ensures value { IfOk result (λ p. option_map (piece_in out.new.items) p ≡ option_map (λ v. v.now) value.entry) }
    ensures behind { IfOk result (λ o. ForSome o (λ p. length out.old.items ≤ p.start)) }
    ensures within { IfOk result (λ o. ForSome o (λ p. p.end ≤ length out.new.items)) }
{
    match value {
        Some(value) => {
            let piece = put_counted(out, value)?;
            Ok(Some(piece))
        }
        None => Ok(None),
    }
}

/// Puts a point, and tells where it lies.
pub(crate) fn put_point(
    out: &mut Vec<u8>,
    key: &[u8],
    value: Option<&[u8]>,
) -> Result<PointPlace, OutOfMemory>
    requires name { IsName key.now }
    requires short { length key.now < 2 ^ 32 }
    requires value { ForSome (option_map (λ v. v.now) value) (λ v. length v ≤ max_stored_length) }
    ensures items { OnOk result (out.new.items ≡ out.old.items ++ point_bytes (point_with key.now (option_map (λ v. v.now) value.entry))) }
    ensures placed { IfOk result (IsPlaced out.new.items) }
    ensures behind { IfOk result (IsBehind (length out.old.items)) }
    ensures point { IfOk result (λ p. point_in out.new.items p ≡ point_with key.now (option_map (λ v. v.now) value.entry)) }
{
    let abbreviated_key = abbreviated_key(key);
    put_kind(out, value)?;
    let key = put_counted(out, key)?;
    let value = put_value(out, value)?;
    Ok(PointPlace {
        key,
        value,
        abbreviated_key,
    })
}

/// Puts a range operation, and tells where it lies.
pub(crate) fn put_range(out: &mut Vec<u8>, op: &RangeOp) -> Result<RangePlace, OutOfMemory>
    requires { IsStorableRange op.now }
    ensures items { OnOk result (out.new.items ≡ out.old.items ++ range_bytes (range_op_of op.now)) }
    ensures placed { IfOk result (IsRangePlaced out.new.items) }
    ensures range { IfOk result (λ r. range_in out.new.items r ≡ range_op_of op.now) }
{
    put_kind(out, lent(&op.set))?;
    let start = put_counted(out, op.start.bytes())?;
    let end = put_counted(out, op.end.bytes())?;
    append_u64(out, op.ts.wall())?;
    append_u32(out, op.ts.logical())?;
    Ok(RangePlace {
        start,
        end,
        ts: op.ts,
        set: op.set.is_some(),
    })
}
