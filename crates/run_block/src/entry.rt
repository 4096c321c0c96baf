//! The entries of a run, read from left to right.
ghost use Rattle.std.specs.Prelude.{◌≡◌, ◌≤◌, length, IfOk, IsTrue, Ok, Err, true, false, ◌&&◌, not, MatchOption};
ghost use Rattle.std.specs.Option.{ForSome, option_map};
ghost use Rattle.mvcc_key.specs.KeyFormat.{name_of};
ghost use Rattle.mvcc_key.specs.Encoded.{IsName, name_in};
ghost use Rattle.mvcc_key.specs.Order.{is_in_range, is_no_time};
ghost use Rattle.mvcc_key.specs.views.Seen.{time_of};
ghost use Rattle.run_block.specs.RunFormat as words;
ghost use Rattle.run_block.specs.views.Seen.{fault_of};
ghost use Rattle.run_block.specs.views.Places.{piece_in, point_in, range_in, IsPlaced, IsRangePlaced};
ghost use Rattle.run_block.specs.views.Reading.{rest_of, Reads, kind_number, is_stored, IsKeyPiece, name_before};

use crate::piece::Piece;
use crate::place::{PointPlace, RangePlace};
use crate::reader::Reader;
use crate::{FileKind, RunFault};
use mvcc_key::{
    MAX_BOUND_LEN, MAX_KEY_LEN, MAX_STORED_LEN, Timestamp, abbreviated_key, cmp_encoded, decode_key,
};

/// The bytes are an encoded key that may be stored: one of 1 to 4,096 bytes.
fn is_stored_key(bytes: &[u8]) -> bool
    ensures answer { result ≡ is_stored (name_of bytes.now) }
    ensures name { IsTrue result → IsName bytes.now }
{
    match decode_key(bytes) {
        Ok(name) => !(name.key.is_empty() || name.key.len() > MAX_KEY_LEN),
        Err(_) => false,
    }
}

/// The timestamp of a range operation, which is not none. `None` exactly where these numbers are not those of one.
fn range_time(wall: u64, logical: u32) -> Option<Timestamp>
    ensures { MatchOption result
        ((not (is_no_time (record { wall = wall; logical = logical })) && is_in_range (record { wall = wall; logical = logical })) ≡ false)
        (λ t. (time_of t ≡ record { wall = wall; logical = logical }) × ((not (is_no_time (time_of t)) && is_in_range (time_of t)) ≡ true)) }
{
    let ts = Timestamp::new(wall, logical)?;
    if ts == Timestamp::NONE {
        return None;
    }
    Some(ts)
}

impl Reader<'_> {
    /// An encoded key with its length before it, of a key that may be stored.
    fn name(&mut self, fault: RunFault) -> Result<Piece, RunFault>
        ensures reading { Reads (λ p. name_in (piece_in self.old.bytes.now p)) result (words.name_at (fault_of fault) (rest_of self.old)) (rest_of self.new) }
        ensures same { self.new.bytes.now ≡ self.old.bytes.now }
        ensures key { IfOk result (IsKeyPiece self.old.bytes.now) }
    {
        let len = self.number32()?;
        let name = self.field(len as usize)?;
        if !is_stored_key(name.slice(self.bytes)) {
            return Err(fault);
        }
        Ok(name)
    }

    /// Whether a key is above the one before it, where there is one.
    fn is_next(&self, before: Option<Piece>, key: Piece) -> bool
        requires before { ForSome before (IsKeyPiece self.now.bytes.now) }
        requires key { IsKeyPiece self.now.bytes.now key }
        ensures { result ≡ words.is_next (name_before self.now.bytes.now before) (name_in (piece_in self.now.bytes.now key)) }
    {
        match before {
            Some(before) => cmp_encoded(before.slice(self.bytes), key.slice(self.bytes)).is_lt(),
            None => true,
        }
    }

    /// The value of a point, where it is set.
    fn value(&mut self, set: bool, fault: RunFault) -> Result<Option<Piece>, RunFault>
        ensures reading { Reads (option_map (piece_in self.old.bytes.now)) result (words.value_at (kind_number set) (fault_of fault) (rest_of self.old)) (rest_of self.new) }
        ensures same { self.new.bytes.now ≡ self.old.bytes.now }
        ensures within { IfOk result (λ v. ForSome v (λ p. p.end ≤ length self.old.bytes.now)) }
    {
        if !set {
            return Ok(None);
        }
        let value = self.counted(MAX_STORED_LEN, fault)?;
        Ok(Some(value))
    }

    /// A point, behind the one before it. Its key is judged when it is whole, and the length of its value before that is read.
    pub(crate) fn point(&mut self, before: Option<Piece>) -> Result<PointPlace, RunFault>
        requires { ForSome before (IsKeyPiece self.old.bytes.now) }
        ensures reading { Reads (λ p. record { place = self.old.place; item = point_in self.old.bytes.now p }) result
            (words.point_at (name_before self.old.bytes.now before) (rest_of self.old)) (rest_of self.new) }
        ensures same { self.new.bytes.now ≡ self.old.bytes.now }
        ensures placed { IfOk result (IsPlaced self.old.bytes.now) }
    {
        let bad_key = self.fault(FileKind::Key);
        let bad_order = self.fault(FileKind::Order);
        let bad_value = self.fault(FileKind::Value);
        let set = self.kind(bad_key)?;
        let key = self.name(bad_key)?;
        if !self.is_next(before, key) {
            return Err(bad_order);
        }
        let value = self.value(set, bad_value)?;
        let abbreviated_key = abbreviated_key(key.slice(self.bytes));
        Ok(PointPlace {
            key,
            value,
            abbreviated_key,
        })
    }

    /// A range operation, which is judged when it is whole, but for its kind and the lengths of its bounds.
    pub(crate) fn range(&mut self) -> Result<RangePlace, RunFault>
        ensures reading { Reads (λ r. record { place = self.old.place; item = range_in self.old.bytes.now r }) result
            (words.range_at (rest_of self.old)) (rest_of self.new) }
        ensures same { self.new.bytes.now ≡ self.old.bytes.now }
        ensures placed { IfOk result (IsRangePlaced self.old.bytes.now) }
    {
        let fault = self.fault(FileKind::RangeOrder);
        let set = self.kind(fault)?;
        let start = self.counted(MAX_BOUND_LEN, fault)?;
        let end = self.counted(MAX_BOUND_LEN, fault)?;
        let wall = self.number64()?;
        let logical = self.number32()?;
        let is_span = start.slice(self.bytes).cmp(end.slice(self.bytes)).is_lt();
        match range_time(wall, logical) {
            Some(ts) if is_span => Ok(RangePlace {
                start,
                end,
                ts,
                set,
            }),
            _ => Err(fault),
        }
    }
}
