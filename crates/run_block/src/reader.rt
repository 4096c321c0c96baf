//! Fields, read from left to right.
ghost use Rattle.std.specs.Prelude.{◌≡◌, ◌≤◌, ◌+◌, ◌^◌, length, IfOk, Bool};
ghost use Rattle.std.specs.Int.{w32, w64};
ghost use Rattle.run_block.specs.RunFormat as words;
ghost use Rattle.run_block.specs.views.Seen.{fault_of};

use crate::piece::Piece;
use crate::{FileKind, RunFault};
use mvcc_key::numbers::{read_u32, read_u64};

/// Bytes, and the place in them that is read next.
#[derive(Drop)]
pub(crate) struct Reader<'a> {
    pub(crate) bytes: &'a [u8],
    pub(crate) place: usize,
    ghost within: { place ≤ length bytes.now },
}

impl<'a> Reader<'a> {
    ghost use Rattle.run_block.specs.views.Places.{piece_in};
    ghost use Rattle.run_block.specs.views.Reading.{rest_of, Reads, kind_number};

    /// A reader before the first byte.
    pub(crate) fn new(bytes: &'a [u8]) -> Reader<'a>
        ensures bytes { result.bytes.now ≡ bytes.now }
        ensures place { result.place ≡ 0 }
    {
        Reader { bytes, place: 0 }
    }

    /// A fault at this place.
    pub(crate) fn fault(&self, kind: FileKind) -> RunFault
        ensures kind { result.kind ≡ kind }
        ensures place { result.place ≡ self.now.place }
    {
        RunFault {
            kind,
            place: self.place as u64,
        }
    }

    /// So many bytes, where they are whole.
    pub(crate) fn field(&mut self, len: usize) -> Result<Piece, RunFault>
        ensures reading { Reads (piece_in self.old.bytes.now) result (words.field len (rest_of self.old)) (rest_of self.new) }
        ensures same { self.new.bytes.now ≡ self.old.bytes.now }
        ensures within { IfOk result (λ p. p.end ≤ length self.old.bytes.now) }
        ensures size { IfOk result (λ p. p.start + len ≡ p.end) }
    {
        let start = self.place;
        if self.bytes.len() - start < len {
            return Err(self.fault(FileKind::Short));
        }
        let end = start + len;
        self.place = end;
        Ok(Piece { start, end })
    }

    /// A number of 32 bits.
    pub(crate) fn number32(&mut self) -> Result<u32, RunFault>
        ensures reading { Reads (λ n. n) result (words.number w32 (rest_of self.old)) (rest_of self.new) }
        ensures same { self.new.bytes.now ≡ self.old.bytes.now }
    {
        let field = self.field(4)?;
        Ok(read_u32(field.slice(self.bytes)))
    }

    /// A number of 64 bits.
    pub(crate) fn number64(&mut self) -> Result<u64, RunFault>
        ensures reading { Reads (λ n. n) result (words.number w64 (rest_of self.old)) (rest_of self.new) }
        ensures same { self.new.bytes.now ≡ self.old.bytes.now }
    {
        let field = self.field(8)?;
        Ok(read_u64(field.slice(self.bytes)))
    }

    /// The kind of an entry, by which it sets or not. It is judged when it is read.
    pub(crate) fn kind(&mut self, fault: RunFault) -> Result<bool, RunFault>
        ensures reading { Reads kind_number result (words.kind_at (fault_of fault) (rest_of self.old)) (rest_of self.new) }
        ensures same { self.new.bytes.now ≡ self.old.bytes.now }
    {
        let field = self.field(1)?;
        match self.bytes[field.start] {
            0 => Ok(false),
            1 => Ok(true),
            _ => Err(fault),
        }
    }

    /// Bytes with their length before them. The length is judged before they are read.
    pub(crate) fn counted(&mut self, limit: usize, fault: RunFault) -> Result<Piece, RunFault>
        ensures reading { Reads (piece_in self.old.bytes.now) result (words.counted limit (fault_of fault) (rest_of self.old)) (rest_of self.new) }
        ensures same { self.new.bytes.now ≡ self.old.bytes.now }
        ensures within { IfOk result (λ p. p.end ≤ length self.old.bytes.now) }
    {
        let len = self.number32()? as usize;
        if len > limit {
            return Err(fault);
        }
        self.field(len)
    }
}
