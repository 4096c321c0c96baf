//! Operations on pairs, each above the one before it.
ghost use Rattle.std.specs.Prelude.{◌≡◌, ◌<◌, ◌^◌, vec_len};
ghost use Rattle.mvcc_key.specs.Points.{IsRising, AreEncodable};
ghost use Rattle.std.specs.Bool.{OnTrue};
ghost use Rattle.mvcc_key.specs.Encoded.{IsName};
ghost use Rattle.mvcc_key.specs.views.SeenPoint.{points_of, AreNamed, IsAboveLast};

use mvcc_key::{OutOfMemory, PointOp, SortedPairs, abbreviated_key, cmp_encoded, decode_key};
use std::alloc::Global;

#[derive(Drop)]
pub struct Listed {
    held: Vec<PointOp>,
    ghost named: { AreNamed held.items },
    ghost encodable: { AreEncodable (points_of held.items) },
    ghost rising: { IsRising (points_of held.items) },
    ghost small: { vec_len held < 2 ^ 63 },
}

impl Listed {
    pub fn new(alloc: Global) -> Listed {
        Listed {
            held: Vec::new(alloc),
        }
    }

    /// Takes the operation up where it is above the last one.
    pub fn push(&mut self, op: PointOp) -> Result<bool, OutOfMemory> {
        if decode_key(op.key.as_slice()).is_err() || self.held.len() > 1000 {
            return Ok(false);
        }
        if !is_above_last(&self.held, op.key.as_slice()) {
            return Ok(false);
        }
        self.held.push(op)?;
        Ok(true)
    }
}

fn is_above_last(held: &[PointOp], key: &[u8]) -> bool
    requires held { AreNamed held.now }
    requires key { IsName key.now }
    ensures { OnTrue result (IsAboveLast held.now key.now) }
{
    match held.last() {
        Some(last) => cmp_encoded(last.key.as_slice(), key).is_lt(),
        None => true,
    }
}

impl SortedPairs for Listed {
    ghost points = { λ s. points_of s.held.items };

    ghost rising = { λ s. s.rising };

    ghost encodable = { λ s. s.encodable };

    fn len(&self) -> usize {
        self.held.len()
    }

    fn key(&self, index: usize) -> &[u8] {
        self.held[index].key.as_slice()
    }

    fn abbreviated_key(&self, index: usize) -> u64 {
        abbreviated_key(self.held[index].key.as_slice())
    }

    fn value(&self, index: usize) -> Option<&[u8]> {
        match &self.held[index].value {
            Some(value) => Some(value.as_slice()),
            None => None,
        }
    }
}
