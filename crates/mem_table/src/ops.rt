//! Point operations by their numbers.
ghost use Rattle.std.specs.Prelude.{◌≡◌, ◌≤◌, ◌<◌, ◌+◌, ◌^◌, [], ◌∷◌, ◌++◌, List, length, slice_get, OnOk, Some, vec_len, vec_capacity};
ghost use Rattle.std.specs.Option.{option_map, option_and_then};
ghost use Rattle.mvcc_key.specs.Encoded.{name_in, IsBytes, IsName};
ghost use Rattle.mvcc_key.specs.views.AbbreviatedKey.{IsAbbreviatedKey};
ghost use Rattle.mvcc_key.specs.Points.{AreEncodable};
ghost use Rattle.mvcc_key.specs.views.SeenPoint.{points_of, AreNamed};
ghost use Rattle.mem_table.specs.views.Entries.{AreBytes};
ghost use Rattle.mem_table.specs.views.Places.{IsStored};

use crate::entries::Entries;
use mvcc_key::{OutOfMemory, PointOp, abbreviated_key};
use std::alloc::Global;

/// How many names a table holds at most: their operations would fill some hundred gigabytes, so more of them is memory that cannot be
/// had.
const MAX_NAMES: usize = 1 << 32;

/// Point operations, each at the number that its name got when it came.
#[derive(Drop)]
pub(crate) struct Ops {
    ops: Vec<PointOp>,
    ghost named: { AreNamed ops.items },
    ghost encodable: { AreEncodable (points_of ops.items) },
    ghost bytes: { AreBytes (points_of ops.items) },
}

impl Ops {
    /// No operations. This takes no memory.
    pub(crate) fn new(alloc: Global) -> Ops
        ensures { result.ops.items ≡ [] }
    {
        Ops {
            ops: Vec::new(alloc),
        }
    }

    /// How many there are.
    pub(crate) fn len(&self) -> usize
        ensures count { result ≡ length self.now.ops.items }
        ensures small { result < 2 ^ 63 }
    {
        self.ops.len()
    }

    /// Takes room for so many more, which with those that there are may be 2^32.
    pub(crate) fn reserve(&mut self, more: usize) -> Result<(), OutOfMemory>
        ensures items { self.new.ops.items ≡ self.old.ops.items }
        ensures ok { OnOk result (vec_len self.new.ops + more ≤ vec_capacity self.new.ops) }
        ensures few { OnOk result (vec_len self.new.ops + more ≤ 2 ^ 32) }
    {
        if more > MAX_NAMES || self.ops.len() > MAX_NAMES - more {
            return Err(OutOfMemory);
        }
        self.ops.reserve(more)?;
        Ok(())
    }

    /// Takes an operation up where there is room: its number, and its abbreviated key.
    pub(crate) fn push(&mut self, op: PointOp) -> (u32, u64)
        requires name { IsName op.key }
        requires room { vec_len self.old.ops < vec_capacity self.old.ops }
        requires few { vec_len self.old.ops < 2 ^ 32 }
        ensures items { self.new.ops.items ≡ self.old.ops.items ++ op ∷ [] }
        ensures number { result.0 ≡ length self.old.ops.items }
        ensures abbreviated { IsAbbreviatedKey (name_in op.key).key result.1 }
        ensures capacity { vec_capacity self.new.ops ≡ vec_capacity self.old.ops }
    {
        let number = self.ops.len() as u32;
        let abbreviated = abbreviated_key(op.key.as_slice());
        self.ops.push_reserved(op);
        (number, abbreviated)
    }

    /// Replaces the operation with this number by a newer one.
    pub(crate) fn set(&mut self, number: u32, op: PointOp)
        requires name { IsName op.key }
        requires bytes { IsBytes (name_in op.key).key }
        requires within { number < length self.old.ops.items }
        ensures stored { IsStored op number self.old.ops.items self.new.ops.items }
        ensures count { length self.new.ops.items ≡ length self.old.ops.items }
        ensures capacity { vec_capacity self.new.ops ≡ vec_capacity self.old.ops }
    {
        self.ops[number as usize] = op;
    }

    /// The value of an operation, and `None` where it clears its name.
    pub(crate) fn value(&self, number: u32) -> Option<&[u8]>
        requires { number < length self.now.ops.items }
        ensures { option_map (λ v. v.now) result ≡ option_and_then (λ op. op.value) (slice_get self.now.ops.items number) }
    {
        match &self.ops[number as usize].value {
            Some(value) => Some(value.as_slice()),
            None => None,
        }
    }
}

impl Entries for Ops {
    ghost points = { λ o. points_of o.ops.items };

    ghost encodable = { λ o. o.encodable };

    ghost bytes = { λ o. o.bytes };

    fn key(&self, number: u32) -> &[u8] {
        self.ops[number as usize].key.as_slice()
    }
}
