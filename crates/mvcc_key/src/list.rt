//! Vectors that contracts see as the lists of what they hold, so that a struct with such a field can be compared with a
//! definition's value.
ghost use Rattle.std.specs.Prelude.{◌≡◌, ◌↔◌, [], ◌∷◌, ◌++◌, length, IfOk, OnOk, OnErr, MatchOption, IsTrue};

use crate::OutOfMemory;
use std::alloc::Global;
use std::marker::Model;

/// A list of elements. It is made from a `Vec` and given back as one with no memory taken.
#[derive(Debug, Drop)]
pub struct Elements<T> {
    held: Vec<T>,
}

impl<T> Model for Elements<T> {
    ghost use Rattle.std.specs.Prelude.{List};

    ghost Value = { List T };

    ghost view = { λ i. i.held.items };
}

impl<T> Elements<T> {
    /// No elements. This takes no memory.
    pub fn new(alloc: Global) -> Elements<T>
        ensures { result ≡ [] }
    {
        Elements {
            held: Vec::new(alloc),
        }
    }

    /// The elements of the vector, which is taken as it is.
    pub fn from_vec(held: Vec<T>) -> Elements<T>
        ensures { result ≡ held.items }
    {
        Elements { held }
    }

    /// The vector, given back as it is.
    pub fn into_vec(self) -> Vec<T>
        ensures { result.items ≡ self }
    {
        self.held
    }

    /// The elements.
    pub fn as_slice(&self) -> &[T]
        ensures { result.now ≡ self.now }
    {
        self.held.as_slice()
    }

    /// How many elements there are.
    pub fn len(&self) -> usize
        ensures { result ≡ length self.now }
    {
        self.held.len()
    }

    /// Whether there are none.
    pub fn is_empty(&self) -> bool
        ensures { IsTrue result ↔ (self.now ≡ []) }
    {
        self.held.is_empty()
    }

    /// Takes the last element away, where there is one.
    pub fn pop(&mut self) -> Option<T>
        ensures { MatchOption result ((self.old ≡ []) × (self.new ≡ [])) (λ x. self.old ≡ self.new ++ x ∷ []) }
    {
        self.held.pop()
    }
}

impl<T: Drop> Elements<T> {
    /// Puts an element at the end. Where memory is wanting the list is as it was, and the element is dropped.
    pub fn push(&mut self, value: T) -> Result<(), OutOfMemory>
        ensures ok { OnOk result (self.new ≡ self.old ++ value ∷ []) }
        ensures err { OnErr result (self.new ≡ self.old) }
    {
        self.held.push(value)?;
        Ok(())
    }
}

/// Bytes of its own, such as an encoded key or a value. They are made from a `Vec` and given back as one with no memory
/// taken.
#[derive(Debug, Drop)]
pub struct Bytes {
    held: Vec<u8>,
}

impl Model for Bytes {
    ghost use Rattle.std.specs.Prelude.{List, ℕ};

    ghost Value = { List ℕ };

    ghost view = { λ b. b.held.items };
}

impl Bytes {
    /// No bytes. This takes no memory.
    pub fn new(alloc: Global) -> Bytes
        ensures { result ≡ [] }
    {
        Bytes {
            held: Vec::new(alloc),
        }
    }

    /// The bytes of the vector, which is taken as it is.
    pub fn from_vec(held: Vec<u8>) -> Bytes
        ensures { result ≡ held.items }
    {
        Bytes { held }
    }

    /// The vector, given back as it is.
    pub fn into_vec(self) -> Vec<u8>
        ensures { result.items ≡ self }
    {
        self.held
    }

    /// A copy of these bytes.
    pub fn copy(alloc: Global, bytes: &[u8]) -> Result<Bytes, OutOfMemory>
        ensures { IfOk result (λ b. b ≡ bytes.now) }
    {
        Ok(Bytes {
            held: Vec::from_slice(alloc, bytes)?,
        })
    }

    /// The bytes.
    pub fn as_slice(&self) -> &[u8]
        ensures { result.now ≡ self.now }
    {
        self.held.as_slice()
    }
}
