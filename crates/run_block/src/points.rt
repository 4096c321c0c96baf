//! The points of a run, where they lie in its bytes.
ghost use Rattle.std.specs.Prelude.{◌≡◌, All};
ghost use Rattle.mvcc_key.specs.Points.{IsRising, AreEncodable};
ghost use Rattle.run_block.specs.views.Places.{IsPlaced, points_in};

use crate::place::PointPlace;
use mvcc_key::SortedPairs;

/// The bytes of a run, and where its points lie in them, in order.
#[derive(Drop)]
pub struct RunPoints {
    pub(crate) bytes: Vec<u8>,
    pub(crate) places: Vec<PointPlace>,
    ghost placed: { All (IsPlaced bytes.items) places.items },
    ghost rising: { IsRising (points_in bytes.items places.items) },
    ghost encodable: { AreEncodable (points_in bytes.items places.items) },
}

impl SortedPairs for RunPoints {
    ghost points = { λ s. points_in s.bytes.items s.places.items };

    ghost rising = { λ s. s.rising };

    ghost encodable = { λ s. s.encodable };

    fn len(&self) -> usize {
        self.places.len()
    }

    fn key(&self, index: usize) -> &[u8] {
        let place = self.places[index];
        place.key.slice(self.bytes.as_slice())
    }

    fn abbreviated_key(&self, index: usize) -> u64 {
        self.places[index].abbreviated_key
    }

    fn value(&self, index: usize) -> Option<&[u8]> {
        let place = self.places[index];
        match place.value {
            Some(value) => Some(value.slice(self.bytes.as_slice())),
            None => None,
        }
    }
}
