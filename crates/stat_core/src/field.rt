//! The names of the bounded statistics, in their order.
ghost use Rattle.std.specs.Prelude.{◌≡◌, ◌<◌, Some};
ghost use Rattle.stat_core.specs.Names.{field_name, overflow_text};
ghost use Rattle.stat_core.specs.Running.{field_index};
ghost use Rattle.stat_core.specs.views.Seen.{field_of};

use std::error::Error;
use std::fmt;

/// One of the statistics that a bound holds for, in the order in which they are printed and compared (CockroachDB's
/// `MVCCStats`, `pkg/storage/enginepb`).
#[derive(Clone, Copy, Debug, PartialEq, Eq)]
pub enum Field {
    KeyCount,
    KeyBytes,
    ValCount,
    ValBytes,
    LiveCount,
    LiveBytes,
    IntentCount,
    IntentBytes,
    IntentAge,
    GcBytesAge,
    RangeKeyCount,
    RangeKeyBytes,
    RangeValCount,
    RangeValBytes,
}

/// A statistic would pass the bound. It is the first that would, in the order of [`Field`].
#[derive(Clone, Copy, Debug, PartialEq, Eq)]
pub struct CountOverflow {
    pub field: Field,
}

impl fmt::Display for CountOverflow {
    ghost output = { λ e. Some (overflow_text (field_of e.field)) };

    fn fmt<W: fmt::Write>(&self, f: &mut fmt::Formatter<W>) -> fmt::Result {
        let name = self.field.name();
        write!(f, "{name} would pass its bound")
    }
}

impl Error for CountOverflow {}

impl Field {
    /// The field at this place of their order.
    pub(crate) fn at(place: usize) -> Field
        requires { place < 14 }
        ensures { field_index (field_of result) ≡ place }
    {
        match place {
            0 => Field::KeyCount,
            1 => Field::KeyBytes,
            2 => Field::ValCount,
            3 => Field::ValBytes,
            4 => Field::LiveCount,
            5 => Field::LiveBytes,
            6 => Field::IntentCount,
            7 => Field::IntentBytes,
            8 => Field::IntentAge,
            9 => Field::GcBytesAge,
            10 => Field::RangeKeyCount,
            11 => Field::RangeKeyBytes,
            12 => Field::RangeValCount,
            _ => Field::RangeValBytes,
        }
    }

    /// Its name, as it is printed: that of the method of [`Stats`](crate::Stats) that reads it.
    pub fn name(self) -> &'static str
        ensures { result.now ≡ field_name (field_of self) }
    {
        match self {
            Field::KeyCount => "key_count",
            Field::KeyBytes => "key_bytes",
            Field::ValCount => "val_count",
            Field::ValBytes => "val_bytes",
            Field::LiveCount => "live_count",
            Field::LiveBytes => "live_bytes",
            Field::IntentCount => "intent_count",
            Field::IntentBytes => "intent_bytes",
            Field::IntentAge => "intent_age",
            Field::GcBytesAge => "gc_bytes_age",
            Field::RangeKeyCount => "range_key_count",
            Field::RangeKeyBytes => "range_key_bytes",
            Field::RangeValCount => "range_val_count",
            Field::RangeValBytes => "range_val_bytes",
        }
    }
}
