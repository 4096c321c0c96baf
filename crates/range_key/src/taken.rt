//! Which timestamps a change takes out of a span.
ghost use Rattle.std.specs.Prelude.{◌≡◌};
ghost use Rattle.mvcc_key.specs.views.Seen.{time_of};
ghost use Rattle.range_key.specs.views.Taken.{is_taken};

use mvcc_key::Timestamp;

/// The timestamps that are taken out.
#[derive(Clone, Copy)]
pub(crate) enum Taken {
    /// This one alone.
    One(Timestamp),
    /// Those above the first and up to the second.
    Window(Timestamp, Timestamp),
}

impl Taken {
    /// Whether this timestamp is taken out.
    pub(crate) fn takes(self, ts: Timestamp) -> bool
        ensures { result ≡ is_taken self (time_of ts) }
    {
        match self {
            Taken::One(one) => ts == one,
            Taken::Window(from, to) => from < ts && ts <= to,
        }
    }
}
