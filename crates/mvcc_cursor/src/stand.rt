//! Where a cursor stands among the stored keys.
ghost use Rattle.std.specs.Prelude.{◌≡◌};

/// Before the first stored key, at a key, or past the last one.
#[derive(Clone, Copy, Debug)]
pub(crate) enum Stand {
    Before,
    At,
    Past,
}

impl Stand {
    ghost use Rattle.mvcc_cursor.specs.views.Stands.{is_before, is_past};

    /// Whether it is before the first key.
    pub(crate) fn is_before(self) -> bool
        ensures { result ≡ is_before self }
    {
        matches!(self, Stand::Before)
    }

    /// Whether it is past the last key.
    pub(crate) fn is_past(self) -> bool
        ensures { result ≡ is_past self }
    {
        matches!(self, Stand::Past)
    }
}
