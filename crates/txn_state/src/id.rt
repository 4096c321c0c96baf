//! Ids of transactions.
ghost use Rattle.std.specs.Prelude.{◌≡◌, bytes_eq};
ghost use Rattle.txn_state.specs.views.SeenId.{id_of};

use uuid::Uuid;

/// The id of a transaction: the 128 bits of a [`Uuid`], in a form that may stand beside a borrow. It is made from a `Uuid` and
/// into one with [`From`], and is that `Uuid`'s sixteen bytes.
#[derive(Clone, Copy, Debug, PartialEq, Eq)]
pub struct TxnId {
    bits: u128,
}

impl TxnId {
    /// Whether both are the id of one transaction, as `==` says.
    pub fn is_same(self, other: TxnId) -> bool
        ensures { result ≡ bytes_eq (id_of self) (id_of other) }
    {
        self.bits == other.bits
    }
}

impl From<Uuid> for TxnId {
    ghost from_gives = { λ uuid id. id_of id ≡ uuid };

    fn from(uuid: Uuid) -> TxnId {
        of_bytes(uuid.as_bytes())
    }
}

impl From<TxnId> for Uuid {
    ghost from_gives = { λ id uuid. uuid ≡ id_of id };

    fn from(id: TxnId) -> Uuid {
        Uuid::from_u128(id.bits)
    }
}

/// The id of these bytes, the highest first.
fn of_bytes(bytes: &[u8; 16]) -> TxnId
    ensures { id_of result ≡ bytes.now }
{
    TxnId {
        bits: u128::from_be_bytes(*bytes),
    }
}
