//! What is told of an intent that is in the way.
use mvcc_key::{Key, Timestamp};
use std::marker::Model;
use uuid::Uuid;

/// An intent that was met (CockroachDB `roachpb.Intent`): its key, its transaction's id and its timestamp.
#[derive(Debug, Drop)]
pub struct IntentSeen {
    pub key: Key,
    pub id: Uuid,
    pub ts: Timestamp,
}

impl Model for IntentSeen {
    ghost use Rattle.mvcc_key.specs.Refusal.{IntentSeen};
    ghost use Rattle.mvcc_key.specs.views.Seen.{time_of};

    ghost Value = { IntentSeen };

    ghost view = { λ i. record { key = i.key; id = i.id; ts = time_of i.ts } };
}
