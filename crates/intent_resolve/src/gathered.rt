//! What is gathered of the resolutions of several intents.
ghost use Rattle.std.specs.Prelude.{◌≡◌, ◌<◌, ◌^◌, ◌+◌, ◌||◌, ℕ, List, [], IfOk, OnOk};
ghost use Rattle.mvcc_key.specs.Field.{Field};
ghost use Rattle.mvcc_key.specs.Order.{Key};
ghost use Rattle.mvcc_key.specs.History.{History};
ghost use Rattle.mvcc_key.specs.views.Seen.{time_of};
ghost use Rattle.intent_meta.specs.Valid.{IsValid};
ghost use Rattle.stat_core.specs.views.Counters.{IsWithin};
ghost use Rattle.stat_core.specs.views.Seen.{number};
ghost use Rattle.key_top.specs.Top.{IsShortFront, IsShortTop};
ghost use Rattle.key_top.specs.views.Seen.{seen_front, seen_top};
ghost use Rattle.intent_resolve.specs.views.Front.{is_front};

use crate::key_plan::KeyPlan;
use key_top::{Front, append_points, delta_sum, front_delta};
use mvcc_key::{BatchBuilder, OutOfMemory, Timestamp};
use stat_core::Group;
use stat_delta::Change;
use std::alloc::Global;
use std::cmp::max;

/// What is gathered of the resolutions of several intents: the operations, and by how much the statistics change. What is left of
/// an intent moves the moment of the statistics to that of the update, and what goes leaves it. Which it is shows only once all
/// are there, so the difference is counted at both moments.
#[derive(Drop)]
pub(crate) struct Gathered {
    batch: BatchBuilder,
    /// How many intents there are.
    pub count: u64,
    /// The moment at which the statistics stand, and the difference at this moment.
    last: u64,
    still: Group,
    /// The moment of what is left of an intent, and the difference at that moment.
    later: u64,
    moved: Group,
    /// Something is left of an intent.
    leaves: bool,
    ghost still_within: { (f : Field) → IsWithin 121 (number f still) },
    ghost moved_within: { (f : Field) → IsWithin 121 (number f moved) },
    ghost last_range: { last < 2 ^ 63 },
    ghost later_range: { later < 2 ^ 63 },
}

impl Gathered {
    ghost use Rattle.intent_resolve.specs.Resolve.{Update};
    ghost use Rattle.intent_resolve.specs.views.Gathered.{Done, IsChangeOfAll, IsGathered, IsGatheredWith};
    ghost use Rattle.intent_resolve.specs.views.KeyPlan.{IsKeyPlan};

    /// Of no intent. This takes no memory.
    pub(crate) fn new(alloc: Global, last: u64, ts: Timestamp) -> Gathered
        requires { last < 2 ^ 63 }
        ensures { (h : History) (u : Update) → u.ts ≡ time_of ts → IsGathered h last u [] result }
    {
        Gathered {
            batch: BatchBuilder::new(alloc),
            count: 0,
            last,
            still: Group::zero(),
            later: max(last, ts.wall()),
            moved: Group::zero(),
            leaves: false,
        }
    }

    /// Takes the plan of one more key up, which is above those before.
    pub(crate) fn add(&mut self, plan: KeyPlan<'_>) -> Result<(), OutOfMemory>
        requires top { IsShortTop (seen_top plan.top) }
        requires left { IsShortFront (seen_front plan.left) }
        ensures { (h : History) (last : ℕ) (u : Update) (ds : List Done) (key : Key) → IsValid h → IsGathered h last u ds self.old → IsKeyPlan h key u plan.entry
            → OnOk result (IsGatheredWith h last u ds key self.new) }
    {
        let still = front_delta(&plan.top, plan.left, self.last);
        let moved = front_delta(&plan.top, plan.left, self.later);
        let still = delta_sum(&self.still, &still)?;
        let moved = delta_sum(&self.moved, &moved)?;
        let count = one_more(self.count)?;
        let leaves = leaves_with(self.leaves, plan.left);
        append_points(&mut self.batch, plan.points)?;
        self.count = count;
        self.still = still;
        self.moved = moved;
        self.leaves = leaves;
        Ok(())
    }

    /// The change of all of them.
    pub(crate) fn into_change(self) -> Change
        ensures { (h : History) (last : ℕ) (u : Update) (ds : List Done) → IsGathered h last u ds self → IsChangeOfAll h last u ds result }
    {
        let batch = self.batch.into_batch();
        if self.leaves {
            Change {
                batch,
                delta: self.moved,
                last: self.later,
            }
        } else {
            Change {
                batch,
                delta: self.still,
                last: self.last,
            }
        }
    }
}

/// The number of intents with one more. Memory is wanting before a number of 64 bits is.
fn one_more(count: u64) -> Result<u64, OutOfMemory>
    ensures { IfOk result (λ more. more ≡ count + 1) }
{
    match count.checked_add(1) {
        Some(more) => Ok(more),
        None => Err(OutOfMemory),
    }
}

/// Something is left of an intent before, or of this one.
fn leaves_with(leaves: bool, left: Front) -> bool
    ensures { result ≡ (leaves || is_front (seen_front left)) }
{
    leaves || is_something(left)
}

/// Something is left of an intent.
fn is_something(left: Front) -> bool
    ensures { result ≡ is_front (seen_front left) }
{
    match left {
        Front::Nothing => false,
        Front::Intent(_) | Front::Version(_) => true,
    }
}
