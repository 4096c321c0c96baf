//! What a resolution of one key changes, of what is stored and of the statistics.
ghost use Rattle.std.specs.Prelude.{◌≡◌, ◌<◌, ◌^◌, [], pos};
ghost use Rattle.mvcc_key.specs.Batches.{AreEntries};
ghost use Rattle.mvcc_key.specs.Field.{Field};
ghost use Rattle.stat_core.specs.views.Seen.{number};
ghost use Rattle.key_top.specs.Top.{IsShortFront, IsShortTop, front_change, moment_of};
ghost use Rattle.key_top.specs.views.Seen.{seen_front, seen_top};

use crate::key_plan::KeyPlan;
use key_top::{front_delta, moment_after};
use mvcc_key::{Batch, Elements};
use stat_core::Group;
use stat_delta::Change;
use std::alloc::Global;

/// The change of a plan. It takes no memory.
pub(crate) fn change_of(alloc: Global, plan: KeyPlan<'_>, last: u64) -> Change
    requires entries { AreEntries plan.points }
    requires top { IsShortTop (seen_top plan.top) }
    requires left { IsShortFront (seen_front plan.left) }
    requires range { last < 2 ^ 63 }
    ensures batch { result.batch ≡ record { points = plan.entry.points; ranges = [] } }
    ensures moment { result.last ≡ moment_of last (seen_front plan.entry.left) }
    ensures delta { (f : Field) → number f result.delta ≡ front_change result.last (seen_top plan.entry.top) (seen_front plan.entry.left) f }
{
    let now = moment_after(last, plan.left);
    let delta = front_delta(&plan.top, plan.left, now);
    Change {
        batch: Batch {
            points: plan.points,
            ranges: Elements::new(alloc),
        },
        delta,
        last: now,
    }
}

/// The change of a resolution that meets no intent of its transaction: nothing, at the same moment.
pub(crate) fn no_change(alloc: Global, last: u64) -> Change
    requires range { last < 2 ^ 63 }
    ensures batch { result.batch ≡ record { points = []; ranges = [] } }
    ensures moment { result.last ≡ last }
    ensures delta { (f : Field) → number f result.delta ≡ pos 0 }
{
    Change {
        batch: Batch {
            points: Elements::new(alloc),
            ranges: Elements::new(alloc),
        },
        delta: Group::zero(),
        last,
    }
}
