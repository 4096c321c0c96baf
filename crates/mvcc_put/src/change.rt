//! What a write changes, of what is stored and of the statistics.
ghost use Rattle.std.specs.Prelude.{◌≡◌, ◌<◌, ◌^◌, [], IfSome};
ghost use Rattle.std.specs.Option.{option_map};
ghost use Rattle.mvcc_key.specs.Batches.{AreEntries};
ghost use Rattle.mvcc_key.specs.Field.{Field};
ghost use Rattle.mvcc_key.specs.History.{Changed, History};
ghost use Rattle.mvcc_key.specs.Order.{Key};
ghost use Rattle.mvcc_key.specs.views.SeenPoint.{points_of};
ghost use Rattle.stat_core.specs.views.Counters.{IsWithin};
ghost use Rattle.stat_core.specs.views.Seen.{number};
ghost use Rattle.write_rule.specs.Outcome.{Outcome};
ghost use Rattle.write_rule.specs.Planned.{points_for};
ghost use Rattle.write_rule.specs.Write.{WriteAnswer, WriteRequest};
ghost use Rattle.key_top.specs.Top.{IsShortFront, IsShortTop};
ghost use Rattle.key_top.specs.views.Seen.{seen_front, seen_top};
ghost use Rattle.mvcc_put.specs.views.Changed.{CountsOnTop, SetsShort};
ghost use Rattle.mvcc_put.specs.views.Written.{change_by, moment_by, written_for};

use crate::written::written_by;
use key_top::{Front, KeyTop, front_delta, moment_after};
use mvcc_key::{Batch, Elements, PointOp};
use stat_core::Group;
use stat_delta::Change;
use std::alloc::Global;

/// The change that puts these points on top of a key. It takes no memory.
pub(crate) fn change_on_top(
    alloc: Global,
    points: Elements<PointOp>,
    top: &KeyTop<'_>,
    last: u64,
) -> Change
    requires entries { AreEntries points }
    requires short { SetsShort points }
    requires top { IsShortTop (seen_top top.now) }
    requires range { last < 2 ^ 63 }
    ensures batch { result.batch ≡ record { points = points; ranges = [] } }
    ensures counts { (h : History) (key : Key) (w : WriteRequest) (c : Changed WriteAnswer) (outcome : Outcome h key w c)
        → points_of points ≡ points_for outcome → CountsOnTop last (seen_top top.now) (written_for outcome) result }
{
    let written = written_by(points.as_slice());
    let now = moment_by(last, written);
    let delta = delta_by(top, written, now);
    Change {
        batch: Batch {
            points,
            ranges: Elements::new(alloc),
        },
        delta,
        last: now,
    }
}

/// The moment after a write that puts this, or nothing.
fn moment_by(last: u64, written: Option<Front>) -> u64
    ensures { result ≡ moment_by last (option_map seen_front written) }
{
    match written {
        None => last,
        Some(front) => moment_after(last, front),
    }
}

/// By how much the statistics at a moment change where a write puts this on top of a key, or nothing.
fn delta_by(top: &KeyTop<'_>, written: Option<Front>, now: u64) -> Group
    requires top { IsShortTop (seen_top top.now) }
    requires short { IfSome (option_map seen_front written) IsShortFront }
    ensures exact { (f : Field) → number f result ≡ change_by now (seen_top top.now) (option_map seen_front written) f }
    ensures within { (f : Field) → IsWithin 121 (number f result) }
{
    match written {
        None => Group::zero(),
        Some(front) => front_delta(top, front, now),
    }
}
