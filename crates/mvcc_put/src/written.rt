//! What a write puts on top of its key, told by its points.
ghost use Rattle.std.specs.Prelude.{◌≡◌, All, length};
ghost use Rattle.std.specs.Option.{option_map};
ghost use Rattle.mvcc_key.specs.Batches.{IsStorable};
ghost use Rattle.mvcc_key.specs.Encoded.{IsName};
ghost use Rattle.mvcc_key.specs.Order.{Key, Pair};
ghost use Rattle.mvcc_key.specs.History.{Changed, History};
ghost use Rattle.mvcc_key.specs.views.SeenPoint.{point_of, points_of};
ghost use Rattle.intent_meta.specs.PointPairs.{set_point};
ghost use Rattle.stat_core.specs.DeadSince.{shape_of};
ghost use Rattle.stat_core.specs.views.Seen.{version_shape_of};
ghost use Rattle.write_rule.specs.Outcome.{Outcome};
ghost use Rattle.write_rule.specs.Planned.{points_for};
ghost use Rattle.write_rule.specs.Write.{WriteAnswer, WriteRequest};
ghost use Rattle.key_top.specs.views.Seen.{seen_front};
ghost use Rattle.mvcc_put.specs.views.Written.{written_for};

use key_top::{Front, IntentShape, version_shape};
use mvcc_key::{PointOp, read_key};
use stat_core::VersionShape;

/// What these points put in front of the key's newest committed version, and `None` where they are a replay: a version is one of
/// them, and an intent its record, then its provisional version, and then what is cleared.
pub(crate) fn written_by(points: &[PointOp]) -> Option<Front>
    requires { All IsStorable points.now }
    ensures { (h : History) (key : Key) (w : WriteRequest) (c : Changed WriteAnswer) (outcome : Outcome h key w c)
        → points_of points.now ≡ points_for outcome → option_map seen_front result ≡ written_for outcome }
{
    match points {
        [] => None,
        [version] => Some(Front::Version(shape_of_op(version))),
        [record, provisional, ..] => Some(Front::Intent(IntentShape {
            record_len: value_len(record),
            provisional: shape_of_op(provisional),
        })),
    }
}

/// What the statistics see of the version that an operation sets.
fn shape_of_op(op: &PointOp) -> VersionShape
    requires { IsName op.now.key }
    ensures { (p : Pair) → point_of op.now ≡ set_point p → version_shape_of result ≡ shape_of p }
{
    let ts = read_key(op.key.as_slice()).ts;
    let value = match &op.value {
        Some(value) => value.as_slice(),
        None => &[],
    };
    version_shape(ts, value)
}

/// How many bytes an operation sets.
fn value_len(op: &PointOp) -> u64
    ensures { (p : Pair) → point_of op.now ≡ set_point p → result ≡ length p.value }
{
    match &op.value {
        Some(value) => value.as_slice().len() as u64,
        None => 0,
    }
}
