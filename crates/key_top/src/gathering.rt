//! What changes of several keys come to, gathered one after another.
ghost use Rattle.std.specs.Prelude.{◌≡◌, ◌++◌, ◌+ℤ◌, IfOk, OnOk};
ghost use Rattle.mvcc_key.specs.Field.{Field};
ghost use Rattle.stat_core.specs.views.Counters.{IsWithin};
ghost use Rattle.stat_core.specs.views.Seen.{number};

use mvcc_key::{BatchBuilder, Elements, OutOfMemory, PointOp};
use stat_core::Group;

/// The most that a change of a statistic may be, either way.
const MOST: i128 = 1 << 121;

/// Two changes of the statistics together. A sum past 2^121 takes more keys than any memory holds, so it is answered as want of
/// memory.
pub fn delta_sum(a: &Group, b: &Group) -> Result<Group, OutOfMemory>
    requires a { (f : Field) → IsWithin 121 (number f a.now) }
    requires b { (f : Field) → IsWithin 121 (number f b.now) }
    ensures sum { IfOk result (λ g. (f : Field) → number f g ≡ number f a.now +ℤ number f b.now) }
    ensures within { IfOk result (λ g. (f : Field) → IsWithin 121 (number f g)) }
{
    Ok(Group {
        key_count: add(a.key_count, b.key_count)?,
        key_bytes: add(a.key_bytes, b.key_bytes)?,
        val_count: add(a.val_count, b.val_count)?,
        val_bytes: add(a.val_bytes, b.val_bytes)?,
        live_count: add(a.live_count, b.live_count)?,
        live_bytes: add(a.live_bytes, b.live_bytes)?,
        intent_count: add(a.intent_count, b.intent_count)?,
        intent_bytes: add(a.intent_bytes, b.intent_bytes)?,
        intent_age: add(a.intent_age, b.intent_age)?,
        gc_bytes_age: add(a.gc_bytes_age, b.gc_bytes_age)?,
        range_key_count: add(a.range_key_count, b.range_key_count)?,
        range_key_bytes: add(a.range_key_bytes, b.range_key_bytes)?,
        range_val_count: add(a.range_val_count, b.range_val_count)?,
        range_val_bytes: add(a.range_val_bytes, b.range_val_bytes)?,
    })
}

/// Two numbers together.
fn add(a: i128, b: i128) -> Result<i128, OutOfMemory>
    requires a { IsWithin 121 a }
    requires b { IsWithin 121 b }
    ensures sum { IfOk result (λ c. c ≡ a +ℤ b) }
    ensures within { IfOk result (IsWithin 121) }
{
    let sum = a + b;
    if -MOST <= sum && sum <= MOST {
        Ok(sum)
    } else {
        Err(OutOfMemory)
    }
}

/// Puts the operations of one key more behind the others. The key is above those of the others, so each is taken up.
pub fn append_points(batch: &mut BatchBuilder, points: Elements<PointOp>) -> Result<(), OutOfMemory>
    ensures points { OnOk result (batch.new.points ≡ batch.old.points ++ points) }
    ensures ranges { batch.new.ranges ≡ batch.old.ranges }
{
    for op in points.into_vec() {
        if !batch.push_point(op)? {
            return Err(OutOfMemory);
        }
    }
    Ok(())
}
