//! The text of statistics.
ghost use Rattle.std.specs.Prelude.{◌≡◌, ◌++◌, OnOk, OnErr, codes, decimal, map};
ghost use Rattle.std.specs.List.{flat_map};
ghost use Rattle.mvcc_key.specs.Field.{all_fields};
ghost use Rattle.stat_core.specs.ComputeStats as sums;
ghost use Rattle.stat_core.specs.views.Seen.{field_of};
ghost use Rattle.script_text.specs.Statistics.{field_text, statistics_line};
ghost use Rattle.script_text.specs.views.Appending.{Extends};

use crate::pieces::{append, append_number, append_numbered};
use mvcc_key::OutOfMemory;
use stat_core::{Field, Stats};

/// The bounded statistics, in the order in which they are printed.
fn fields() -> [Field; 14]
    ensures { map field_of result ≡ all_fields }
{
    [
        Field::KeyCount,
        Field::KeyBytes,
        Field::ValCount,
        Field::ValBytes,
        Field::LiveCount,
        Field::LiveBytes,
        Field::IntentCount,
        Field::IntentBytes,
        Field::IntentAge,
        Field::GcBytesAge,
        Field::RangeKeyCount,
        Field::RangeKeyBytes,
        Field::RangeValCount,
        Field::RangeValBytes,
    ]
}

/// Appends the line of the statistics.
#[tactic(auto, unfolding(crate::specs::Statistics::statistics_line))]
pub fn append_statistics(stats: &Stats, into: &mut Vec<u8>) -> Result<(), OutOfMemory>
    ensures ok { OnOk result (into.new.items ≡ into.old.items ++ statistics_line stats.now.sums stats.now.last) }
    ensures err { OnErr result (Extends into.old.items into.new.items) }
{
    append(b"stats:", into)?;
    append_fields(stats, into)?;
    append_moment(stats, into)?;
    append(b"\n", into)?;
    Ok(())
}

/// Appends the moment at which the statistics stand, by its name.
fn append_moment(stats: &Stats, into: &mut Vec<u8>) -> Result<(), OutOfMemory>
    ensures ok { OnOk result (into.new.items ≡ into.old.items ++ (codes " last_update_nanos=" ++ decimal stats.now.last)) }
    ensures err { OnErr result (Extends into.old.items into.new.items) }
{
    append_numbered(b" last_update_nanos=", stats.last_update_nanos(), into)
}

/// Appends the bounded statistics by their names, one after another.
fn append_fields(stats: &Stats, into: &mut Vec<u8>) -> Result<(), OutOfMemory>
    ensures ok { OnOk result (into.new.items ≡ into.old.items ++ flat_map (field_text stats.now.sums) all_fields) }
    ensures err { OnErr result (Extends into.old.items into.new.items) }
{
    let fields = fields();
    for field in &fields {
        append_field(stats, *field, into)?;
    }
    Ok(())
}

/// Appends a statistic by its name.
#[tactic(auto, unfolding(crate::specs::Statistics::field_text))]
fn append_field(stats: &Stats, field: Field, into: &mut Vec<u8>) -> Result<(), OutOfMemory>
    ensures ok { OnOk result (into.new.items ≡ into.old.items ++ field_text stats.now.sums (field_of field)) }
    ensures err { OnErr result (Extends into.old.items into.new.items) }
{
    append(b" ", into)?;
    append(field.name().as_bytes(), into)?;
    append(b"=", into)?;
    append_number(value_of(stats, field), into)?;
    Ok(())
}

/// The value of a statistic.
fn value_of(stats: &Stats, field: Field) -> u64
    ensures { result ≡ sums.field (field_of field) stats.now.sums }
{
    match field {
        Field::KeyCount => stats.key_count(),
        Field::KeyBytes => stats.key_bytes(),
        Field::ValCount => stats.val_count(),
        Field::ValBytes => stats.val_bytes(),
        Field::LiveCount => stats.live_count(),
        Field::LiveBytes => stats.live_bytes(),
        Field::IntentCount => stats.intent_count(),
        Field::IntentBytes => stats.intent_bytes(),
        Field::IntentAge => stats.intent_age(),
        Field::GcBytesAge => stats.gc_bytes_age(),
        Field::RangeKeyCount => stats.range_key_count(),
        Field::RangeKeyBytes => stats.range_key_bytes(),
        Field::RangeValCount => stats.range_val_count(),
        Field::RangeValBytes => stats.range_val_bytes(),
    }
}
