// How frame values become silence and sound: bits 7 to 11 of the map.
ghost use Rattle.std.specs.Prelude.{◌+◌, ◌≤◌};
ghost use Rattle.job.specs.Reads.{HasTried};
ghost use Rattle.job.specs.Segment.{threshold_at, segment_at};

use crate::answer::Refusal;
use crate::fields::Fields;
use kinds::numbered;
use silence_levels::threshold::Threshold;
use silence_list::config::SegmentConfig;

// 7: the kind, and its level where it has one.
fn threshold_at(fields: &mut Fields) -> Result<Threshold, Refusal>
    requires { fields.old.at ≤ 900 }
    ensures next_bound { fields.new.at ≤ fields.old.at + 5 }
    ensures read { HasTried fields.old
        (threshold_at fields.old.job.now fields.old.map fields.old.at) result fields.new }
{
    let present = fields.has(7);
    let kind = fields.kind(present, 2)?;
    let level = fields.f32_if(0 < kind);
    Ok(numbered::threshold_of(kind, level))
}

// 7 to 11: each, or the Rust's default.
pub fn segment_at(fields: &mut Fields) -> Result<SegmentConfig, Refusal>
    requires { fields.old.at ≤ 800 }
    ensures next_bound { fields.new.at ≤ fields.old.at + 37 }
    ensures read { HasTried fields.old
        (segment_at fields.old.job.now fields.old.map fields.old.at) result fields.new }
{
    Ok(SegmentConfig {
        threshold: threshold_at(fields)?,
        min_silence: fields.u64_or(8, 250_000_000),
        min_sound: fields.u64_or(9, 100_000_000),
        pre: fields.u64_or(10, 100_000_000),
        tail: fields.u64_or(11, 200_000_000),
    })
}
