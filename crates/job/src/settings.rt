// The settings of a plan: bits 0 to 6 of the map.
ghost use Rattle.std.specs.Prelude.{◌≡◌, ◌+◌, ◌≤◌};
ghost use Rattle.job.specs.Reads.{HasRead, HasTried};
ghost use Rattle.job.specs.Settings.{mode_at, gap_at, placement_at};
ghost use Rattle.job.specs.Settings.{default_weights, weights_at, settings_at};

use crate::answer::Refusal;
use crate::fields::Fields;
use kinds::{flagged, numbered};
use path_pieces::mode::Mode;
use path_pieces::weights::Weights;
use plan_settings::config::{Gap, Placement, PlanConfig};

// 3: by count where there is a count.
fn mode_at(fields: &mut Fields) -> Mode
    requires { fields.old.at ≤ 900 }
    ensures next_bound { fields.new.at ≤ fields.old.at + 4 }
    ensures read { HasRead fields.old
        (mode_at fields.old.job.now fields.old.map fields.old.at) result fields.new }
{
    if !fields.has(3) {
        return Mode::ByLength;
    }
    Mode::ByCount(fields.next())
}

// 4: whether gaps are dropped.
fn gap_at(fields: &mut Fields) -> Result<Gap, Refusal>
    requires { fields.old.at ≤ 900 }
    ensures next_bound { fields.new.at ≤ fields.old.at + 1 }
    ensures read { HasTried fields.old
        (gap_at fields.old.job.now fields.old.map fields.old.at) result fields.new }
{
    let present = fields.has(4);
    let kind = fields.kind(present, 1)?;
    Ok(flagged::gap_of(0 < kind))
}

// 5: the kind, and its ratio where it has one.
fn placement_at(fields: &mut Fields) -> Result<Placement, Refusal>
    requires { fields.old.at ≤ 900 }
    ensures next_bound { fields.new.at ≤ fields.old.at + 5 }
    ensures read { HasTried fields.old
        (placement_at fields.old.job.now fields.old.map fields.old.at) result fields.new }
{
    let present = fields.has(5);
    let kind = fields.kind(present, 2)?;
    let ratio = fields.f32_if(kind == 2);
    Ok(numbered::placement_of(kind, ratio))
}

// The Rust's `Weights::default`.
fn default_weights() -> Weights
    ensures { result ≡ default_weights }
{
    Weights {
        cut: 0.1,
        level: 1.0,
        pause: 1.0,
        pause_ref: 500_000_000,
        target: 1.0,
        short: 4.0,
    }
}

// 6: all weights, or their defaults.
fn weights_at(fields: &mut Fields) -> Weights
    requires { fields.old.at ≤ 900 }
    ensures next_bound { fields.new.at ≤ fields.old.at + 48 }
    ensures read { HasRead fields.old
        (weights_at fields.old.job.now fields.old.map fields.old.at) result fields.new }
{
    if !fields.has(6) {
        return default_weights();
    }
    Weights {
        cut: fields.next(),
        level: fields.next(),
        pause: fields.next(),
        pause_ref: fields.next(),
        target: fields.next(),
        short: fields.next(),
    }
}

// 0 to 6: each, or the Rust's default.
pub fn settings_at(fields: &mut Fields) -> Result<PlanConfig, Refusal>
    requires { fields.old.at ≤ 700 }
    ensures next_bound { fields.new.at ≤ fields.old.at + 82 }
    ensures read { HasTried fields.old
        (settings_at fields.old.job.now fields.old.map fields.old.at) result fields.new }
{
    Ok(PlanConfig {
        min: fields.u64_or(0, 5_000_000_000),
        target: fields.u64_or(1, 15_000_000_000),
        max: fields.u64_or(2, 30_000_000_000),
        mode: mode_at(fields),
        gap: gap_at(fields)?,
        placement: placement_at(fields)?,
        weights: weights_at(fields),
    })
}
