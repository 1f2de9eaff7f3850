// The settings of a plan, as C hands them over.
ghost use Rattle.std.specs.Prelude.{◌≡◌};
ghost use Rattle.capi.specs.Settings.{weights_of, plan_config_of};

use kinds::{flagged, numbered};
use path_pieces::weights::Weights;
use plan_settings::config::PlanConfig;

// The weights with these numbers.
pub fn weights_of(
    cut: f64,
    level: f64,
    pause: f64,
    pause_ref: u64,
    target: f64,
    short: f64,
) -> Weights
    ensures { result ≡ weights_of cut level pause pause_ref target short }
{
    Weights {
        cut,
        level,
        pause,
        pause_ref,
        target,
        short,
    }
}

// The settings of a plan with these numbers.
pub fn plan_config(
    min: u64,
    target: u64,
    max: u64,
    by_count: bool,
    count: u32,
    drop_gaps: bool,
    placement_kind: u8,
    ratio: f32,
    weights: Weights,
) -> PlanConfig
    ensures { result ≡ plan_config_of min target max by_count count drop_gaps placement_kind ratio weights }
{
    PlanConfig {
        min,
        target,
        max,
        mode: flagged::mode_of(by_count, count),
        gap: flagged::gap_of(drop_gaps),
        placement: numbered::placement_of(placement_kind, ratio),
        weights,
    }
}
