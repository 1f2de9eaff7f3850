// Minimum, target and limit of a plan's pieces in samples, with the weights: by length and by count.
ghost use Rattle.std.specs.Prelude.{◌≡◌};
ghost use Rattle.plan_lengths.specs.PlanLengths.{Timed, InPieces, maximum_in, target_by_count};
ghost use Rattle.plan_lengths.specs.PlanLengths.{lengths_with, lengths_by_length, lengths_by_count};

use grid::{FrameGrid, durations};
use path_pieces::lengths::Lengths;
use plan_settings::config::PlanConfig;

// The maximum in whole samples, rounded down: a longer piece is flagged long.
pub fn maximum(g: FrameGrid, settings: PlanConfig) -> u64
    requires { Timed g settings }
    ensures { result ≡ maximum_in g settings }
{
    durations::samples_floor(g.sample_rate, settings.max)
}

// What is preferred with this target, under this limit.
fn lengths_with(g: FrameGrid, settings: PlanConfig, target: f64, limit: u64) -> Lengths
    requires { Timed g settings }
    ensures { result ≡ lengths_with g settings target limit }
{
    Lengths {
        min: durations::samples_in(g.sample_rate, settings.min),
        target,
        limit,
        weights: settings.weights,
    }
}

// By length: the settings' target, and the maximum as the limit.
pub fn lengths_by_length(g: FrameGrid, settings: PlanConfig) -> Lengths
    requires { Timed g settings }
    ensures { result ≡ lengths_by_length g settings }
{
    let target = durations::samples_in(g.sample_rate, settings.target);
    lengths_with(g, settings, target, maximum(g, settings))
}

// By count the target is the span's length over the count, whatever target the settings have.
fn target_by_count(g: FrameGrid, first: usize, last: usize, count: usize) -> f64
    requires { InPieces g first last count }
    ensures { result ≡ target_by_count g first last count }
{
    let span = g.position(last) - g.position(first);
    (span as f64) / (count as f64)
}

// By count: the span from boundary first to boundary last, in so many pieces.
// The limit is the maximum at first, and the reach once one was sought.
pub fn lengths_by_count(
    g: FrameGrid,
    settings: PlanConfig,
    first: usize,
    last: usize,
    count: usize,
    limit: u64,
) -> Lengths
    requires timed { Timed g settings }
    requires in_pieces { InPieces g first last count }
    ensures { result ≡ lengths_by_count g settings first last count limit }
{
    let target = target_by_count(g, first, last, count);
    lengths_with(g, settings, target, limit)
}
