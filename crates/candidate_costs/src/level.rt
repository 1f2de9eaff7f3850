// The level of each frame on a scale from 0 to 1, and the mean of it around each boundary.
ghost use Rattle.std.specs.Prelude.{◌≡◌, ◌<◌, length};
ghost use Rattle.base_terms.specs.Lists.{onto};
ghost use Rattle.candidate_costs.specs.Normalize.{range_of, normalize_of};
ghost use Rattle.candidate_costs.specs.NormalizeLaws.{Scaled};
ghost use Rattle.candidate_costs.specs.Level.{smoothed_at, frame_level, boundary_levels};
ghost use Rattle.candidate_costs.specs.LevelLaws.{Measured};

use crate::window;
use base_code::floats;
use grid::Readings;
use grid::validate::Domain;
use silence_levels::threshold::Levels;

// A narrower range of decibels would make noise look loud.
const MIN_RANGE_DB: f64 = 20.0;

// How many decibels the scale spans.
fn range(scale: Levels) -> f64
    requires { Scaled scale }
    ensures { result ≡ range_of scale }
{
    floats::max((scale.reference - scale.floor) as f64, MIN_RANGE_DB)
}

// A smoothed value on the scale.
fn normalize(domain: Domain, scale: Levels, value: f64) -> f64
    requires { Scaled scale }
    ensures { result ≡ normalize_of domain scale value }
{
    match domain {
        Domain::Scores => floats::clamp(value, 0.0, 1.0),
        Domain::Decibels => {
            let above = value - scale.floor as f64;
            floats::clamp(above / range(scale), 0.0, 1.0)
        }
    }
}

// The smoothed value of frame i: decibels come smoothed.
#[tactic(auto, unfolding(crate::specs::Level::smoothed_at))]
fn smoothed_at(domain: Domain, width: usize, readings: &Readings, i: usize) -> f64
    requires measured { Measured domain width readings.now.values.now readings.now.levels.now }
    requires i_in_bounds { i < length readings.now.values.now }
    ensures { result ≡ smoothed_at domain width readings.now.values.now readings.now.levels.now i }
{
    match domain {
        Domain::Scores => window::mean_at(width, readings.values, i),
        Domain::Decibels => readings.levels[i],
    }
}

// The level of frame i.
#[tactic(auto, unfolding(crate::specs::Level::frame_level))]
fn frame_level(domain: Domain, scale: Levels, width: usize, readings: &Readings, i: usize) -> f64
    requires scaled { Scaled scale }
    requires measured { Measured domain width readings.now.values.now readings.now.levels.now }
    requires i_in_bounds { i < length readings.now.values.now }
    ensures { result ≡ frame_level domain scale width readings.now.values.now readings.now.levels.now i }
{
    normalize(domain, scale, smoothed_at(domain, width, readings, i))
}

// Writes the level of each boundary, one more than there are frames. Only the level of the frame before is held.
pub fn fill_levels(
    domain: Domain,
    scale: Levels,
    width: usize,
    readings: &Readings,
    out: &mut [f64],
)
    requires scaled { Scaled scale }
    requires measured { Measured domain width readings.now.values.now readings.now.levels.now }
    requires values_nonzero { 0 < length readings.now.values.now }
    requires values_in_bounds { length readings.now.values.now < length out.old }
    ensures { out.new ≡
        onto (boundary_levels domain scale width readings.now.values.now readings.now.levels.now) out.old }
{
    let n = readings.values.len();
    let mut before = frame_level(domain, scale, width, readings, 0);
    out[0] = before / 1.0;
    for k in 1..n {
        let here = frame_level(domain, scale, width, readings, k);
        out[k] = (before + here) / 2.0;
        before = here;
    }
    out[n] = before / 1.0;
}
