// The mean of a smoothing window. Each window is handed on as its part of the values, and summed afresh.
ghost use Rattle.std.specs.Prelude.{◌≡◌, true, ◌<◌, length};
ghost use Rattle.base_terms.specs.Lists.{all_of};
ghost use Rattle.grid.specs.Values.{is_finite};
ghost use Rattle.grid.specs.Durations.{InFrames};
ghost use Rattle.candidate_costs.specs.Window.{smoothing, width_of, window_of, sum_of, mean_of};
ghost use Rattle.candidate_costs.specs.WindowLaws.{Windowed};

// The smoothing time: a window this long, so that a pause between words beats a stop closure.
pub const SMOOTHING: u64 = 150_000_000;

// The width of a window in frames.
#[tactic(auto, unfolding(crate::specs::Window::width_of))]
pub fn smoothing_width(frame_rate: u32, hop: u32) -> usize
    requires { InFrames frame_rate hop smoothing }
    ensures { result ≡ width_of frame_rate hop }
{
    grid::durations::frames_ceil(frame_rate, hop, SMOOTHING).max(1) as usize
}

// The sum of a part, left to right from its first value.
fn sum(part: &[f32]) -> f64
    requires part_nonzero { 0 < length part.now }
    requires part_finite { all_of is_finite part.now ≡ true }
    ensures { result ≡ sum_of part.now }
{
    let mut total = part[0] as f64;
    for value in &part[1..] {
        total += *value as f64;
    }
    total
}

// The mean of the window of frame i.
pub fn mean_at(width: usize, values: &[f32], i: usize) -> f64
    requires windowed { Windowed width values.now }
    requires i_in_bounds { i < length values.now }
    ensures { result ≡ mean_of (window_of width values.now i) }
{
    let half = (width - 1) / 2;
    let from = i.saturating_sub(half);
    let to = (i + (width - half)).min(values.len());
    sum(&values[from..to]) / ((to - from) as f64)
}
