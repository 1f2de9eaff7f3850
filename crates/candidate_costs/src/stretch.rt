// The stretch below off at a boundary.
ghost use Rattle.std.specs.Prelude.{◌≡◌, ◌≤◌, ◌<◌, length};
ghost use Rattle.candidate_costs.specs.Stretch.{stretch_at, secs_of};

// The longer stretch of the frames around boundary k, in frames. `runs` has for each frame the length of its own.
pub fn stretch_at(runs: &[u32], k: usize) -> u32
    requires runs_nonzero { 0 < length runs.now }
    requires k_in_bounds { k ≤ length runs.now }
    ensures { result ≡ stretch_at runs.now k }
{
    if k == 0 {
        return runs[0];
    }
    if k == runs.len() {
        return runs[k - 1];
    }
    runs[k - 1].max(runs[k])
}

// So many frames in seconds.
pub fn secs_of(frame_secs: f64, frames: u32) -> f64
    ensures { result ≡ secs_of frame_secs frames }
{
    (frames as f64) * frame_secs
}
