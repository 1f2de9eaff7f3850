// A range of a list of flags becomes one value.
ghost use Rattle.std.specs.Prelude.{◌≡◌, ◌≤◌, length};
ghost use Rattle.silence_runs.specs.Runs.{put_run};

// The flags from..to become v.
pub fn fill_range(list: &mut [u32], from: usize, to: usize, v: u32)
    requires { (from ≤ to) × (to ≤ length list.old) }
    ensures { list.new ≡ put_run from to v list.old }
{
    list[from..to].fill(v);
}
