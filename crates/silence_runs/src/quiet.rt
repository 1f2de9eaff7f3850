// Which frames are below the off threshold, with no hysteresis and no filling, and how long each stretch of them is.
ghost use Rattle.std.specs.Prelude.{◌≡◌, ◌-◌, ◌≤◌, length};
ghost use Rattle.silence_runs.specs.Runs.{put_run};
ghost use Rattle.silence_runs.specs.Quiet.{below_at, below_off, quiet_runs};

use grid::Readings;

// One where a frame has flag 1 or is below off, and else 0: what stands for it in the work list.
#[tactic(auto, unfolding(crate::specs::Quiet::below_at))]
fn below_at(off: f32, value: f32, flag: u8) -> u32
    ensures { result ≡ below_at off value flag }
{
    u32::from(flag == 1 || value < off)
}

// Writes for each frame whether it is below off.
pub fn below_off(off: f32, readings: &Readings, below: &mut [u32])
    requires { (length readings.now.flags.now ≡ length readings.now.values.now)
        × (length below.old ≡ length readings.now.values.now) }
    ensures { below.new ≡ below_off off readings.now.values.now readings.now.flags.now }
{
    for (i, frame) in below.iter_mut().enumerate() {
        *frame = below_at(off, readings.values[i], readings.flags[i]);
    }
}

// The flags from start to end become their own number.
fn measure_run(below: &mut [u32], start: usize, end: usize)
    requires { (start ≤ end) × (end ≤ length below.old) × (length below.old ≤ 4294967295) }
    ensures { below.new ≡ put_run start end (end - start) below.old }
{
    below[start..end].fill((end - start) as u32);
}

// For each frame that is below off the length of its run of such frames takes the place of its flag.
pub fn quiet_runs(below: &mut [u32])
    requires { length below.old ≤ 4294967295 }
    ensures { below.new ≡ quiet_runs below.old }
{
    let mut start = 0;
    // By index: the runs behind frame i are written while the list is read.
    for i in 0..below.len() {
        if below[i] != 1 {
            measure_run(below, start, i);
            start = i + 1;
        }
    }
    measure_run(below, start, below.len());
}
