// Boundaries between frames, in samples of the recording.
ghost use Rattle.std.specs.Prelude.{◌≡◌, ◌≤◌, ◌+◌};
ghost use Rattle.grid.specs.Boundary.{Bounded, boundary_of, start_of, covers};

// The numbers of a recording that its frame grid stands on.
// Frame k holds the samples from boundary k up to boundary k + 1.
#[derive(Clone, Copy)]
pub struct FrameGrid {
    pub sample_rate: u32,
    pub frame_rate: u32,
    pub hop: u32,
    pub len: u64,
    pub frames: usize,
}

impl FrameGrid {
    // The first sample of frame k, whatever the length.
    fn start(self, k: u64) -> u64
        requires bounded { Bounded self }
        requires k_bound { k ≤ self.frames + 1 }
        ensures { result ≡ start_of self k }
    {
        k * ((self.hop as u64) * (self.sample_rate as u64)) / (self.frame_rate as u64)
    }

    // Boundary k. The last one is the length.
    pub fn position(self, k: usize) -> u64
        requires { Bounded self }
        ensures { result ≡ boundary_of self k }
    {
        if k < self.frames {
            self.start(k as u64)
        } else {
            self.len
        }
    }

    // Whether the frames cover the length.
    pub fn covered(self) -> bool
        requires { Bounded self }
        ensures { result ≡ covers self }
    {
        let n = self.frames as u64;
        let len = self.len;
        if len == 0 {
            return n == 0;
        }
        0 < n && self.start(n - 1) < len && len < self.start(n + 1)
    }
}
