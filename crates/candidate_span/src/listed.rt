// A lent list of silences: silence i has its first frame at 2 i, and the frame after its last at 2 i + 1.
ghost use Rattle.std.specs.Prelude.{◌≡◌, ◌<◌};
ghost use Rattle.candidate_span.specs.Listed.{silence_count, start_at, end_at};

// The first frame of silence i.
pub fn start_at(silences: &[u32], i: usize) -> usize
    requires { i < silence_count silences.now }
    ensures { result ≡ start_at silences.now i }
{
    silences[2 * i] as usize
}

// The frame after its last.
pub fn end_at(silences: &[u32], i: usize) -> usize
    requires { i < silence_count silences.now }
    ensures { result ≡ end_at silences.now i }
{
    silences[2 * i + 1] as usize
}
