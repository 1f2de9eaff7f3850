// Whether a recording has a frame with signal.
ghost use Rattle.std.specs.Prelude.{◌≡◌};
ghost use Rattle.silence_levels.specs.Keys.{any_signal};

// Whether any frame has signal: the first that does decides.
pub fn any_signal(flags: &[u8]) -> bool
    ensures { result ≡ any_signal flags.now }
{
    flags.contains(&0)
}
