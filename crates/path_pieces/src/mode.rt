// What a path is asked for.

// Any number of pieces, or exactly this many where there are candidates enough.
#[derive(Clone, Copy)]
pub enum Mode {
    ByLength,
    ByCount(u32),
}
