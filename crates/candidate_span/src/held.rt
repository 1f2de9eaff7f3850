// A span as work memory holds it.
#[derive(Clone, Copy)]
pub struct HeldSpan {
    // How many silences stand at the front of the list.
    pub silences: usize,
    // The span's first and last frame boundary.
    pub first: usize,
    pub last: usize,
}
