// How many frames a recording has, and how many frames of silence are kept beside sound.
#[derive(Clone, Copy)]
pub struct Padding {
    pub frames: usize,
    // Before sound.
    pub pre: usize,
    // After it.
    pub tail: usize,
}
