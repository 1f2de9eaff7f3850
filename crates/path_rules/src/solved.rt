// What a search answers.
use path_pieces::score::Score;

// A path's score and the number of its candidates.
#[derive(Clone, Copy)]
pub struct Solved {
    pub score: Score,
    pub len: usize,
}
