// Which of two candidates with their scores comes first.
ghost use Rattle.std.specs.Prelude.{◌≡◌};
ghost use Rattle.path_pieces.specs.Least.{ahead_of};
ghost use Rattle.path_by_count_tree.specs.Least.{ahead_best};

use path_pieces::best::Best;

// Whether a has a better score than b, or an equal one and a lower index.
//
// It is `a < b`, written over the fields: with the derived `<`, of candidates or of scores, the search by count took 12 %
// longer (4,000 candidates and 60 pieces: 74.6 ms in place of 66.5).
#[tactic(auto, unfolding(path_pieces::specs::Least::ahead_of))]
pub fn ahead(a: Best, b: Best) -> bool
    ensures { result ≡ ahead_of a b }
{
    a.score.over < b.score.over
        || (a.score.over == b.score.over
            && (a.score.cost < b.score.cost || (a.score.cost == b.score.cost && a.at < b.at)))
}

// The one of a and b that comes first.
pub fn first_of(a: Best, b: Best) -> Best
    ensures { result ≡ ahead_best a b }
{
    if ahead(a, b) { a } else { b }
}
