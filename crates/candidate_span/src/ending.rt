// Which silence of a lent list a search by its end finds.
ghost use Rattle.candidate_span.specs.Ending.{EndsRise, FirstEnding};

// The first silence that does not end before boundary k, or the number of silences.
pub fn first_ending(silences: &[u32], k: usize) -> usize
    requires { EndsRise silences.now }
    ensures { FirstEnding silences.now k result }
{
    let (pairs, _) = silences.as_chunks::<2>();
    pairs.partition_point(|pair| (pair[1] as usize) < k)
}
