// A candidate, and which of two survives.
ghost use Rattle.std.specs.Prelude.{◌≡◌};
ghost use Rattle.candidates.specs.Candidates.{reason_number, node, cheaper};

// What a cut falls in.
#[derive(Clone, Copy)]
pub enum Reason {
    // A silence's own candidate, or a point in silence outside the padding.
    Silence,
    // Not silence, but within the quietest quarter of the level range.
    Quiet,
    // Anywhere else.
    Forced,
}

// A possible cut: the earlier piece ends at frame boundary `left`, the later starts at `right`.
#[derive(Clone, Copy)]
pub struct Candidate {
    pub left: usize,
    pub right: usize,
    pub cost: f64,
    pub reason: Reason,
}

// Document 01's order of the reasons, as numbers.
impl From<Reason> for u32 {
    ghost from_gives = { λ r n. n ≡ reason_number r };

    fn from(reason: Reason) -> u32 {
        match reason {
            Reason::Silence => 0,
            Reason::Quiet => 1,
            Reason::Forced => 2,
        }
    }
}

// The start or the end of the span, at boundary k.
pub fn node(k: usize) -> Candidate
    ensures { result ≡ node k }
{
    Candidate {
        left: k,
        right: k,
        cost: 0.0,
        reason: Reason::Forced,
    }
}

// Of two candidates the cheaper, the earlier listed on equal cost. Floats have no `Ord`: std's `min` is no plainer.
#[tactic(auto, unfolding(crate::specs::Candidates::cheaper))]
pub fn cheaper(earlier: Candidate, later: Candidate) -> Candidate
    ensures { result ≡ cheaper earlier later }
{
    if later.cost < earlier.cost {
        later
    } else {
        earlier
    }
}
