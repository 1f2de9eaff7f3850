// Where each part of each work list stands, in one place: for a recording of so many frames, and for a search over so
// many candidates.
// docs/ARCHITECTURE.md has the picture. The contracts cite specs/Layout of base_terms.
ghost use Rattle.std.specs.Prelude.{◌≡◌, ◌<◌};
ghost use Rattle.base_terms.specs.Layout.{side, runs_at, marks_at, entries_at, search_at, path_at};
ghost use Rattle.base_terms.specs.Layout.{rights_at, costs_at, scores_at, end_f64};
ghost use Rattle.base_terms.specs.Layout.{behind_table, end_by_length, behind_tree, end_by_count};

// The work lists of a plan: each place follows from the number of the recording's frames.
#[derive(Clone, Copy)]
pub struct Layout {
    pub frames: usize,
    pub ghost bounded: { frames < 4294967296 },
}

impl Layout {
    // The frame boundaries.
    pub fn side(self) -> usize
        ensures { result ≡ side self.frames }
    {
        self.frames + 1
    }

    // u32: each frame's quiet stretch.
    pub fn runs_at(self) -> usize
        ensures { result ≡ runs_at self.frames }
    {
        self.frames + 1
    }

    // u32: a mark for each boundary with a point.
    pub fn marks_at(self) -> usize
        ensures { result ≡ marks_at self.frames }
    {
        2 * (self.frames + 1)
    }

    // u32: three numbers for each candidate.
    pub fn entries_at(self) -> usize
        ensures { result ≡ entries_at self.frames }
    {
        3 * (self.frames + 1)
    }

    // u32: the search's part.
    pub fn search_at(self) -> usize
        ensures { result ≡ search_at self.frames }
    {
        6 * (self.frames + 1)
    }

    // u32: the path.
    pub fn path_at(self) -> usize
        ensures { result ≡ path_at self.frames }
    {
        11 * (self.frames + 1)
    }

    // u64: the candidates' right positions.
    pub fn rights_at(self) -> usize
        ensures { result ≡ rights_at self.frames }
    {
        self.frames + 1
    }

    // f64: a cost for each candidate.
    pub fn costs_at(self) -> usize
        ensures { result ≡ costs_at self.frames }
    {
        self.frames + 1
    }

    // f64: the search's part.
    pub fn scores_at(self) -> usize
        ensures { result ≡ scores_at self.frames }
    {
        2 * (self.frames + 1)
    }

    // f64: behind the search's part.
    pub fn end_f64(self) -> usize
        ensures { result ≡ end_f64 self.frames }
    {
        7 * (self.frames + 1)
    }
}

// A search's part of both lists: each place follows from the number of its candidates.
#[derive(Clone, Copy)]
pub struct SearchLayout {
    pub candidates: usize,
    pub ghost bounded: { candidates < 4294967296 },
}

impl SearchLayout {
    // By length: behind the parents, and the cuts' costs.
    pub fn end_by_length(self) -> usize
        ensures { result ≡ end_by_length self.candidates }
    {
        self.candidates + self.candidates
    }

    // By count: the first starts, and the cuts' costs.
    pub fn behind_tree(self) -> usize
        ensures { result ≡ behind_tree self.candidates }
    {
        self.candidates * 4
    }

    // By count: behind these.
    pub fn end_by_count(self) -> usize
        ensures { result ≡ end_by_count self.candidates }
    {
        self.candidates * 5
    }
}

// By length: the parents, and the cuts' costs. It asks no bound of n, as a method of `SearchLayout` would.
pub fn behind_table(n: usize) -> usize
    ensures { result ≡ behind_table n }
{
    n
}
