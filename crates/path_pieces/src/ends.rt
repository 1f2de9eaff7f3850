// The candidates' ends: a piece runs from the right end of one candidate to the left end of a later one.

// Where each candidate begins and where it ends, in samples; the two are the same at a cut that drops nothing.
#[derive(Clone, Copy)]
pub struct Ends<'a> {
    pub left: &'a [u64],
    pub right: &'a [u64],
}
