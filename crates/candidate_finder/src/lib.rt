// From a recording and the settings of a plan to its candidates in work memory.
// `prepare::prepare` serves the candidate list and Plan: its contract cites specs/Prepare.
// That of `finder::find_candidates` cites specs/CandidatesIn, and specs/FinderLaws for how candidates stand there.
#![tactic(auto)]

pub mod finder;
pub mod grid_point_marks;
pub mod prepare;
pub mod silences_and_levels;
