// The operation "candidate list": from a recording and the settings of a plan to the list of its candidates,
// before completion adds to them.
// The contract of `list::candidate_list` cites specs/CandidateList.
#![tactic(auto)]

pub mod list;
