// The exports that C and Rust programs link with: each calls the function of its name in capi, and says of it what that one does.
#![tactic(auto)]

pub mod best_path;
pub mod convert;
pub mod cut_candidates;
pub mod jobs;
pub mod plan;
pub mod recording;
pub mod records;
pub mod silences;
pub mod work;
