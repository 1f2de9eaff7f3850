// What C and Rust programs call. No function asks anything of its caller but what its types say.
#![tactic(auto)]

pub mod best_path;
pub mod convert;
pub mod cut_candidates;
pub mod jobs;
pub mod plan;
pub mod recording;
pub mod records;
pub mod settings;
pub mod silences;
pub mod work;
