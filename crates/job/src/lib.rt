// The reader of a job: from bytes to the settings and the recording that a plan is asked with,
// or where and why they are no job.
// The contract of `read::read` cites specs/Job, which reads like the table of document 01, "The job and the listing".
#![tactic(auto)]

pub mod answer;
pub mod fields;
pub mod lists;
pub mod read;
pub mod recording;
pub mod segment;
pub mod settings;
