// The operation "silence list": from a recording and its segment settings to the list of its silences.
// The contract of `list::silence_list` cites specs/Silences; that of `refusal::first_refusal` cites specs/Refusal.
#![tactic(auto)]

pub mod config;
pub mod list;
pub mod refusal;
