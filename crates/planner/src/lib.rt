// The operation Plan: from a recording and settings to pieces and cuts.
// The contract of `operation::plan` cites specs/Operation.antt.
#![tactic(auto)]

pub mod operation;
