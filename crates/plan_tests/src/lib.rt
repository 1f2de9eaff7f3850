// What a plan is asked for, tested before any work: refusals 1 to 11 and 13 of the operation Plan.
// The contract of `refusal::first_refusal` cites specs/Refusal;
// `fine_ready` of specs/PlanReady says what is left for the work.
#![tactic(auto)]

pub mod refusal;
