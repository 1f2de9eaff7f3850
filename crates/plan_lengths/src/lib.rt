// What a plan prefers of its pieces' lengths, for the path search.
// Contracts cite specs/PlanLengths.antt; specs/PlanLengthsLaws.antt says that the search may be asked with it.
#![tactic(auto)]

pub mod lengths;
