// The program `cutplan`, from the bytes of a job to those of its listing. Contracts cite specs/Cutplan.antt.
#![tactic(auto)]

pub mod answer;
pub mod lists;
pub mod memory;
pub mod plan;
