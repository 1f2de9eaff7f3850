// The pieces and cuts of a plan as records, each made of its three numbers.
// Contracts cite the file of specs/ that has the module's name, and Records.
// `records::write_records` writes whole lists of either; what its proof cites of such a list stands in specs/RecordsLaws.
#![tactic(auto)]

pub mod cuts;
pub mod pieces;
pub mod records;
