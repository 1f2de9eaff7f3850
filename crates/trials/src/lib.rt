// Document 01's ten starred trials in one table; specs alone.
#![tactic(auto)]
