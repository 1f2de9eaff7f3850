// The words that definitions of every floor use, on floats, scores and lists. No code and no law: specs/ holds
// definitions alone, and the first line of each file says which.
#![tactic(auto)]
