// What an operation hands back beside its number, at places that the caller lends: counts, and a path's score,
// where it made what was asked for, and else what stood there before. Specs alone: capi's contracts cite them.
#![tactic(auto)]
