// What every plan is that the operation Plan hands out; specs alone.
#![tactic(auto)]
