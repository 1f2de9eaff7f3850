// No code. A path over a plan's candidates is a division of the span, and the best one over completed candidates meets
// demand 3: specs/, where the first line of each file says what it holds.
#![tactic(auto)]
