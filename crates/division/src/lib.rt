// No code. What a division of a span is, the reach and the two divisions that completion by count takes its cuts from,
// and the theorems that demand 3 stands on: specs/, where the first line of each file says what it holds.
#![tactic(auto)]
