// No code. The laws about floats that the path and the bound stand on are in specs/, where the first line of each file
// says what it holds.
#![tactic(auto)]
