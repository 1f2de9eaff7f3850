// No code. A parser of listings, that it gives back the plan that was listed, and that it takes nothing but listings:
// specs/, where the first line of each file says what it holds.
#![tactic(auto)]
