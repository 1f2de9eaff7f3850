// The rules of a path, below both searches: what a path is, which are allowed, what they score, which is best, and the
// tie rule, by length and by count. All of it is specs/, where the first line of each file says what it holds; the one
// struct is what a search answers.
#![tactic(auto)]

pub mod solved;
