// From thresholds to silences: the list of silent runs in one pass over the frames, and how long each stretch below off
// is. The contract of `one_pass::list_silences` cites specs/Sounds and specs/Silences, where hysteresis and the two
// fillings are definitions on lists of sound flags; that of `quiet::quiet_runs` cites specs/Quiet. Laws about them
// stand beside them.
#![tactic(auto)]

pub mod one_pass;
pub mod quiet;
