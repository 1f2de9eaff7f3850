// Input read to its end, by one `read` after another.
// Contracts cite specs/Input.antt; laws about it stand in specs/InputLaws.antt.
#![tactic(auto)]

pub mod input;
