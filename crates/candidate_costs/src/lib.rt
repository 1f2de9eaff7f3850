// What a cut costs: the level and the quiet stretch at each frame boundary, and the cost made of them.
// Contracts cite specs/Window, specs/Normalize, specs/Level, specs/Stretch, specs/Cost and specs/Quietest; laws stand
// beside each.
#![tactic(auto)]

pub mod cost;
pub mod level;
pub mod quietest;
pub mod stretch;
pub mod window;
