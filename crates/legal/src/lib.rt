#![tactic(auto)]
// Whether the two parts of one namespace are the image of a map.
pub mod checks;
