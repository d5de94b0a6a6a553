#![tactic(auto)]
// The map of one namespace in the two slices, read. Above here a contract speaks of maps, below of slots in two parts; the border is crossed in these
// functions and in those of `changes`.
pub mod describes;
mod lists;
pub mod looks;
