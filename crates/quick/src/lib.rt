#![tactic(auto)]
// Whether a key is stored, by a look at few records and with no pass over memory.
pub mod heads;
pub mod looks;
pub mod searches;
pub mod tags;
