#![tactic(auto)]
// What a call answers in place of an effect: a house number, which writes nothing at all, or the status of a command's completion.
pub mod numbers;
pub mod statuses;
