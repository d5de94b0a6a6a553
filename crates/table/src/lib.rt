#![tactic(auto)]
// The formats: one constant table for all who go by the limits of one.
pub mod formats;
