#![tactic(auto)]
// Definitions and theorems only: each contract leaves one outcome.
