#![tactic(auto)]
// Definitions and theorems only: what a gate reader may rely on of the quick look.
