#![tactic(auto)]
// Definitions and theorems only: two farms in one memory.
