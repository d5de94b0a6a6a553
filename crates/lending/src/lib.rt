#![tactic(auto)]
// Definitions and theorems only: what a call goes by of all that it is lent, and what it leaves.
