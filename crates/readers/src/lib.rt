#![tactic(auto)]
// Definitions and theorems only: two readers whose calls come in no known order.
