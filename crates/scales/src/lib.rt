#![tactic(auto)]
// Definitions and theorems only: what a scale may rely on of its working memory.
