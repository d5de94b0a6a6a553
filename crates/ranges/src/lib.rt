#![tactic(auto)]
// What an entry asks of working memory, and which number or status refuses it.
pub mod requests;
