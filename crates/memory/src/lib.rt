// Persistent memory, the lowest layer: words with their bits and bytes, the one search, scripts of
// stores and barriers, and carrying a script out.
#![tactic(auto)]

pub mod apply;
pub mod script;
pub mod search;
pub mod words;
