// Fingerprints in code: the paper's table, a mill's own, and a frame's fold over either.
#![tactic(auto)]

pub mod fingerprint;
pub mod own_table;
mod tables;
