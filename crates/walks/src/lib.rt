// A reel's tree listed, and given back to the pool. Each function computes a definition of tree's specs/ or of this crate's.
#![tactic(auto)]

pub mod listing;
pub mod trees;
