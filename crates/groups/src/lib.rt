// Empty groups of children: sought in a reel's tree, and given back to the pool.
#![tactic(auto)]

pub mod group;
pub mod search;
