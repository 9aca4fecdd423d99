// The check of a reel's tree, which marks its nodes in a map, and what is done to marked nodes.
#![tactic(auto)]

pub mod marked;
pub mod visit;
