// One node and one slot of the suffix bit tree, in code: each function computes a definition of tree's specs/.
#![tactic(auto)]

pub mod node;
pub mod place;
pub mod reels;
