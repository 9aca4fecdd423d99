// Recovery's test of a tree's frames: each is settled where it is held.
#![tactic(auto)]

pub mod frames;
