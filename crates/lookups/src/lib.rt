// The operations that look a frame up in its reel: Has and Remove.
#![tactic(auto)]

pub mod frames;
