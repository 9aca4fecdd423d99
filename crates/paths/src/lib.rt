// The walks along a frame's path: the lookup, and the room for a claim.
#![tactic(auto)]

pub mod descent;
