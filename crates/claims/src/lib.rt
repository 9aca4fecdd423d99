// The operation that finds or makes a place for a frame: Claim.
#![tactic(auto)]

pub mod claim;
pub mod conflicts;
