// The lines of the bench program: reading them, and collecting them from pieces of input.
#![tactic(auto)]

pub mod bytes;
pub mod field;
pub mod input;
pub mod line;
