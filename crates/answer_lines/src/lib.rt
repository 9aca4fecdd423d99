// The lines that the bench program prints.
#![tactic(auto)]

pub mod answer;
pub mod decimal;
