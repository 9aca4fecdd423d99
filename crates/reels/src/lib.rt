// The operations on a whole reel: Open, List, Retire and Tidy.
#![tactic(auto)]

mod begin;
pub mod list;
pub mod open;
pub mod retire;
pub mod tidy;
