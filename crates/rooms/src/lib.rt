// The writers of a claim's script, apart from Claim itself, so that an edit of either proves a small crate.
#![tactic(auto)]

pub mod room_script;
