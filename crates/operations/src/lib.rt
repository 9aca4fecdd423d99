// What every operation in code begins and ends with: the first checks, the heads, what is handed to the driver. The
// operations themselves are in the crates above; each computes what book's `perform` says.
#![tactic(auto)]

pub mod answer;
pub mod checks;
pub mod hand_over;
pub mod head_words;
pub mod heads;
pub mod node_script;
