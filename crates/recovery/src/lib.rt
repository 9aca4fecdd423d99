// Recovery: the check of a whole image, and what is written to it then.
#![tactic(auto)]

pub mod recovery;
