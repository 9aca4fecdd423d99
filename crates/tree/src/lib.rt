// The suffix bit tree: the types that its definitions and all code share, where words stand, and what is passed on of the
// layer below.
#![tactic(auto)]

pub mod layout;
pub mod path;
pub mod persistent;
