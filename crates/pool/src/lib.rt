// The pool map, in code: each function computes a definition of tree's specs/.
#![tactic(auto)]

pub mod pool_map;
