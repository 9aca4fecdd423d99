// A memory module with line flushes: our scripts translated for it.
#![tactic(auto)]

pub mod translate;
