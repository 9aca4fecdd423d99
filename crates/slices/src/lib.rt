// Parts of slices that are lent on: no code, lemmas alone, below the three layers and of none.

#![tactic(auto)]
