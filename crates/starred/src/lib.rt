// No code: the starred cases of the paper, and a crash with two claims in one tree; both compute books of 64 frames.

#![tactic(auto)]
