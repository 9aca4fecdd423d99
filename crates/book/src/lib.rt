// The types that the operations' definitions and their code share: a head's record and its state.

#![tactic(auto)]

// How many heads there are, and how many words their records have. `head_count` of specs/Heads.antt is the same number.
pub const HEADS: usize = 4;

pub const HEAD_WORDS: usize = 5 * HEADS;

// What a head is about: a place of a node in a slot's tree, for a frame.
#[derive(Clone, Copy)]
pub struct Target {
    pub slot: u64,
    pub node: u64,
    pub place: u64,
    pub frame: u64,
}

// A head's state: idle, or a place claimed, or claimed and filled with its frame.
#[derive(Clone, Copy)]
pub enum HeadState {
    Idle,
    Claimed(Target),
    Filled(Target),
}

// A head's record.
#[derive(Clone, Copy)]
pub struct Head {
    pub state: HeadState,
}
