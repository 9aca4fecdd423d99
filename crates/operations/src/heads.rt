// The heads, as an array of records.
ghost use Rattle.std.specs.Prelude.{◌≡◌, ◌<◌};
ghost use Rattle.book.specs.Heads.{head_count, names};
ghost use Rattle.operations.specs.HeadLists.{state_in, busy_in};

use book::{HEADS, Head, HeadState};

// The state of head h.
pub fn state_in(heads: [Head; HEADS], h: usize) -> HeadState
    requires { h < head_count }
    ensures { result ≡ state_in heads h }
{
    let head = heads[h];
    head.state
}

// Does a head that is not idle name the slot?
fn names(slot: usize, state: HeadState) -> bool
    ensures { result ≡ names slot state }
{
    match state {
        HeadState::Idle => false,
        HeadState::Claimed(t) | HeadState::Filled(t) => t.slot == slot as u64,
    }
}

// Busy: some head that is not idle names the slot.
pub fn is_busy(heads: [Head; HEADS], slot: usize) -> bool
    ensures { result ≡ busy_in heads slot }
{
    heads.iter().any(|head| names(slot, head.state))
}
