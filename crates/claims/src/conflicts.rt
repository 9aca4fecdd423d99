// The heads that conflict with a claim.
ghost use Rattle.std.specs.Prelude.{◌≡◌, ◌&&◌, ◌||◌, eqb};
ghost use Rattle.book.specs.Heads.{conflicts};
ghost use Rattle.operations.specs.HeadLists.{any_in};

use book::{HEADS, Head, HeadState, Target};

// Is a target in the claim's slot, with the same frame or, if the claim uses a node, at that very one?
fn meets(claim: Target, uses: bool, t: Target) -> bool
    ensures { result
        ≡ (eqb t.slot claim.slot && (eqb t.frame claim.frame || (uses && eqb t.node claim.node))) }
{
    (t.slot == claim.slot) & ((t.frame == claim.frame) | (uses & (t.node == claim.node)))
}

// Does a head that is not idle conflict with the claim?
fn conflicts(claim: Target, uses: bool, state: HeadState) -> bool
    ensures { result ≡ conflicts claim uses state }
{
    match state {
        HeadState::Idle => false,
        HeadState::Claimed(t) => meets(claim, uses, t),
        HeadState::Filled(t) => meets(claim, uses, t),
    }
}

// Some head does.
pub fn has_conflict(heads: [Head; HEADS], claim: Target, uses: bool) -> bool
    ensures { result ≡ any_in (conflicts claim uses) heads }
{
    heads.iter().any(|head| conflicts(claim, uses, head.state))
}
