// Reel slots: a reel's, and the lowest empty one.
ghost use Rattle.std.specs.Prelude.{◌≡◌, not, ℕ, ◌+◌, ◌≤◌, ◌<◌, eqb};
ghost use Rattle.memory.specs.Words.{reads};
ghost use Rattle.memory.specs.Laws.{NoneBelow};
ghost use Rattle.tree.specs.Test.{is, eq, ◌and◌, holds};
ghost use Rattle.tree.specs.Lists.{up_to, every};
ghost use Rattle.tree.specs.Layout.{Sized, reel_at};
ghost use Rattle.tree.specs.Slots.{filled, slot_of, empty_slot};

use tree::layout::{Geometry, reel_of, root_of};

// Does slot s have a root?
pub fn is_filled(image: &[u64], g: Geometry, s: usize) -> bool
    requires { Sized image.now g × (s < g.slots) }
    ensures { result ≡ filled (reads image.now) s }
{
    root_of(image, g, s) != 0
}

// Is slot s filled with this reel's number? An empty slot's number means nothing. The number comes first: it
// is rarely the reel's.
fn is_reel(image: &[u64], g: Geometry, s: usize, reel: u64) -> bool
    requires { Sized image.now g × (s < g.slots) }
    ensures { result ≡ holds (is (filled (reads image.now) s) and eq (reads image.now (reel_at s)) reel) }
{
    if reel_of(image, g, s) != reel {
        return false;
    }
    is_filled(image, g, s)
}

// Has none of four adjacent slots the reel's number, filled or not? One branch for the four.
fn none_of_four(image: &[u64], g: Geometry, s: usize, reel: u64) -> bool
    requires { Sized image.now g × (s + 4 ≤ g.slots) }
    ensures { result ≡ every (λ k. not (eqb (reads image.now (reel_at (s + k))) reel)) (up_to 4) }
{
    (reel_of(image, g, s) != reel)
        & ((reel_of(image, g, s + 1) != reel)
            & ((reel_of(image, g, s + 2) != reel) & (reel_of(image, g, s + 3) != reel)))
}

// Slots that are not the reel's, passed over in eights; the rest is for a search slot by slot.
fn passed_in_eights(image: &[u64], g: Geometry, reel: u64) -> usize
    requires { Sized image.now g }
    ensures { (result ≤ g.slots)
        × NoneBelow (λ (s : ℕ). holds
        (is (filled (reads image.now) s) and eq (reads image.now (reel_at s)) reel)) result }
{
    for eighth in 0..g.slots / 8 {
        let s = 8 * eighth;
        if !(none_of_four(image, g, s, reel) & none_of_four(image, g, s + 4, reel)) {
            return s;
        }
    }
    g.slots / 8 * 8
}

// A reel's slot: the lowest that is filled with its number; the number of slots where there is none.
pub fn slot_of(image: &[u64], g: Geometry, reel: u64) -> usize
    requires { Sized image.now g }
    ensures { result ≡ slot_of g (reads image.now) reel }
{
    let start = passed_in_eights(image, g, reel);
    (start..g.slots)
        .find(|s| is_reel(image, g, *s, reel))
        .unwrap_or(g.slots)
}

// The lowest empty slot; the number of slots where there is none.
pub fn empty_slot(image: &[u64], g: Geometry) -> usize
    requires { Sized image.now g }
    ensures { result ≡ empty_slot g (reads image.now) }
{
    (0..g.slots)
        .find(|s| !is_filled(image, g, *s))
        .unwrap_or(g.slots)
}
