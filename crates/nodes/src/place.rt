// The place of a node where the lookup finds a frame.
ghost use Rattle.std.specs.Prelude.{◌≡◌, false, ℕ, ◌+◌, ◌*◌, ◌/◌, ◌%◌, ◌<◌, eqb};
ghost use Rattle.memory.specs.Words.{reads, is_set};
ghost use Rattle.tree.specs.Layout.{Sized, set_at};
ghost use Rattle.tree.specs.Fingerprint.{fingerprint, rule_of};
ghost use Rattle.tree.specs.Node.{stored_fingerprint};
ghost use Rattle.tree.specs.Lookup.{matches, found_at};

use memory::words::{equal_bytes, is_set, without_bit};
use tree::layout::{Geometry, SET, fingerprints_of, frame_of, word_of};

// May a place of a node have a fingerprint? A no is sure: no place has it. Mostly that is the answer, with one branch for all 64.
fn has_print(image: &[u64], g: Geometry, n: usize, print: u64) -> bool
    requires { Sized image.now g × (n < g.nodes) × (print < 256) }
    ensures { result ≡ false → (p : ℕ) → p < 64 → eqb (stored_fingerprint g (reads image.now) n p) print ≡ false }
{
    (0..8).fold(
        0,
        |found, j| found | equal_bytes(fingerprints_of(image, g, n, j), print),
    ) != 0
}

// The places of a node that have a fingerprint, a word of eight at a time and without a branch. A word's answers
// are the highest bits of the bytes, and move down a bit with each word after it: in the end bit
// 8 × (p mod 8) + p div 8 is place p's.
fn candidates(image: &[u64], g: Geometry, n: usize, print: u64) -> u64
    requires { Sized image.now g × (n < g.nodes) × (print < 256) }
    ensures { (p : ℕ)
        → p < 64
        → is_set result (8 * (p % 8) + p / 8) ≡ eqb (stored_fingerprint g (reads image.now) n p) print }
{
    (0..8).fold(
        0,
        |found, j| (found >> 1) | equal_bytes(fingerprints_of(image, g, n, j), print),
    )
}

// Does a place that has the frame's fingerprint hold the frame? The caller has read the node's set word.
fn is_match(image: &[u64], g: Geometry, n: usize, frame: u64, set: u64, p: usize) -> bool
    requires { Sized image.now g
        × (n < g.nodes)
        × (p < 64)
        × (set ≡ reads image.now (set_at g n))
        × (stored_fingerprint g (reads image.now) n p ≡ fingerprint (rule_of (reads image.now)) frame) }
    ensures { result ≡ matches (rule_of (reads image.now)) g (reads image.now) frame n p }
{
    is_set(set, p as u32) & (frame_of(image, g, n, p) == frame)
}

// The lowest place of a node of the pool that holds the frame, or 64. The few places that have its fingerprint are tested
// in any order. The caller has the fingerprint, once for all nodes of a path.
pub fn found_place(image: &[u64], g: Geometry, n: usize, frame: u64, print: u64) -> usize
    requires { Sized image.now g × (n < g.nodes) × (print ≡ fingerprint (rule_of (reads image.now)) frame) }
    ensures { result ≡ found_at (rule_of (reads image.now)) g (reads image.now) frame n }
{
    if !has_print(image, g, n, print) {
        return 64;
    }
    let set = word_of(image, g, n, SET);
    let mut left = candidates(image, g, n, print);
    let mut lowest = 64;
    while left != 0 {
        let i = u64::trailing_zeros(left);
        let p = (8 * (i % 8) + i / 8) as usize;
        left = without_bit(left, i);
        if is_match(image, g, n, frame, set, p) & (p < lowest) {
            lowest = p;
        }
    }
    lowest
}
