// A node's words, and when it is well formed. The image is one of the geometry's length.
ghost use Rattle.std.specs.Prelude.{◌≡◌, ◌+◌, ◌-◌, ◌^◌, ◌≤◌, ◌<◌, length};
ghost use Rattle.memory.specs.Words.{reads};
ghost use Rattle.tree.specs.Test.{lt, le, eq, ◌and◌, ◌or◌, holds};
ghost use Rattle.tree.specs.Layout.{Sized, locate_at, size_at};
ghost use Rattle.tree.specs.Path.{fanout};
ghost use Rattle.tree.specs.Node.{well_formed};
ghost use Rattle.tree.specs.Room.{clear_place};

use memory::search::lowest_clear;
use memory::words::with_bit;
use tree::layout::{Geometry, LEVEL, LOCATE, SET, SIZE, next_of, word_of};
use tree::path::{ClearPlace, fanout};

// A root of size 16 or 32, with no bit at or above its size in either bitmap, and no children.
fn small_root(depth: u64, size: u64, locate: u64, set: u64, next: u64) -> bool
    ensures { result
        ≡ holds (eq depth 0 and (eq size 16 or eq size 32) and lt locate (2 ^ size) and lt set (2 ^ size) and eq next 0) }
{
    if depth != 0 {
        return false;
    }
    if (size == 16) | (size == 32) {
        return ((locate >> size) == 0) & ((set >> size) == 0) & (next == 0);
    }
    false
}

// No children, or above level 31 all of them inside the pool. The next word may be as large as a word
// can be, so it is compared before it is counted with.
fn children_inside(nodes: usize, depth: u64, next: u64) -> bool
    ensures { result ≡ holds (eq next 0 or (lt depth 31 and le (next - 1 + fanout depth) nodes)) }
{
    if next == 0 {
        return true;
    }
    let before = (next - 1) as usize;
    if nodes <= before {
        return false;
    }
    (depth < 31) & (fanout(depth) <= nodes - before)
}

// Is node n well formed at a depth? Outside the pool it is not, and is not read. Nearly every node has size 64: no bitmap
// has a bit there or above, so that neither is read. Any other size is a root's.
pub fn well_formed(image: &[u64], g: Geometry, depth: u64, n: usize) -> bool
    requires { Sized image.now g }
    ensures { result ≡ well_formed g (reads image.now) depth n }
{
    let nodes = g.nodes;
    if nodes <= n {
        return false;
    }
    if word_of(image, g, n, LEVEL) != depth {
        return false;
    }
    let size = word_of(image, g, n, SIZE);
    let next = next_of(image, g, n);
    if size != 64 {
        return small_root(
            depth,
            size,
            word_of(image, g, n, LOCATE),
            word_of(image, g, n, SET),
            next,
        );
    }
    children_inside(nodes, depth, next)
}

// The search for a place in a node: the lowest whose locate bit is 0, if any, and the places left, its size minus the ones of the
// locate word as it will be.
pub fn clear_place(image: &[u64], g: Geometry, n: usize) -> Option<ClearPlace>
    requires { Sized image.now g
        × (n < g.nodes)
        × (reads image.now (size_at g n) ≤ 64)
        × (reads image.now (locate_at g n) < 2 ^ reads image.now (size_at g n)) }
    ensures { result ≡ clear_place g (reads image.now) n }
{
    let size = word_of(image, g, n, SIZE) as u32;
    let locate = word_of(image, g, n, LOCATE);
    let place = lowest_clear(locate, size);
    if size <= place {
        return None;
    }
    let left = size - u64::count_ones(with_bit(locate, place));
    Some(ClearPlace {
        place: place as usize,
        left: left as usize,
    })
}
