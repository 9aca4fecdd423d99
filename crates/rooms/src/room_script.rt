// The parts of a claim's script: room is made where there is none, then the place is located.
ghost use Rattle.std.specs.Prelude.{◌≡◌, suc, ◌+◌, ◌*◌, ◌≤◌, ◌<◌, length};
ghost use mathlib.Core.List.{[], ◌∷◌, flat_map};
ghost use Rattle.tree.specs.Memory.{with_bit, stores, segmented, written};
ghost use Rattle.tree.specs.Layout.{next_at, locate_at, size_at};
ghost use Rattle.tree.specs.Lists.{range};
ghost use Rattle.tree.specs.Path.{fanout};
ghost use Rattle.book.specs.Perform.{new_node};

use operations::node_script::put_node;
use tree::layout::{Geometry, LOCATE, SIZE, node_at};
use tree::path::Spot;
use tree::persistent::{put_barrier, put_fenced, with_bit};

// The store that takes a place: the node's locate word, as it is by then, with the place's bit. Every claim's script ends
// in it, so where room is made first, the rest of the script is lent on to this writer.
pub fn put_locate(script: &mut [u64], g: Geometry, t: Spot, locate: u64)
    requires { (4 ≤ length script.old) × (g.slots ≤ 4096) × (t.node < 65536) × (t.place < 64) }
    ensures { script.new
        ≡ written (segmented (((locate_at g t.node, with_bit locate t.place) ∷ []) ∷ [])) script.old }
{
    let at = (node_at(g, t.node) + LOCATE) as u64;
    put_fenced(script, at, with_bit(locate, t.place as u32));
}

// A scale-up, in 4 words: the size doubled.
pub fn put_scale_up(script: &mut [u64], g: Geometry, node: usize, size: u64)
    requires { (4 ≤ length script.old) × (g.slots ≤ 4096) × (node < 65536) × (size < 64) }
    ensures { script.new ≡ written (segmented (((size_at g node, 2 * size) ∷ []) ∷ [])) script.old }
{
    let at = (node_at(g, node) + SIZE) as u64;
    put_fenced(script, at, 2 * size);
}

// Adjacent nodes made anew, of size 64.
fn put_nodes(script: &mut [u64], g: Geometry, start: usize, count: usize, level: u64)
    requires { (count ≤ 4) × (10 * count ≤ length script.old) × (g.slots ≤ 4096) × (start + count ≤ 65536) }
    ensures { script.new
        ≡ written (stores (flat_map (λ n. new_node g n level 64) (range start count))) script.old }
{
    for i in 0..count {
        put_node(&mut script[10 * i..], g, start + i, level, 64);
    }
}

// A branch-out, in 10 words for each child and 6 more: the children made anew, then linked.
pub fn put_branch_out(
    script: &mut [u64],
    g: Geometry,
    parent: usize,
    depth: u64,
    start: usize,
    count: usize,
)
    requires { (depth < 31)
        × (count ≡ fanout depth)
        × (count ≤ 4)
        × (10 * count + 6 ≤ length script.old)
        × (g.slots ≤ 4096)
        × (start + count ≤ 65536)
        × (parent < 65536) }
    ensures { script.new
        ≡ written (segmented (flat_map (λ n. new_node g n (suc depth) 64) (range start (fanout depth)) ∷
        ((next_at g parent, start + 1) ∷ []) ∷ [])) script.old }
{
    let at = node_at(g, parent) as u64;
    put_nodes(script, g, start, count, depth + 1);
    put_barrier(&mut script[10 * count..]);
    put_fenced(&mut script[10 * count + 2..], at, (start + 1) as u64);
}
