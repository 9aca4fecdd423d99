// The walk over a tree's nodes: the node visitor and the group visitor call each other, and the levels left fall.
ghost use Rattle.std.specs.Prelude.{◌≡◌, ◌+◌, ◌-◌, ◌≤◌, ◌<◌, length};
ghost use Rattle.memory.specs.Words.{reads};
ghost use Rattle.tree.specs.Layout.{Sized, map_words};
ghost use Rattle.tree.specs.Path.{levels};
ghost use Rattle.tree.specs.Slots.{Filled};
ghost use Rattle.tree.specs.Subtree.{tree, nodes_of};
ghost use Rattle.tree.specs.Check.{is_sound_tree};
ghost use Rattle.tree.specs.Pool.{clear_map, map_of};
ghost use Rattle.visits.specs.Walk.{stops, group_stops, formed_at, walked, kept, walked_slot};

use nodes::node::well_formed;
use pool::pool_map::{clear_map, is_used, mark};
use tree::layout::{Geometry, next_of, root_of};
use tree::path::fanout;

// Marks a node and, levels left, all below it. A node met a second time ends the walk, so it marks each node once.
#[cycle(visit_group_visit_node)]
fn visit_node(image: &[u64], pool: &mut [u64], g: Geometry, left: u64, n: usize) -> bool
    requires { Sized image.now g × (length pool.old ≡ map_words g) × (1 ≤ left) × (left ≤ 32) }
    ensures { kept result pool.new
        ≡ walked (formed_at g (reads image.now))
        (stops g (reads image.now) left (levels - left) n) pool.old }
{
    let depth = 32 - left;
    if !well_formed(image, g, depth, n) {
        return false;
    }
    if is_used(pool, n) {
        return false;
    }
    mark(pool, n);
    let next = next_of(image, g, n) as usize;
    if next == 0 {
        return true;
    }
    visit_group(image, pool, g, left - 1, next - 1, fanout(depth))
}

// Visits the nodes of a group of children in turn.
#[cycle(visit_group_visit_node)]
fn visit_group(
    image: &[u64],
    pool: &mut [u64],
    g: Geometry,
    left: u64,
    start: usize,
    count: usize,
) -> bool
    requires { Sized image.now g × (length pool.old ≡ map_words g) × (1 ≤ left) × (left ≤ 32) × (start + count ≤ 65536) }
    ensures { kept result pool.new
        ≡ walked (formed_at g (reads image.now))
        (group_stops g (reads image.now) left (levels - left) start count) pool.old }
{
    for n in start..start + count {
        if !visit_node(image, pool, g, left, n) {
            return false;
        }
    }
    true
}

// Walks a filled slot's tree: marks each of its nodes, unless one is malformed or marked already.
pub fn visit_slot(image: &[u64], pool: &mut [u64], g: Geometry, slot: usize) -> bool
    requires { Sized image.now g × Filled g (reads image.now) slot × (length pool.old ≡ map_words g) }
    ensures { kept result pool.new ≡ walked_slot g (reads image.now) slot pool.old }
{
    let root = root_of(image, g, slot) as usize;
    visit_node(image, pool, g, 32, root - 1)
}

// Is no node of a filled slot's tree malformed or met twice? Then the scratch map, whatever it held, marks exactly its nodes.
pub fn check_tree(image: &[u64], scratch: &mut [u64], g: Geometry, slot: usize) -> bool
    requires { Sized image.now g × Filled g (reads image.now) slot × (length scratch.old ≡ map_words g) }
    ensures { kept result scratch.new
        ≡ kept (is_sound_tree g (reads image.now) slot)
        (map_of g (nodes_of (tree g (reads image.now) slot))) }
{
    clear_map(scratch);
    visit_slot(image, scratch, g, slot)
}

// The same, with the scratch map all 0 in the end.
pub fn sound_tree(image: &[u64], scratch: &mut [u64], g: Geometry, slot: usize) -> bool
    requires { Sized image.now g × Filled g (reads image.now) slot × (length scratch.old ≡ map_words g) }
    ensures { (result ≡ is_sound_tree g (reads image.now) slot) × (scratch.new ≡ clear_map (map_words g)) }
{
    let sound = check_tree(image, scratch, g, slot);
    clear_map(scratch);
    sound
}
