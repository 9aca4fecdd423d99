// The first empty group of children in a tree, by a walk over nodes that are known to be well formed: the node visitor and the
// group visitor call each other, and the levels left fall. Each node is visited at most once,
// and read at most once more, as a child.
ghost use Rattle.std.specs.Prelude.{◌≡◌, true, ◌+◌, ◌-◌, ◌≤◌};
ghost use Rattle.memory.specs.Words.{reads};
ghost use Rattle.tree.specs.Lists.{every, first_that};
ghost use Rattle.tree.specs.Layout.{Sized};
ghost use Rattle.tree.specs.Path.{levels};
ghost use Rattle.tree.specs.Slots.{Filled};
ghost use Rattle.tree.specs.Check.{is_sound_tree};
ghost use Rattle.tree.specs.Groups.{first_group};
ghost use Rattle.visits.specs.Walk.{stops, group_stops, formed_at};
ghost use Rattle.groups.specs.Search.{empty_group_at, search_at, search_of};

use crate::group::all_empty;
use tree::layout::{Geometry, next_of, root_of};
use tree::path::fanout;

// A node whose children are all empty, and its depth.
#[derive(Clone, Copy)]
pub struct FoundGroup {
    pub node: usize,
    pub depth: u64,
}

// Searches a node and, levels left, all below it.
#[cycle(search_group_search_node)]
fn search_node(image: &[u64], g: Geometry, left: u64, n: usize) -> Option<FoundGroup>
    requires { Sized image.now g
        × (1 ≤ left)
        × (left ≤ 32)
        × (every (formed_at g (reads image.now)) (stops g (reads image.now) left (levels - left) n) ≡ true) }
    ensures { result
        ≡ search_at (first_that (empty_group_at g (reads image.now))
        (stops g (reads image.now) left (levels - left) n)) }
{
    let next = next_of(image, g, n) as usize;
    if next == 0 {
        return None;
    }
    let depth = 32 - left;
    let count = fanout(depth);
    if all_empty(image, g, next - 1, count) {
        return Some(FoundGroup { node: n, depth });
    }
    search_group(image, g, left - 1, next - 1, count)
}

// Searches a group of children and all below them in turn.
#[cycle(search_group_search_node)]
fn search_group(
    image: &[u64],
    g: Geometry,
    left: u64,
    start: usize,
    count: usize,
) -> Option<FoundGroup>
    requires { Sized image.now g
        × (1 ≤ left)
        × (left ≤ 32)
        × (start + count ≤ 65536)
        × (every (formed_at g (reads image.now)) (group_stops g (reads image.now) left (levels - left) start count)
        ≡ true) }
    ensures { result
        ≡ search_at (first_that (empty_group_at g (reads image.now))
        (group_stops g (reads image.now) left (levels - left) start count)) }
{
    for c in 0..count {
        if let Some(found) = search_node(image, g, left, start + c) {
            return Some(found);
        }
    }
    None
}

// The first node with children that are all empty, in the order of List, of a filled slot's tree, which is known to be sound;
// none, where no node has such children.
pub fn search_slot(image: &[u64], g: Geometry, slot: usize) -> Option<FoundGroup>
    requires { Sized image.now g
        × Filled g (reads image.now) slot
        × (is_sound_tree g (reads image.now) slot ≡ true) }
    ensures { result ≡ search_of (first_group g (reads image.now) slot) }
{
    let root = root_of(image, g, slot) as usize;
    search_node(image, g, 32, root - 1)
}
