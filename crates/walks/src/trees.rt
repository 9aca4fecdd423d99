// A reel's tree: checked and listed, or checked and given back to the pool.
ghost use Rattle.std.specs.Prelude.{◌≡◌, true, cond, length};
ghost use Rattle.memory.specs.Words.{reads};
ghost use Rattle.tree.specs.Layout.{Sized, map_words};
ghost use Rattle.tree.specs.Slots.{Filled};
ghost use Rattle.tree.specs.Subtree.{tree, nodes_of};
ghost use Rattle.tree.specs.Check.{is_sound_tree};
ghost use Rattle.tree.specs.Pool.{unmark_all, clear_map, map_of};
ghost use Rattle.walks.specs.Answers.{listing_from, list_after};

use crate::listing::list_slot;
use pool::pool_map::clear_map;
use tree::layout::Geometry;
use visits::marked::{count_frames, take_out};
use visits::visit::check_tree;

// Why a tree's frames are not listed.
#[derive(Clone, Copy)]
pub enum ListError {
    // A node is malformed or met twice.
    Malformed,
    // The list has too little room.
    Short,
}

// Checks a filled slot's tree, whose nodes are then marked, and writes its frames to a list that has room for all of them;
// answers how many.
fn list_checked(
    image: &[u64],
    marks: &mut [u64],
    list: &mut [u64],
    g: Geometry,
    slot: usize,
) -> Result<usize, ListError>
    requires { Sized image.now g × Filled g (reads image.now) slot × (length marks.old ≡ map_words g) }
    ensures { (result ≡ listing_from g (reads image.now) slot (length list.old))
        × (list.new ≡ list_after g (reads image.now) slot list.old) }
{
    if !check_tree(image, marks, g, slot) {
        return Err(ListError::Malformed);
    }
    if list.len() < count_frames(image, marks, g) {
        return Err(ListError::Short);
    }
    Ok(list_slot(image, list, g, slot))
}

// Lists a filled slot's frames; answers how many. Nothing is written to the list unless all of them are; the scratch map is all 0
// in the end.
pub fn list_tree(
    image: &[u64],
    scratch: &mut [u64],
    list: &mut [u64],
    g: Geometry,
    slot: usize,
) -> Result<usize, ListError>
    requires { Sized image.now g × Filled g (reads image.now) slot × (length scratch.old ≡ map_words g) }
    ensures { (result ≡ listing_from g (reads image.now) slot (length list.old))
        × (list.new ≡ list_after g (reads image.now) slot list.old)
        × (scratch.new ≡ clear_map (map_words g)) }
{
    let answer = list_checked(image, scratch, list, g, slot);
    clear_map(scratch);
    answer
}

// Frees the nodes of a filled slot's tree in the map, unless one is malformed or met twice; the scratch map is all 0 in the end.
pub fn free_tree(
    image: &[u64],
    pool: &mut [u64],
    scratch: &mut [u64],
    g: Geometry,
    slot: usize,
) -> bool
    requires { Sized image.now g
        × Filled g (reads image.now) slot
        × (length pool.old ≡ map_words g)
        × (length scratch.old ≡ map_words g) }
    ensures { (result ≡ is_sound_tree g (reads image.now) slot)
        × (pool.new
        ≡ cond (is_sound_tree g (reads image.now) slot)
        (unmark_all pool.old (nodes_of (tree g (reads image.now) slot))) pool.old)
        × (scratch.new ≡ clear_map (map_words g)) }
{
    if !check_tree(image, scratch, g, slot) {
        clear_map(scratch);
        return false;
    }
    take_out(pool, scratch);
    clear_map(scratch);
    true
}
