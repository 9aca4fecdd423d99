// Recovery: the check of a whole image, which builds the pool map, and what is written to it then.
ghost use Rattle.std.specs.Prelude.{◌≡◌, true, cond, length};
ghost use Rattle.memory.specs.Words.{reads};
ghost use Rattle.tree.specs.Layout.{Sized, map_words};
ghost use Rattle.memory.specs.Script.{stores};
ghost use Rattle.memory.specs.Crash.{apply};
ghost use Rattle.tree.specs.Lists.{up_to};
ghost use Rattle.tree.specs.Fingerprint.{rule_of};
ghost use Rattle.tree.specs.Slots.{Filled};
ghost use Rattle.tree.specs.Subtree.{all_trees, nodes_of};
ghost use Rattle.tree.specs.Check.{is_sound};
ghost use Rattle.tree.specs.Recovery.{recover_stores};
ghost use Rattle.tree.specs.Pool.{clear_map, map_of};
ghost use Rattle.visits.specs.Walk.{kept};
ghost use Rattle.recovery.specs.AllSlots.{walked_reel, walked_slots};
ghost use Rattle.recovery.specs.Mended.{mended_below};

use nodes::reels::{is_filled, slot_of};
use pool::pool_map::{clear_map, used_nodes};
use settled::frames::frames_in_place;
use tree::layout::{Geometry, LOCATE, SET, node_at, reel_of, word_of};
use visits::visit::visit_slot;

// Walks a filled slot's tree and marks its nodes. The slot must be its reel's lowest, and each frame where the lookup finds it.
fn visit_reel(image: &[u64], pool: &mut [u64], g: Geometry, slot: usize) -> bool
    requires { Sized image.now g × Filled g (reads image.now) slot × (length pool.old ≡ map_words g) }
    ensures { kept result pool.new ≡ walked_reel g (reads image.now) slot pool.old }
{
    if slot_of(image, g, reel_of(image, g, slot)) != slot {
        return false;
    }
    if !visit_slot(image, pool, g, slot) {
        return false;
    }
    frames_in_place(image, g, slot)
}

// Walks the trees of all filled slots.
fn visit_slots(image: &[u64], pool: &mut [u64], g: Geometry) -> bool
    requires { Sized image.now g × (length pool.old ≡ map_words g) }
    ensures { kept result pool.new ≡ walked_slots g (reads image.now) (up_to g.slots) pool.old }
{
    for s in 0..g.slots {
        if is_filled(image, g, s) && !visit_reel(image, pool, g, s) {
            return false;
        }
    }
    true
}

// Sets each locate word of a marked node to the node's set word where the two differ. The store in this loop is the
// only one that recovery makes to an image, and it comes once to each such word: the nodes are taken in turn, rising.
fn mend(image: &mut [u64], pool: &[u64], g: Geometry)
    requires { Sized image.old g × (length pool.now ≡ map_words g) }
    ensures { image.new ≡ mended_below g pool.now image.old g.nodes }
{
    for n in used_nodes(pool, g.nodes) {
        let set = word_of(image, g, n, SET);
        if word_of(image, g, n, LOCATE) != set {
            image[node_at(g, n) + LOCATE] = set;
        }
    }
}

// Is the image sound, by its own rule? Then the map marks exactly the nodes reached, else it is all 0. The image is only read.
// Its own table, where it has one, is tested before.
pub fn check_image(image: &[u64], pool: &mut [u64], g: Geometry) -> bool
    requires { Sized image.now g × (length pool.old ≡ map_words g) }
    ensures { (result ≡ is_sound (rule_of (reads image.now)) g (reads image.now))
        × (pool.new
        ≡ cond (is_sound (rule_of (reads image.now)) g (reads image.now))
        (map_of g (nodes_of (all_trees g (reads image.now)))) (clear_map (map_words g))) }
{
    clear_map(pool);
    if !visit_slots(image, pool, g) {
        clear_map(pool);
        return false;
    }
    true
}

// The same, and each differing locate word of a reached node of a sound image is set to its set word. Else the image
// stays.
pub fn recover_image(image: &mut [u64], pool: &mut [u64], g: Geometry) -> bool
    requires { Sized image.old g × (length pool.old ≡ map_words g) }
    ensures { (result ≡ is_sound (rule_of (reads image.old)) g (reads image.old))
        × (image.new
        ≡ cond (is_sound (rule_of (reads image.old)) g (reads image.old))
        (apply image.old (stores (recover_stores g (reads image.old)))) image.old)
        × (pool.new
        ≡ cond (is_sound (rule_of (reads image.old)) g (reads image.old))
        (map_of g (nodes_of (all_trees g (reads image.old)))) (clear_map (map_words g))) }
{
    if !check_image(image, pool, g) {
        return false;
    }
    mend(image, pool, g);
    true
}
