// What is done to the nodes that a map marks, without a walk.
ghost use Rattle.std.specs.Prelude.{◌≡◌, length};
ghost use Rattle.memory.specs.Words.{reads};
ghost use Rattle.tree.specs.Layout.{Sized, map_words};
ghost use Rattle.visits.specs.Marked.{held_below, without_marked};

use pool::pool_map::used_nodes;
use tree::layout::{Geometry, SET, word_of};

// How many frames the nodes marked in a map hold.
pub fn count_frames(image: &[u64], pool: &[u64], g: Geometry) -> usize
    requires { Sized image.now g × (length pool.now ≡ map_words g) }
    ensures { result ≡ held_below g (reads image.now) pool.now g.nodes }
{
    let mut count = 0;
    for n in used_nodes(pool, g.nodes) {
        count += u64::count_ones(word_of(image, g, n, SET)) as usize;
    }
    count
}

// Frees in one map the nodes that another marks, a word at a time.
pub fn take_out(pool: &mut [u64], marks: &[u64])
    requires { length pool.old ≡ length marks.now }
    ensures { pool.new ≡ without_marked pool.old marks.now }
{
    for (i, word) in pool.iter_mut().enumerate() {
        *word &= !marks[i];
    }
}
