// A node's group of children: is it empty, and given back to the pool.
ghost use Rattle.std.specs.Prelude.{◌≡◌, ◌+◌, ◌-◌, ◌≤◌, ◌<◌, length};
ghost use Rattle.memory.specs.Words.{reads};
ghost use Rattle.tree.specs.Lists.{range};
ghost use Rattle.tree.specs.Layout.{Sized, map_words, next_at};
ghost use Rattle.tree.specs.Path.{fanout};
ghost use Rattle.tree.specs.Groups.{is_empty, all_empty};
ghost use Rattle.tree.specs.Pool.{unmark_all};

use pool::pool_map::unmark_run;
use tree::layout::{Geometry, LOCATE, SET, next_of, word_of};
use tree::path::fanout;

// Has a node no child, and no bit in either bitmap?
fn is_empty(image: &[u64], g: Geometry, n: usize) -> bool
    requires { Sized image.now g × (n < g.nodes) }
    ensures { result ≡ is_empty g (reads image.now) n }
{
    (next_of(image, g, n) == 0)
        & ((word_of(image, g, n, LOCATE) == 0) & (word_of(image, g, n, SET) == 0))
}

// Are adjacent nodes of the pool all empty?
pub fn all_empty(image: &[u64], g: Geometry, start: usize, count: usize) -> bool
    requires { Sized image.now g × (start + count ≤ g.nodes) }
    ensures { result ≡ all_empty g (reads image.now) start count }
{
    (0..count).all(|c| is_empty(image, g, start + c))
}

// Frees the children of a node at a depth in the map.
pub fn free_group(image: &[u64], pool: &mut [u64], g: Geometry, n: usize, depth: u64)
    requires { Sized image.now g
        × (n < g.nodes)
        × (0 < reads image.now (next_at g n))
        × (reads image.now (next_at g n) - 1 + fanout depth ≤ g.nodes)
        × (length pool.old ≡ map_words g) }
    ensures { pool.new
        ≡ unmark_all pool.old (range (reads image.now (next_at g n) - 1) (fanout depth)) }
{
    let next = next_of(image, g, n) as usize;
    unmark_run(pool, next - 1, fanout(depth));
}
