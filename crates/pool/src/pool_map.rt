// The pool map: bit n % 64 of word n / 64 is 1 if node n is used.
ghost use Rattle.std.specs.Prelude.{◌≡◌, ◌+◌, ◌-◌, ◌*◌, ◌≤◌, ◌<◌, length};
ghost use Rattle.std.specs.Iterator.{at_most};
ghost use Rattle.pool.specs.UsedNodes.{NextUsed};
ghost use Rattle.memory.specs.Words.{reads};
ghost use Rattle.tree.specs.Lists.{range};
ghost use Rattle.tree.specs.Lookup.{free_run};
ghost use Rattle.tree.specs.Pool.{used, next_used, mark, unmark, mark_all, unmark_all, clear_map};

use memory::search::lowest_unmarked;
use memory::words::{is_set, with_bit, without_bit};
use std::cmp::min;
use tree::layout::{Geometry, map_words};

// A word of the map with every node used.
const FULL: u64 = 0xffff_ffff_ffff_ffff;

pub fn is_used(pool: &[u64], n: usize) -> bool
    requires { n < 64 * length pool.now }
    ensures { result ≡ used pool.now n }
{
    is_set(pool[n / 64], (n % 64) as u32)
}

// The lowest used node from one on, or the number of nodes: a step for each word of the map. Bits past the last node
// count for nothing.
pub fn next_used(pool: &[u64], from: usize, nodes: usize) -> usize
    requires { (from ≤ nodes) × (nodes ≤ 64 * length pool.now) × (nodes ≤ 65536) }
    ensures { result ≡ next_used pool.now from nodes }
{
    // Of the first word the bits of nodes from there on, of the others all.
    let mut below = from % 64;
    for i in from / 64..usize::div_ceil(nodes, 64) {
        let rest = pool[i] >> below << below;
        if rest != 0 {
            return min(64 * i + u64::trailing_zeros(rest) as usize, nodes);
        }
        below = 0;
    }
    nodes
}

// A walk over the used nodes of a map from one on, rising.
#[derive(Drop)]
pub struct UsedNodes<'a> {
    pub pool: &'a [u64],
    pub from: usize,
    pub nodes: usize,
}

impl<'a> Iterator for UsedNodes<'a> {
    type Item = usize;

    ghost can_next = { λ s. (s.from ≤ s.nodes) × (s.nodes ≤ 64 * length s.pool.now) × (s.nodes ≤ 65536) };

    ghost next_gives = { λ s r t. (t.pool.now ≡ s.pool.now) × (t.nodes ≡ s.nodes) × NextUsed s.pool.now s.from s.nodes r t.from };

    ghost remaining = { λ s. at_most (s.nodes - s.from) };

    fn next(&mut self) -> Option<usize> {
        let n = next_used(self.pool, self.from, self.nodes);
        if n == self.nodes {
            return None;
        }
        self.from = n + 1;
        Some(n)
    }
}

// All used nodes of a map.
pub fn used_nodes(pool: &[u64], nodes: usize) -> UsedNodes<'_>
    requires { (nodes ≤ 64 * length pool.now) × (nodes ≤ 65536) }
    ensures { (result.pool.now ≡ pool.now) × (result.from ≡ 0) × (result.nodes ≡ nodes) }
{
    UsedNodes {
        pool,
        from: 0,
        nodes,
    }
}

pub fn mark(pool: &mut [u64], n: usize)
    requires { n < 64 * length pool.old }
    ensures { pool.new ≡ mark pool.old n }
{
    pool[n / 64] = with_bit(pool[n / 64], (n % 64) as u32);
}

// Marks k adjacent nodes.
pub fn mark_run(pool: &mut [u64], start: usize, k: usize)
    requires { (start + k ≤ 64 * length pool.old) × (start + k ≤ 65536) }
    ensures { pool.new ≡ mark_all pool.old (range start k) }
{
    for n in start..start + k {
        mark(pool, n);
    }
}

pub fn unmark(pool: &mut [u64], n: usize)
    requires { n < 64 * length pool.old }
    ensures { pool.new ≡ unmark pool.old n }
{
    pool[n / 64] = without_bit(pool[n / 64], (n % 64) as u32);
}

// Makes k adjacent nodes free.
pub fn unmark_run(pool: &mut [u64], start: usize, k: usize)
    requires { (start + k ≤ 64 * length pool.old) × (start + k ≤ 65536) }
    ensures { pool.new ≡ unmark_all pool.old (range start k) }
{
    for n in start..start + k {
        unmark(pool, n);
    }
}

// Makes every node free.
pub fn clear_map(pool: &mut [u64])
    ensures { pool.new ≡ clear_map (length pool.old) }
{
    pool.fill(0);
}

// The lowest free node, or the number of nodes.
pub fn free_node(pool: &[u64], g: Geometry) -> usize
    requires { (g.nodes ≤ 64 * length pool.now) × (g.nodes ≤ 65536) }
    ensures { result ≡ free_run g (reads pool.now) 1 }
{
    lowest_unmarked(pool, g.nodes)
}

// The lowest run of k adjacent free nodes, or the number of nodes. No run starts in a full word, nor too near to the pool's end.
pub fn free_run(pool: &[u64], g: Geometry, k: usize) -> usize
    requires { (g.nodes ≤ 64 * length pool.now) × (g.nodes ≤ 65536) × (1 ≤ k) × (k ≤ 4) }
    ensures { result ≡ free_run g (reads pool.now) k }
{
    for (i, word) in pool[..map_words(g)].iter().enumerate() {
        if *word == FULL {
            continue;
        }
        'search: for s in 64 * i..min(64 * i + 64, (g.nodes + 1).saturating_sub(k)) {
            for n in s..s + k {
                if is_used(pool, n) {
                    continue 'search;
                }
            }
            return s;
        }
    }
    g.nodes
}
