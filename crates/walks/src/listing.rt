// A tree's frames listed, by a walk over nodes that are known to be well formed.
ghost use Rattle.std.specs.Prelude.{◌≡◌, true, ◌+◌, ◌-◌, ◌≤◌, ◌<◌, length};
ghost use Rattle.memory.specs.Words.{reads};
ghost use Rattle.tree.specs.Lists.{up_to, every};
ghost use Rattle.tree.specs.Layout.{Sized};
ghost use Rattle.tree.specs.Path.{levels};
ghost use Rattle.tree.specs.Slots.{Filled};
ghost use Rattle.tree.specs.Subtree.{frames_in, listing, listed};
ghost use Rattle.tree.specs.Check.{is_sound_tree};
ghost use Rattle.visits.specs.Places.{set_places, words_at};
ghost use Rattle.visits.specs.Walk.{stops, group_stops, formed_at, frames_at};

use memory::search::lowest_clear;
use memory::words::without_bit;
use tree::layout::{FRAMES, Geometry, SET, next_of, node_at, root_of, word_of};
use tree::path::fanout;

// Copies adjacent words of an image to the start of a list.
fn copy_words(image: &[u64], list: &mut [u64], first: usize, count: usize)
    requires { (first + count ≤ length image.now) × (count ≤ length list.old) }
    ensures { list.new ≡ listed (words_at image.now first (up_to count)) list.old }
{
    for (k, word) in image[first..first + count].iter().enumerate() {
        list[k] = *word;
    }
}

// Writes the words at a bitmap's set bits, places rising, to the start of a list; answers how many.
fn list_words(image: &[u64], list: &mut [u64], first: usize, set: u64) -> usize
    requires { (first + 64 ≤ length image.now) × (length (words_at image.now first (set_places set)) ≤ length list.old) }
    ensures { (result ≡ length (words_at image.now first (set_places set)))
        × (list.new ≡ listed (words_at image.now first (set_places set)) list.old) }
{
    // The set bits of the places not yet listed.
    let mut left = set;
    let mut k = 0;
    while left != 0 {
        let p = u64::trailing_zeros(left);
        list[k] = image[first + p as usize];
        left = without_bit(left, p);
        k += 1;
    }
    k
}

// Writes a node's frames, places rising, to the start of a list; answers how many. Most nodes hold their frames in the
// places from 0 on without a gap: these are copied in one piece.
fn list_places(image: &[u64], list: &mut [u64], g: Geometry, n: usize) -> usize
    requires { Sized image.now g × (n < g.nodes) × (length (frames_in g (reads image.now) n) ≤ length list.old) }
    ensures { (result ≡ length (frames_in g (reads image.now) n))
        × (list.new ≡ listed (frames_in g (reads image.now) n) list.old) }
{
    let set = word_of(image, g, n, SET);
    let first = node_at(g, n) + FRAMES;
    let low = lowest_clear(set, 64);
    let copied = low as usize;
    copy_words(image, list, first, copied);
    if low == 64 {
        return copied;
    }
    copied + list_words(image, &mut list[copied..], first, set >> low << low)
}

// Writes the frames of a node and of all below it, levels left, to the start of a list; answers how many.
#[cycle(list_group_list_node)]
fn list_node(image: &[u64], list: &mut [u64], g: Geometry, left: u64, n: usize) -> usize
    requires { Sized image.now g
        × (1 ≤ left)
        × (left ≤ 32)
        × (every (formed_at g (reads image.now)) (stops g (reads image.now) left (levels - left) n) ≡ true)
        × (length (frames_at g (reads image.now) (stops g (reads image.now) left (levels - left) n)) ≤ length
        list.old) }
    ensures { (result
        ≡ length
        (frames_at g (reads image.now) (stops g (reads image.now) left (levels - left) n)))
        × (list.new
        ≡ listed
        (frames_at g (reads image.now) (stops g (reads image.now) left (levels - left) n))
        list.old) }
{
    let own = list_places(image, list, g, n);
    let next = next_of(image, g, n) as usize;
    if next == 0 {
        return own;
    }
    own + list_group(
        image,
        &mut list[own..],
        g,
        left - 1,
        next - 1,
        fanout(32 - left),
    )
}

// Writes the frames of a group of children and of all below them in turn.
#[cycle(list_group_list_node)]
fn list_group(
    image: &[u64],
    list: &mut [u64],
    g: Geometry,
    left: u64,
    start: usize,
    count: usize,
) -> usize
    requires { Sized image.now g
        × (1 ≤ left)
        × (left ≤ 32)
        × (start + count ≤ 65536)
        × (every (formed_at g (reads image.now)) (group_stops g (reads image.now) left (levels - left) start count)
        ≡ true)
        × (length (frames_at g (reads image.now) (group_stops g (reads image.now) left (levels - left) start count))
        ≤ length list.old) }
    ensures { (result
        ≡ length (frames_at g (reads image.now)
        (group_stops g (reads image.now) left (levels - left) start count)))
        × (list.new
        ≡ listed (frames_at g (reads image.now)
        (group_stops g (reads image.now) left (levels - left) start count)) list.old) }
{
    let mut written = 0;
    for c in 0..count {
        written += list_node(image, &mut list[written..], g, left, start + c);
    }
    written
}

// Writes the frames of a filled slot's tree, which is known to be well formed, to the start of a list; answers how many.
pub fn list_slot(image: &[u64], list: &mut [u64], g: Geometry, slot: usize) -> usize
    requires { Sized image.now g
        × Filled g (reads image.now) slot
        × (is_sound_tree g (reads image.now) slot ≡ true)
        × (length (listing g (reads image.now) slot) ≤ length list.old) }
    ensures { (result ≡ length (listing g (reads image.now) slot))
        × (list.new ≡ listed (listing g (reads image.now) slot) list.old) }
{
    let root = root_of(image, g, slot) as usize;
    list_node(image, list, g, 32, root - 1)
}
