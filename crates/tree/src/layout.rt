// The image's geometry: where words stand, and the refusals that the header decides.
ghost use Rattle.std.specs.Prelude.{◌≡◌, ◌+◌, ◌≤◌, ◌<◌, length};
ghost use Rattle.memory.specs.Words.{reads};
ghost use Rattle.tree.specs.Test.{holds};
ghost use Rattle.tree.specs.Layout.{Sized, image_words, map_words, bad_image, bad_edition, edition_at, own_at, geometry_of};
ghost use Rattle.tree.specs.Layout.{reel_at, root_at, node_at, next_at, frame_at};

// How many reel slots and nodes an image has: the paper's R and N.
#[derive(Clone, Copy)]
pub struct Geometry {
    pub slots: usize,
    pub nodes: usize,
}

// Word i of an image; 0 past its end, so that a header can be read before the length is known to be right.
fn word(image: &[u64], i: usize) -> u64
    ensures { result ≡ reads image.now i }
{
    image.get(i).copied().unwrap_or(0)
}

// What the header says of the geometry, right or wrong.
#[tactic(auto, unfolding(crate::specs::Layout::geometry_of))]
pub fn geometry_in(image: &[u64]) -> Geometry
    ensures { result ≡ geometry_of (reads image.now) }
{
    let slots = word(image, 1) as usize;
    let nodes = word(image, 2) as usize;
    Geometry { slots, nodes }
}

// The length of an image.
pub fn image_words(g: Geometry) -> usize
    requires { (g.slots ≤ 4096) × (g.nodes ≤ 65536) }
    ensures { result ≡ image_words g }
{
    64 + 2 * g.slots + 80 * g.nodes
}

// The length of a pool map: a bit for each node.
pub fn map_words(g: Geometry) -> usize
    requires { g.nodes ≤ 65536 }
    ensures { result ≡ map_words g }
{
    (g.nodes + 63) / 64
}

// Refusal 1: R, N or the image's length is wrong. The ranges are tested first, so the length does not wrap.
#[tactic(auto, unfolding(crate::specs::Layout::bad_image))]
pub fn bad_image(words: usize, g: Geometry) -> bool
    ensures { result ≡ holds (bad_image words g) }
{
    !(1..=4096).contains(&g.slots) || !(1..=65536).contains(&g.nodes) || words != image_words(g)
}

// Refusal 2: the image's edition is neither 1 nor 2.
pub fn bad_edition(image: &[u64]) -> bool
    ensures { result ≡ holds (bad_edition (reads image.now)) }
{
    let edition = word(image, 0);
    (edition != 1) & (edition != 2)
}

// Where an image's own table stands, eight entries to a word.
pub const TABLE_AT: usize = 8;

// The word that says whether an image of edition 2 has one.
pub const OWN_AT: usize = 3;

// The words of a node by their offset; its first word is next. A place's fingerprint is a byte of word FINGERPRINTS + p / 8,
// its frame is word FRAMES + p.
pub const LOCATE: usize = 1;

pub const SET: usize = 2;

pub const LEVEL: usize = 3;

pub const SIZE: usize = 4;

pub const FINGERPRINTS: usize = 8;

pub const FRAMES: usize = 16;

// Where a slot's reel number stands.
pub fn reel_at(slot: usize) -> usize
    requires { slot < 4096 }
    ensures { result ≡ reel_at slot }
{
    64 + 2 * slot
}

// Where a slot's root stands.
pub fn root_at(slot: usize) -> usize
    requires { slot < 4096 }
    ensures { result ≡ root_at slot }
{
    64 + 2 * slot + 1
}

// Where a node's words start; next is the first.
pub fn node_at(g: Geometry, n: usize) -> usize
    requires { (g.slots ≤ 4096) × (n < 65536) }
    ensures { result ≡ node_at g n }
{
    64 + 2 * g.slots + 80 * n
}

// The image's edition.
pub fn edition(image: &[u64]) -> u64
    requires { 0 < length image.now }
    ensures { result ≡ reads image.now edition_at }
{
    image[0]
}

// In edition 2: 1 where the image has its own table, 0 where it has none.
pub fn own_word(image: &[u64]) -> u64
    requires { 64 ≤ length image.now }
    ensures { result ≡ reads image.now own_at }
{
    image[OWN_AT]
}

// A slot's reel number.
pub fn reel_of(image: &[u64], g: Geometry, slot: usize) -> u64
    requires { Sized image.now g × (slot < g.slots) }
    ensures { result ≡ reads image.now (reel_at slot) }
{
    image[reel_at(slot)]
}

// A slot's root.
pub fn root_of(image: &[u64], g: Geometry, slot: usize) -> u64
    requires { Sized image.now g × (slot < g.slots) }
    ensures { result ≡ reads image.now (root_at slot) }
{
    image[root_at(slot)]
}

// A word of a node, by its offset.
pub fn word_of(image: &[u64], g: Geometry, n: usize, offset: usize) -> u64
    requires { Sized image.now g × (n < g.nodes) × (offset < 80) }
    ensures { result ≡ reads image.now (node_at g n + offset) }
{
    image[node_at(g, n) + offset]
}

// A node's next.
pub fn next_of(image: &[u64], g: Geometry, n: usize) -> u64
    requires { Sized image.now g × (n < g.nodes) }
    ensures { result ≡ reads image.now (next_at g n) }
{
    image[node_at(g, n)]
}

// The fingerprints of eight places, from place 8 × j on.
pub fn fingerprints_of(image: &[u64], g: Geometry, n: usize, j: usize) -> u64
    requires { Sized image.now g × (n < g.nodes) × (j < 8) }
    ensures { result ≡ reads image.now (node_at g n + 8 + j) }
{
    image[node_at(g, n) + FINGERPRINTS + j]
}

// The frame of a place.
pub fn frame_of(image: &[u64], g: Geometry, n: usize, p: usize) -> u64
    requires { Sized image.now g × (n < g.nodes) × (p < 64) }
    ensures { result ≡ reads image.now (frame_at g n p) }
{
    image[node_at(g, n) + FRAMES + p]
}
