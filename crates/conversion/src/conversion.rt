// Conversion: the image of the other edition, written into a second image part after part, from the first word to the last, each
// once.
ghost use Rattle.std.specs.Prelude.{◌≡◌, cond, ℕ, ◌+◌, ◌*◌, ◌≤◌, ◌<◌, length};
ghost use Rattle.memory.specs.Words.{reads};
ghost use Rattle.tree.specs.Layout.{Sized, geometry_of, node_at};
ghost use Rattle.tree.specs.Fingerprint.{rule_for, the_table, bytes_to};
ghost use Rattle.tree.specs.Subtree.{all_trees, nodes_of};
ghost use Rattle.tree.specs.Pool.{map_of};
ghost use Rattle.tree.specs.Convert.{other_edition, new_print, converted_image};
ghost use Rattle.fingerprints.specs.Filled.{FilledTo};
ghost use Rattle.conversion.specs.Written.{WrittenTo, Zeros, ReachedWith};

use fingerprints::fingerprint::{fold_for, table};
use memory::words::{is_set, with_byte};
use pool::pool_map::is_used;
use tree::layout::{
    FINGERPRINTS, FRAMES, Geometry, LEVEL, LOCATE, SET, SIZE, edition, frame_of, next_of, node_at,
    reel_at, reel_of, root_at, root_of, word_of,
};

// The other edition: 2 of 1, and 1 of 2.
fn other_edition(edition: u64) -> u64
    ensures { result ≡ other_edition edition }
{
    match edition {
        1 => 2,
        _ => 1,
    }
}

// Zeros from one word up to another: the next words of whatever array is to have zeros there.
fn put_zeros(copy: &mut [u64], from: usize, to: usize)
    requires { (from ≤ to) × (to ≤ length copy.old) }
    ensures { (f : ℕ → ℕ) (n : ℕ)
        → Zeros f from to
        → FilledTo f n copy.old from
        → FilledTo f n copy.new to }
{
    copy[from..to].fill(0);
}

// Words 0 to 63, whatever the geometry: an edition, R, N, and zeros.
fn put_header(image: &[u64], copy: &mut [u64], edition: u64)
    requires { (64 ≤ length image.now) × (length copy.old ≡ length image.now) }
    ensures { (g : Geometry) → WrittenTo edition g image.now copy.new 64 }
{
    copy[0] = edition;
    copy[1] = image[1];
    copy[2] = image[2];
    put_zeros(copy, 3, 64);
}

// A word that is to be kept; else 0. It is read either way: so the compiler makes no branch of it over the frames of a node.
fn or_zero(keep: bool, word: u64) -> u64
    ensures { result ≡ cond keep word 0 }
{
    if keep { word } else { 0 }
}

// The slots, whatever the edition: an empty one becomes two zero words; its root is 0 as it is.
fn put_slots(image: &[u64], copy: &mut [u64], g: Geometry)
    requires { Sized image.now g × (length copy.old ≡ length image.now) }
    ensures { (e : ℕ)
        → WrittenTo e g image.now copy.old 64
        → WrittenTo e g image.now copy.new (node_at g 0) }
{
    for s in 0..g.slots {
        let root = root_of(image, g, s);
        copy[reel_at(s)] = or_zero(root != 0, reel_of(image, g, s));
        copy[root_at(s)] = root;
    }
}

// By what fingerprints are made: an edition, whose rule says what is folded, and the paper's table, laid out once.
#[derive(Clone, Copy)]
struct Rule<'a> {
    edition: u64,
    table: &'a [u8],
    ghost laid: { table.now ≡ the_table },
}

// A node that is reached, as it is copied: its number, and its set word, which says what places hold a frame.
#[derive(Clone, Copy)]
struct ReachedNode {
    number: usize,
    set: u64,
}

// A place's fingerprint by the rule where the node's set word says that a frame is held; else 0. It is made in both
// cases: whether a place is held is hard to predict.
fn new_print(image: &[u64], g: Geometry, rule: &Rule, node: ReachedNode, p: usize) -> u64
    requires { Sized image.now g × ReachedWith g (reads image.now) node.number node.set × (p < 64) }
    ensures { result ≡ new_print g (reads image.now) (rule_for rule.now.edition) node.number p }
{
    let print = fold_for(rule.edition, rule.table, frame_of(image, g, node.number, p));
    or_zero(is_set(node.set, p as u32), print)
}

// Those of eight places in a word, lowest byte first.
fn new_prints(image: &[u64], g: Geometry, rule: &Rule, node: ReachedNode, j: usize) -> u64
    requires { Sized image.now g × ReachedWith g (reads image.now) node.number node.set × (j < 8) }
    ensures { result ≡ bytes_to (λ k. new_print g (reads image.now) (rule_for rule.now.edition) node.number (8 * j + k)) 8 }
{
    let mut w = 0;
    for k in 0..8 {
        w = with_byte(w, k as u32, new_print(image, g, rule, node, 8 * j + k));
    }
    w
}

// Words 8 to 15 of a reached node: fingerprints by the rule.
fn put_prints(image: &[u64], copy: &mut [u64], g: Geometry, rule: &Rule, node: ReachedNode)
    requires { Sized image.now g
        × ReachedWith g (reads image.now) node.number node.set
        × WrittenTo rule.now.edition g image.now copy.old (node_at g node.number + 8) }
    ensures { WrittenTo rule.now.edition g image.now copy.new (node_at g node.number + 16) }
{
    let at = node_at(g, node.number) + FINGERPRINTS;
    for j in 0..8 {
        copy[at + j] = new_prints(image, g, rule, node, j);
    }
}

// Words 16 to 79 of a reached node, whatever the edition: the frames that its set word says are held, else 0.
fn put_frames(image: &[u64], copy: &mut [u64], g: Geometry, node: ReachedNode)
    requires { Sized image.now g × ReachedWith g (reads image.now) node.number node.set × (length copy.old ≡ length image.now) }
    ensures { (e : ℕ)
        → WrittenTo e g image.now copy.old (node_at g node.number + 16)
        → WrittenTo e g image.now copy.new (node_at g node.number + 80) }
{
    let at = node_at(g, node.number) + FRAMES;
    for p in 0..64 {
        copy[at + p] = or_zero(
            is_set(node.set, p as u32),
            frame_of(image, g, node.number, p),
        );
    }
}

// Words 0 to 7 of a reached node, whatever the edition: the set word stands for locate too, and words 5 to 7 are 0.
fn put_head(image: &[u64], copy: &mut [u64], g: Geometry, node: ReachedNode)
    requires { Sized image.now g × ReachedWith g (reads image.now) node.number node.set × (length copy.old ≡ length image.now) }
    ensures { (e : ℕ)
        → WrittenTo e g image.now copy.old (node_at g node.number)
        → WrittenTo e g image.now copy.new (node_at g node.number + 8) }
{
    let at = node_at(g, node.number);
    copy[at] = next_of(image, g, node.number);
    copy[at + LOCATE] = node.set;
    copy[at + SET] = node.set;
    copy[at + LEVEL] = word_of(image, g, node.number, LEVEL);
    copy[at + SIZE] = word_of(image, g, node.number, SIZE);
    put_zeros(copy, at + 5, at + FINGERPRINTS);
}

// A node's 80 words: all 0 where the map does not mark it.
fn put_node(image: &[u64], marks: &[u64], copy: &mut [u64], g: Geometry, rule: &Rule, n: usize)
    requires { Sized image.now g
        × (marks.now ≡ map_of g (nodes_of (all_trees g (reads image.now))))
        × (n < g.nodes)
        × WrittenTo rule.now.edition g image.now copy.old (node_at g n) }
    ensures { WrittenTo rule.now.edition g image.now copy.new (node_at g n + 80) }
{
    if is_used(marks, n) {
        let set = word_of(image, g, n, SET);
        let node = ReachedNode { number: n, set };
        put_head(image, copy, g, node);
        put_prints(image, copy, g, rule, node);
        put_frames(image, copy, g, node);
    } else {
        let at = node_at(g, n);
        put_zeros(copy, at, at + 80);
    }
}

// Writes the image of the other edition over the whole of a second image of the same length. The map marks exactly the nodes
// reached.
pub fn convert_image(image: &[u64], marks: &[u64], copy: &mut [u64], g: Geometry)
    requires { Sized image.now g
        × (g ≡ geometry_of (reads image.now))
        × (length copy.old ≡ length image.now)
        × (marks.now ≡ map_of g (nodes_of (all_trees g (reads image.now)))) }
    ensures { copy.new ≡ converted_image image.now }
{
    let other = other_edition(edition(image));
    let table = table();
    let rule = Rule {
        edition: other,
        table: &table,
    };
    put_header(image, copy, other);
    put_slots(image, copy, g);
    for n in 0..g.nodes {
        put_node(image, marks, copy, g, &rule, n);
    }
}
