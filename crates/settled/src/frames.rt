// The test that recovery makes of a tree's frames, by a walk over nodes that are known to be well formed.
ghost use Rattle.std.specs.Prelude.{◌≡◌, true, ◌-◌, ◌≤◌, ◌<◌};
ghost use Rattle.memory.specs.Words.{reads};
ghost use Rattle.memory.specs.Search.{first};
ghost use Rattle.tree.specs.Layout.{Sized};
ghost use Rattle.tree.specs.Lists.{every};
ghost use Rattle.tree.specs.Path.{levels};
ghost use Rattle.tree.specs.Fingerprint.{fingerprint, rule_of};
ghost use Rattle.tree.specs.Node.{frame};
ghost use Rattle.tree.specs.Pool.{mark};
ghost use Rattle.tree.specs.Slots.{Filled};
ghost use Rattle.tree.specs.Subtree.{tree};
ghost use Rattle.tree.specs.Check.{is_sound_tree, in_place};
ghost use Rattle.fingerprints.specs.Tables.{table_in};
ghost use Rattle.settled.specs.Settled.{Formed, Known, KnownGroup, Met, is_absent, absent_below, holds_at};
ghost use Rattle.settled.specs.Settled.{settled_at, settled_node, settled_tree, settled_group};

use fingerprints::fingerprint::{fold, table_in};
use memory::words::{byte_of, is_set, without_bit};
use paths::descent::{Malformed, Trail, step_from, walk};
use pool::pool_map::{is_used, mark};
use tree::layout::{Geometry, SET, fingerprints_of, frame_of, next_of, root_of, word_of};
use tree::path::fanout;

// Does a walk end, and without the frame?
fn is_absent(end: Result<Trail, Malformed>) -> bool
    ensures { result ≡ is_absent end }
{
    matches!(end, Ok(Trail { found: None, .. }))
}

// Does the lookup find a frame in no node of its path below this one?
fn absent_below(image: &[u64], g: Geometry, left: u64, n: usize, frame: u64, print: u64) -> bool
    requires { Sized image.now g
        × Formed g (reads image.now) left n
        × (print ≡ fingerprint (rule_of (reads image.now)) frame) }
    ensures { result ≡ absent_below g (reads image.now) left (levels - left) n frame }
{
    match step_from(image, g, 32 - left, n, frame) {
        None => true,
        Some(below) => is_absent(walk(image, g, 33 - left, below, frame, print, false)),
    }
}

// A node where the test stands, or the first of a group of children, levels left. The frames on their path have the low bits
// that the way to the node reads: the suffix, a number below the unit. In a group the unit is the parent's.
#[derive(Clone, Copy)]
struct Subtree {
    left: u64,
    node: usize,
    suffix: u64,
    unit: u64,
}

// The lowest place of a node, below a bound, that holds a frame, or the bound.
fn first_held(image: &[u64], g: Geometry, n: usize, frame: u64, bound: usize) -> usize
    requires { Sized image.now g × (n < g.nodes) × (bound ≤ 64) }
    ensures { result ≡ first (holds_at g (reads image.now) n frame) bound }
{
    let set = word_of(image, g, n, SET);
    (0..bound)
        .find(|q| is_set(set, *q as u32) & (frame_of(image, g, n, *q) == frame))
        .unwrap_or(bound)
}

// Is the frame of a place settled: on its path, with its fingerprint, in no lower place of its node and in no node below? The
// lower places have their fingerprints marked: they are searched only where one of them has this frame's.
fn settled_at(
    image: &[u64],
    table: &[u8],
    g: Geometry,
    t: Subtree,
    p: usize,
    met: &mut [u64; 4],
) -> bool
    requires { Sized image.now g
        × Known g (reads image.now) t
        × (p < 64)
        × (table.now ≡ table_in (reads image.now))
        × Met g (reads image.now) t.node (λ q. q < p) met.old }
    ensures { (result ≡ settled_at g (reads image.now) t.left (levels - t.left) t.node t.suffix p)
        × (met.new
        ≡ mark met.old
        (fingerprint (rule_of (reads image.now)) (frame g (reads image.now) t.node p))) }
{
    let n = t.node;
    let frame = frame_of(image, g, n, p);
    let print = fold(image, table, frame);
    let stored = byte_of(fingerprints_of(image, g, n, p / 8), (p % 8) as u32);
    let again = is_used(met, print as usize);
    mark(met, print as usize);
    if frame & (t.unit - 1) != t.suffix {
        return false;
    }
    if stored != print {
        return false;
    }
    if again && first_held(image, g, n, frame, p) != p {
        return false;
    }
    absent_below(image, g, t.left, n, frame, print)
}

// Is every frame held in a node settled?
fn settled_node(image: &[u64], table: &[u8], g: Geometry, t: Subtree) -> bool
    requires { Sized image.now g × Known g (reads image.now) t × (table.now ≡ table_in (reads image.now)) }
    ensures { result ≡ settled_node g (reads image.now) t.left (levels - t.left) t.node t.suffix }
{
    // The set bits of the places not yet tested, and a bit for each fingerprint of the others.
    let mut rest = word_of(image, g, t.node, SET);
    let mut met = [0u64; 4];
    while rest != 0 {
        let p = u64::trailing_zeros(rest);
        if !settled_at(image, table, g, t, p as usize, &mut met) {
            return false;
        }
        rest = without_bit(rest, p);
    }
    true
}

// Is every frame held in a node and in all below it, levels left, settled?
#[cycle(settled_group_settled_tree)]
fn settled_tree(image: &[u64], table: &[u8], g: Geometry, t: Subtree) -> bool
    requires { Sized image.now g
        × Known g (reads image.now) t
        × (t.suffix < t.unit)
        × (table.now ≡ table_in (reads image.now)) }
    ensures { result ≡ settled_tree g (reads image.now) t.left (levels - t.left) t.node t.suffix }
{
    if !settled_node(image, table, g, t) {
        return false;
    }
    let next = next_of(image, g, t.node) as usize;
    if next == 0 {
        return true;
    }
    let below = Subtree {
        left: t.left - 1,
        node: next - 1,
        suffix: t.suffix,
        unit: t.unit,
    };
    settled_group(image, table, g, below, fanout(32 - t.left))
}

// The same of a group of children, whose suffixes are a unit apart.
#[cycle(settled_group_settled_tree)]
fn settled_group(image: &[u64], table: &[u8], g: Geometry, t: Subtree, count: usize) -> bool
    requires { Sized image.now g
        × KnownGroup g (reads image.now) t count
        × (t.suffix < t.unit)
        × (table.now ≡ table_in (reads image.now)) }
    ensures { result ≡ settled_group g (reads image.now) t.left (levels - t.left) t.node count t.unit t.suffix }
{
    let mut own = t.suffix;
    for c in 0..count {
        let child = Subtree {
            left: t.left,
            node: t.node + c,
            suffix: own,
            unit: count as u64 * t.unit,
        };
        if !settled_tree(image, table, g, child) {
            return false;
        }
        own += t.unit;
    }
    true
}

// Does the lookup find each frame of a slot's tree, which is known to be sound, where it is held?
pub fn frames_in_place(image: &[u64], g: Geometry, slot: usize) -> bool
    requires { Sized image.now g × Filled g (reads image.now) slot × (is_sound_tree g (reads image.now) slot ≡ true) }
    ensures { result
        ≡ every (in_place (rule_of (reads image.now)) g (reads image.now) slot)
        (tree g (reads image.now) slot) }
{
    let root = root_of(image, g, slot) as usize;
    let table = table_in(image);
    let whole = Subtree {
        left: 32,
        node: root - 1,
        suffix: 0,
        unit: 1,
    };
    settled_tree(image, &table, g, whole)
}
