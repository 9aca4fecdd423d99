// Open: a slot and a root node for a reel.
ghost use Rattle.std.specs.Prelude.{◌≡◌, List, [], ℕ, ◌≤◌, ◌<◌, length};
ghost use Rattle.tree.specs.Memory.{segmented, written};
ghost use Rattle.book.specs.Perform.{open_script};
ghost use Rattle.book.specs.State.{open_reel};
ghost use Rattle.operations.specs.Answers.{answer_of, count_of};
ghost use Rattle.operations.specs.Ends.{buffers, state, ended, ends};

use nodes::reels::{empty_slot, slot_of};
use operations::answer::{Answer, Refusal};
use operations::checks::checks;
use operations::node_script::put_node;
use pool::pool_map::{free_node, mark};
use tree::layout::{Geometry, reel_at, root_at};
use tree::persistent::put_fenced_pair;

// The root node and the reel number, then the root.
fn put_open(script: &mut [u64], g: Geometry, slot: usize, n: usize, reel: u64)
    requires { (18 ≤ length script.old) × (g.slots ≤ 4096) × (slot < g.slots) × (n < 65536) }
    ensures { script.new ≡ written (segmented (open_script g slot n reel)) script.old }
{
    put_node(script, g, n, 0, 16);
    let number = reel_at(slot) as u64;
    let root = root_at(slot) as u64;
    put_fenced_pair(&mut script[10..], number, reel, root, (n + 1) as u64);
}

// Open a reel: the lowest empty slot, and the lowest free node as its root.
pub fn open(image: &[u64], pool: &mut [u64], script: &mut [u64], reel: u64) -> Answer
    ensures { (heads : List ℕ)
        → ended (answer_of result) (count_of result) (state image.now pool.new heads)
        (buffers [] script.new [])
        ≡ ends (open_reel (length pool.old) (length script.old) reel)
        (state image.now pool.old heads) (buffers [] script.old []) }
{
    let g = checks(image, Some(pool.len()), None, Some(script.len()))?;
    if slot_of(image, g, reel) < g.slots {
        return Err(Refusal::AlreadyOpen);
    }
    let slot = empty_slot(image, g);
    if g.slots <= slot {
        return Err(Refusal::NoSlot);
    }
    let n = free_node(pool, g);
    if g.nodes <= n {
        return Err(Refusal::NoRun);
    }
    put_open(script, g, slot, n, reel);
    mark(pool, n);
    Ok(18)
}
