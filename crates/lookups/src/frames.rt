// Has and Remove: a frame looked up in its reel.
ghost use Rattle.std.specs.Prelude.{◌≡◌, List, [], ℕ, ◌≤◌, ◌<◌, length};
ghost use Rattle.tree.specs.Memory.{segmented, written, reads};
ghost use Rattle.tree.specs.Layout.{Sized};
ghost use Rattle.book.specs.State.{remove, query, has};
ghost use Rattle.book.specs.Perform.{remove_script};
ghost use Rattle.operations.specs.Answers.{answer_of, count_of};
ghost use Rattle.operations.specs.HeadLists.{heads_in};
ghost use Rattle.operations.specs.Ends.{buffers, no_buffers, state, ended_path, ended, ends};
ghost use Rattle.lookups.specs.Answers.{yes_of, nodes_of};

use book::{HEADS, Head};
use fingerprints::fingerprint::fingerprint;
use nodes::reels::slot_of;
use operations::answer::{Answer, Refusal};
use operations::checks::checks;
use operations::heads::is_busy;
use paths::descent::find;
use tree::layout::{Geometry, LOCATE, SET, node_at, word_of};
use tree::path::Spot;
use tree::persistent::{put_fenced_pair, without_bit};

// What Has tells: whether the reel holds the frame, and the number of nodes on the frame's path.
#[derive(Clone, Copy)]
pub struct Had {
    pub yes: bool,
    pub nodes: u64,
}

// Does a reel hold a frame, and how many nodes does the frame's path have?
pub fn has(image: &[u64], reel: u64, frame: u64) -> Result<Had, Refusal>
    ensures { (pool ws : List ℕ)
        → ended_path (answer_of (yes_of result)) (count_of (yes_of result)) (nodes_of result) (state image.now pool ws) no_buffers
        ≡ ends (query (has reel frame)) (state image.now pool ws) no_buffers }
{
    let g = checks(image, None, None, None)?;
    let slot = slot_of(image, g, reel);
    if g.slots <= slot {
        return Err(Refusal::NoReel);
    }
    let Ok(path) = find(image, g, slot, frame, fingerprint(image, frame)) else {
        return Err(Refusal::Malformed);
    };
    Ok(Had {
        yes: path.found.is_some(),
        nodes: path.nodes,
    })
}

// Remove's script: the set word without the place's bit, then the locate word without it.
fn put_remove(image: &[u64], g: Geometry, script: &mut [u64], t: Spot)
    requires { Sized image.now g × (t.node < g.nodes) × (t.place < 64) × (8 ≤ length script.old) }
    ensures { script.new ≡ written (segmented (remove_script g (reads image.now) t)) script.old }
{
    let at = node_at(g, t.node);
    let place = t.place as u32;
    put_fenced_pair(
        script,
        (at + SET) as u64,
        without_bit(word_of(image, g, t.node, SET), place),
        (at + LOCATE) as u64,
        without_bit(word_of(image, g, t.node, LOCATE), place),
    );
}

// Take a frame out of its reel, unless a head that is not idle works on the reel.
pub fn remove(
    image: &[u64],
    heads: [Head; HEADS],
    script: &mut [u64],
    reel: u64,
    frame: u64,
) -> Answer
    ensures { (pool ws : List ℕ)
        → heads_in ws ≡ heads
        → ended (answer_of result) (count_of result) (state image.now pool ws) (buffers [] script.new [])
        ≡ ends (remove (length script.old) reel frame) (state image.now pool ws)
        (buffers [] script.old []) }
{
    let g = checks(image, None, None, Some(script.len()))?;
    let slot = slot_of(image, g, reel);
    if g.slots <= slot {
        return Err(Refusal::NoReel);
    }
    if is_busy(heads, slot) {
        return Err(Refusal::Busy);
    }
    let Ok(path) = find(image, g, slot, frame, fingerprint(image, frame)) else {
        return Err(Refusal::Malformed);
    };
    let Some(t) = path.found else {
        return Err(Refusal::FrameNotHeld);
    };
    put_remove(image, g, script, t);
    Ok(8)
}
