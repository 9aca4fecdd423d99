// Retire: a reel goes, and its nodes are free.
ghost use Rattle.std.specs.Prelude.{◌≡◌, List, [], ℕ, length};
ghost use Rattle.book.specs.State.{retire};
ghost use Rattle.operations.specs.Answers.{answer_of, count_of};
ghost use Rattle.operations.specs.HeadLists.{heads_in};
ghost use Rattle.operations.specs.Ends.{buffers, state, ended, ends};

use crate::begin::{ReelSlot, slot_checked};
use book::{HEADS, Head};
use operations::answer::{Answer, Refusal};
use operations::heads::is_busy;
use pool::pool_map::clear_map;
use tree::layout::root_at;
use tree::persistent::put_fenced;
use walks::trees::free_tree;

// Retire a reel: its root becomes 0. Past the checks the scratch map is all 0 in the end.
pub fn retire(
    image: &[u64],
    pool: &mut [u64],
    heads: [Head; HEADS],
    scratch: &mut [u64],
    script: &mut [u64],
    reel: u64,
) -> Answer
    ensures { (ws : List ℕ)
        → heads_in ws ≡ heads
        → ended (answer_of result) (count_of result) (state image.now pool.new ws)
        (buffers scratch.new script.new [])
        ≡ ends
        (retire (length pool.old) (length scratch.old) (length script.old) reel)
        (state image.now pool.old ws) (buffers scratch.old script.old []) }
{
    let ReelSlot { g, slot } = slot_checked(
        image,
        Some(pool.len()),
        scratch,
        Some(script.len()),
        reel,
    )?;
    if is_busy(heads, slot) {
        clear_map(scratch);
        return Err(Refusal::Busy);
    }
    if !free_tree(image, pool, scratch, g, slot) {
        return Err(Refusal::Malformed);
    }
    put_fenced(script, root_at(slot) as u64, 0);
    Ok(4)
}
