// Tidy: a group of empty children is given back.
ghost use Rattle.std.specs.Prelude.{◌≡◌, List, [], ℕ, length};
ghost use Rattle.book.specs.State.{tidy};
ghost use Rattle.operations.specs.Answers.{answer_of, count_of};
ghost use Rattle.operations.specs.HeadLists.{heads_in};
ghost use Rattle.operations.specs.Ends.{buffers, state, ended, ends};

use crate::begin::{ReelSlot, slot_checked};
use book::{HEADS, Head};
use groups::group::free_group;
use groups::search::search_slot;
use operations::answer::{Answer, Refusal};
use operations::heads::is_busy;
use pool::pool_map::clear_map;
use tree::layout::node_at;
use tree::persistent::put_fenced;
use visits::visit::sound_tree;

// Tidy a reel: the first node whose children are all empty loses them. Past the checks the scratch map is all 0 in the end.
pub fn tidy(
    image: &[u64],
    pool: &mut [u64],
    heads: [Head; HEADS],
    scratch: &mut [u64],
    script: &mut [u64],
    reel: u64,
) -> Answer
    ensures { (ws : List ℕ)
        → heads_in ws ≡ heads
        → ended (answer_of result) (count_of result) (state image.now pool.new ws)
        (buffers scratch.new script.new [])
        ≡ ends
        (tidy (length pool.old) (length scratch.old) (length script.old) reel)
        (state image.now pool.old ws) (buffers scratch.old script.old []) }
{
    let ReelSlot { g, slot } = slot_checked(
        image,
        Some(pool.len()),
        scratch,
        Some(script.len()),
        reel,
    )?;
    if is_busy(heads, slot) {
        clear_map(scratch);
        return Err(Refusal::Busy);
    }
    if !sound_tree(image, scratch, g, slot) {
        return Err(Refusal::Malformed);
    }
    match search_slot(image, g, slot) {
        None => Err(Refusal::NoGroup),
        Some(found) => {
            free_group(image, pool, g, found.node, found.depth);
            put_fenced(script, node_at(g, found.node) as u64, 0);
            Ok(4)
        }
    }
}
