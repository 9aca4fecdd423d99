// List: a reel's frames.
ghost use Rattle.std.specs.Prelude.{◌≡◌, List, [], ℕ, length};
ghost use Rattle.book.specs.State.{query, list as list-reel};
ghost use Rattle.operations.specs.Answers.{answer_of, count_of};
ghost use Rattle.operations.specs.Ends.{buffers, state, ended, ends};

use crate::begin::{ReelSlot, slot_checked};
use operations::answer::{Answer, Refusal};
use walks::trees::{ListError, list_tree};

// List a reel's frames: all of them, or the list stays as it is. Past the checks the scratch map is all 0 in the end.
pub fn list(image: &[u64], scratch: &mut [u64], list: &mut [u64], reel: u64) -> Answer
    ensures { (pool ws : List ℕ)
        → ended (answer_of result) (count_of result) (state image.now pool ws)
        (buffers scratch.new [] list.new)
        ≡ ends (query (list-reel (length scratch.old) (length list.old) reel))
        (state image.now pool ws) (buffers scratch.old [] list.old) }
{
    let ReelSlot { g, slot } = slot_checked(image, None, scratch, None, reel)?;
    match list_tree(image, scratch, list, g, slot) {
        Err(ListError::Malformed) => Err(Refusal::Malformed),
        Err(ListError::Short) => Err(Refusal::ListShort),
        Ok(frames) => Ok(frames as u64),
    }
}
