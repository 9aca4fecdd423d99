// Recover: the check of the whole image, then its locate words and the map.
ghost use Rattle.std.specs.Prelude.{◌≡◌, List, ℕ, length};
ghost use Rattle.book.specs.State.{recover};
ghost use Rattle.operations.specs.Answers.{answer_of, count_of};
ghost use Rattle.operations.specs.HeadLists.{heads_fresh};
ghost use Rattle.operations.specs.Ends.{no_buffers, state, ended, ends};

use operations::answer::{Answer, Refusal};
use operations::checks::{checks, clear_on_4};
use recovery::recovery::recover_image;

// Recover: an image that is not sound stays as it is, and its map is all 0.
pub fn recover(image: &mut [u64], pool: &mut [u64]) -> Answer
    ensures { (heads : List ℕ)
        → ended (answer_of result) (count_of result) (state image.new pool.new (heads_fresh heads result)) no_buffers
        ≡ ends (recover (length pool.old)) (state image.old pool.old heads)
        no_buffers }
{
    let g = match checks(image, Some(pool.len()), None, None) {
        Ok(g) => g,
        Err(why) => {
            clear_on_4(pool, why);
            return Err(why);
        }
    };
    if !recover_image(image, pool, g) {
        return Err(Refusal::Malformed);
    }
    Ok(0)
}
