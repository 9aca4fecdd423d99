// Convert: the image of the other edition, into a second image.
ghost use Rattle.std.specs.Prelude.{◌≡◌, List, [], ℕ, length};
ghost use Rattle.book.specs.State.{query, convert};
ghost use Rattle.operations.specs.Answers.{answer_of};
ghost use Rattle.operations.specs.Ends.{all_buffers, state, ended, ends};

use conversion::conversion::convert_image;
use fingerprints::own_table::has_own;
use operations::answer::{Answer, Refusal};
use operations::checks::{checks, clear_on_4};
use pool::pool_map::clear_map;
use recovery::recovery::check_image;

// Convert to the other edition. All is checked before the first store to the copy; past the checks the scratch map is all 0
// in the end.
pub fn convert(image: &[u64], copy: &mut [u64], scratch: &mut [u64]) -> Answer
    ensures { (pool ws : List ℕ)
        → ended (answer_of result) 0 (state image.now pool ws)
        (all_buffers scratch.new [] [] copy.new)
        ≡ ends (query (convert (length scratch.old) (length copy.old)))
        (state image.now pool ws) (all_buffers scratch.old [] [] copy.old) }
{
    if copy.len() != image.len() {
        return Err(Refusal::Image);
    }
    let g = match checks(image, None, Some(scratch.len()), None) {
        Ok(g) => g,
        Err(why) => {
            clear_on_4(scratch, why);
            return Err(why);
        }
    };
    if !check_image(image, scratch, g) {
        return Err(Refusal::Malformed);
    }
    if has_own(image) {
        clear_map(scratch);
        return Err(Refusal::OwnTable);
    }
    convert_image(image, scratch, copy, g);
    clear_map(scratch);
    Ok(0)
}
