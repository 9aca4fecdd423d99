// The checks that come first: 1 for the image, 2 for its edition, 3 for the other buffers, 4 for a table of its own that is bad.
ghost use Rattle.std.specs.Prelude.{◌≡◌, cond, ◌≤◌, length, eqb};
ghost use Rattle.tree.specs.Test.{holds};
ghost use Rattle.tree.specs.Pool.{clear_map};
ghost use Rattle.operations.specs.Answers.{number_of};
ghost use Rattle.operations.specs.Checked.{map_bad, script_bad, first_checks};

use crate::answer::Refusal;
use fingerprints::own_table::bad_own;
use pool::pool_map::clear_map;
use tree::layout::{Geometry, bad_edition, bad_image, geometry_in, map_words};

// Is a map or scratch map that is borrowed not of the map's length?
fn map_bad(g: Geometry, words: Option<usize>) -> bool
    requires { g.nodes ≤ 65536 }
    ensures { result ≡ holds (map_bad g words) }
{
    words.is_some_and(|n| n != map_words(g))
}

// Is a script that is borrowed too short?
fn script_bad(words: Option<usize>) -> bool
    ensures { result ≡ holds (script_bad words) }
{
    words.is_some_and(|n| n < 50)
}

// 1, 2, 3 and 4, in this sequence: the geometry of an image that passes, or why it is refused. Of each buffer that the operation
// borrows it is told the length.
#[tactic(auto, unfolding(crate::specs::Checked::first_checks))]
pub fn checks(
    image: &[u64],
    map: Option<usize>,
    scratch: Option<usize>,
    script: Option<usize>,
) -> Result<Geometry, Refusal>
    ensures { result ≡ first_checks image.now map scratch script }
{
    let g = geometry_in(image);
    if bad_image(image.len(), g) {
        return Err(Refusal::Image);
    }
    if bad_edition(image) {
        return Err(Refusal::Edition);
    }
    let buffer_bad = map_bad(g, map) | (map_bad(g, scratch) | script_bad(script));
    if buffer_bad {
        return Err(Refusal::Buffer);
    }
    if bad_own(image) {
        return Err(Refusal::Malformed);
    }
    Ok(g)
}

// What a refusal of the checks leaves of a map that a 4 clears: the scratch map of List, Retire, Tidy and Convert, and
// Recover's pool map.
pub fn clear_on_4(map: &mut [u64], why: Refusal)
    ensures { map.new
        ≡ cond (eqb (number_of why) 4) (clear_map (length map.old)) map.old }
{
    if why == Refusal::Malformed {
        clear_map(map);
    }
}
