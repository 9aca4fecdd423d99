// What List, Retire and Tidy begin with: the checks, and the reel's slot.
ghost use Rattle.std.specs.Prelude.{◌≡◌, length, Some};
ghost use Rattle.operations.specs.Checked.{first_checks};
ghost use Rattle.reels.specs.Begin.{slot_past, scratch_begun};

use nodes::reels::slot_of;
use operations::answer::Refusal;
use operations::checks::{checks, clear_on_4};
use pool::pool_map::clear_map;
use tree::layout::Geometry;

// A reel's slot in an image that has passed the checks, and the image's geometry.
#[derive(Clone, Copy)]
pub struct ReelSlot {
    pub g: Geometry,
    pub slot: usize,
}

// 1 to 4, then 5 where the reel has no slot. Past 3 a refusal leaves the scratch map all 0; else it stays.
#[inline(always)]
pub fn slot_checked(
    image: &[u64],
    map: Option<usize>,
    scratch: &mut [u64],
    script: Option<usize>,
    reel: u64,
) -> Result<ReelSlot, Refusal>
    ensures slot { result
        ≡ slot_past image.now reel (first_checks image.now map (Some (length scratch.old)) script) }
    ensures scratch_left { scratch.new ≡ scratch_begun result scratch.old }
{
    let g = match checks(image, map, Some(scratch.len()), script) {
        Ok(g) => g,
        Err(why) => {
            clear_on_4(scratch, why);
            return Err(why);
        }
    };
    let slot = slot_of(image, g, reel);
    if g.slots <= slot {
        clear_map(scratch);
        return Err(Refusal::NoReel);
    }
    Ok(ReelSlot { g, slot })
}
