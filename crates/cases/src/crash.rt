// The crashes of a script: power is lost just before a barrier, and of the stores since the barrier before it any are kept and
// the others lost.
ghost use Rattle.std.specs.Prelude.{◌*◌, ◌≤◌, length};

use crate::buffers::Buffer;
use crate::driver::{IMAGE_WORDS, LIST_WORDS, SCRIPT_WORDS};
use crate::outcome::{Crash, Crashes};
use crate::values::ONES;
use reelbook::{HEAD_WORDS, reelbook_apply, reelbook_list, reelbook_recover};

// The most stores before a barrier of which all mixtures are tried.
const MOST: usize = 16;

// What each crash is to leave: a reel that has these frames, and one of two maps.
#[derive(Clone, Copy)]
pub struct Due<'a> {
    pub reel: u64,
    pub frames: &'a [u64],
    pub maps: [u64; 2],
}

// A crash just before each barrier, and at the end, that has stores to order.
pub fn crashes(image: &Buffer<IMAGE_WORDS>, script: &Buffer<SCRIPT_WORDS>, due: &Due) -> Crashes
    ensures { 2 * length result ≤ script.now.lent }
{
    let script = script.lent();
    let entries = script.len() / 2;
    let mut crashes = Crashes::new();
    let mut first = 0;
    for entry in 0..=entries {
        if entry == entries || script[2 * entry] == ONES {
            if first < entry {
                let carried = &script[..2 * first];
                let pending = &script[2 * first..2 * entry];
                crashes.push(crash_before(image, carried, pending, due));
            }
            first = entry + 1;
        }
    }
    crashes
}

// All mixtures of the pending stores kept and lost, each from the image as it was.
fn crash_before(image: &Buffer<IMAGE_WORDS>, carried: &[u64], pending: &[u64], due: &Due) -> Crash {
    let stores = pending.len() / 2;
    let mixtures = if stores <= MOST { 1 << stores } else { 0 };
    let as_before = (0..mixtures)
        .filter(|mixture| {
            let mut image = *image;
            let left = image.lent_mut();
            is_stored(left, carried, pending, *mixture) && due.is_left(left)
        })
        .count();
    Crash {
        stores,
        mixtures,
        as_before,
    }
}

// Stores what a crash keeps: the entries before the first, and of the pending stores those whose bit of the mixture is 1. Is all
// of that answered 0?
fn is_stored(image: &mut [u64], carried: &[u64], pending: &[u64], mixture: u64) -> bool {
    if reelbook_apply(image, carried) != 0 {
        return false;
    }
    let mut bits = mixture;
    for store in pending.chunks_exact(2) {
        if bits % 2 == 1 && reelbook_apply(image, store) != 0 {
            return false;
        }
        bits /= 2;
    }
    true
}

impl Due<'_> {
    // Map and heads are lost: they come up as all ones. A recovery leaves every head idle.
    fn is_left(&self, image: &mut [u64]) -> bool {
        let mut map = [ONES];
        let mut heads = [ONES; HEAD_WORDS];
        reelbook_recover(image, &mut map, &mut heads) == 0
            && heads == [0; HEAD_WORDS]
            && self.maps.contains(&map[0])
            && self.is_listed(image)
    }

    fn is_listed(&self, image: &[u64]) -> bool {
        let mut again = [0; LIST_WORDS];
        let mut scratch = [ONES];
        let mut count = ONES;
        let number = reelbook_list(image, &mut scratch, &mut again, self.reel, &mut count);
        number == 0 && count == self.frames.len() as u64 && again.starts_with(self.frames)
    }
}
