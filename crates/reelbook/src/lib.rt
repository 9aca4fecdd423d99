// The C interface: thin wrappers, in which numbers and the driver's words meet the proved operations. The crate reelbook_c
// exports them to C.
//
// A script's first `used` words are to be carried out, each barrier passed where it stands, before the next call; the map
// and the head records have changed when the call returns. The driver passes a barrier after Format and after Recover.
// After power-up it calls Recover, and nothing else until that answers 0. `reelbook_apply` passes no barriers: it is for
// images that need no crash safety while it runs. No buffer may overlap another. Buffers lent to be read stay.
#![tactic(auto)]

ghost use Rattle.std.specs.Prelude.{◌≡◌, List, [], ℕ, length};
ghost use Rattle.book.specs.State.{format, recover, open_reel, claim, fill, commit, abandon, remove, retire, tidy};
ghost use Rattle.book.specs.State.{query, has, list as list_reel, convert};
ghost use Rattle.book.specs.CarryOut.{carry, carried};
ghost use Rattle.tree.specs.Memory.{translate as translate_words, translation};
ghost use Rattle.operations.specs.Ends.{all_buffers, buffers, no_buffers, state, ended, ended_left, ended_path, ends};

use claims::claim;
use images::{apply, convert, format, recover, translate};
use lookups::frames;
use operations::hand_over::{answer_number, hand_over, hand_over_fresh, hand_over_head};
use operations::head_words::{read_heads, state_of};
use reels::{list, open, retire, tidy};
// the length of the heads' words; how many stores a script has, for those who print it
pub use book::HEAD_WORDS;
pub use tree::persistent::count_stores;

// Makes the image anew, with so many reel slots and nodes, and with a table of its own where one is given: 256 bytes, each
// once. One of length 0 is none.
pub fn reelbook_format(
    image: &mut [u64],
    map: &mut [u64],
    heads: &mut [u64; HEAD_WORDS],
    table: &[u8],
    slots: u64,
    nodes: u64,
) -> u64
    ensures { ended result 0 (state image.new map.new heads.new) no_buffers
        ≡ ends (format (length map.old) table.now slots nodes)
        (state image.old map.old heads.old) no_buffers }
{
    hand_over_fresh(format::format(image, map, table, slots, nodes), heads)
}

// After power-up: checks the image, sets its locate words, builds the map, makes the heads idle.
pub fn reelbook_recover(image: &mut [u64], map: &mut [u64], heads: &mut [u64; HEAD_WORDS]) -> u64
    ensures { ended result 0 (state image.new map.new heads.new) no_buffers
        ≡ ends (recover (length map.old))
        (state image.old map.old heads.old) no_buffers }
{
    hand_over_fresh(recover::recover(image, map), heads)
}

// Takes a slot and a node for a reel, and writes the script that opens it.
pub fn reelbook_open(
    image: &[u64],
    map: &mut [u64],
    script: &mut [u64],
    reel: u64,
    used: &mut u64,
) -> u64
    ensures { (heads : List ℕ)
        → ended result used.new (state image.now map.new heads)
        (buffers [] script.new [])
        ≡ ends (open_reel (length map.old) (length script.old) reel)
        (state image.now map.old heads) (buffers [] script.old []) }
{
    hand_over(open::open(image, map, script, reel), used)
}

// Takes a place for a frame, writes the script that claims it, and tells how many clear places its node has left then.
pub fn reelbook_claim(
    image: &[u64],
    map: &mut [u64],
    heads: &mut [u64; HEAD_WORDS],
    script: &mut [u64],
    head: u64,
    reel: u64,
    frame: u64,
    used: &mut u64,
    left: &mut u64,
) -> u64
    ensures { ended_left result used.new left.new
        (state image.now map.new heads.new) (buffers [] script.new [])
        ≡ ends (claim (length map.old) (length script.old) head reel frame)
        (state image.now map.old heads.old) (buffers [] script.old []) }
{
    let claimed = claim::claim(image, map, read_heads(heads), script, head, reel, frame);
    *left = claimed.map_or(0, |done| done.left);
    let answer = claimed.map(|done| done.head);
    hand_over_head(answer, heads, head, used)
}

// Writes the script that puts the frame and its fingerprint in the claimed place.
pub fn reelbook_fill(
    image: &[u64],
    heads: &mut [u64; HEAD_WORDS],
    script: &mut [u64],
    head: u64,
    used: &mut u64,
) -> u64
    ensures { (pool : List ℕ)
        → ended result used.new (state image.now pool heads.new)
        (buffers [] script.new [])
        ≡ ends (fill (length script.old) head) (state image.now pool heads.old)
        (buffers [] script.old []) }
{
    let answer = targets::fill(image, state_of(heads, head), script, head);
    hand_over_head(answer, heads, head, used)
}

// Writes the script that makes the frame a member of its reel.
pub fn reelbook_commit(
    image: &[u64],
    heads: &mut [u64; HEAD_WORDS],
    script: &mut [u64],
    head: u64,
    used: &mut u64,
) -> u64
    ensures { (pool : List ℕ)
        → ended result used.new (state image.now pool heads.new)
        (buffers [] script.new [])
        ≡ ends (commit (length script.old) head) (state image.now pool heads.old)
        (buffers [] script.old []) }
{
    let answer = targets::commit(image, state_of(heads, head), script, head);
    hand_over_head(answer, heads, head, used)
}

// Writes the script that gives the claimed place back.
pub fn reelbook_abandon(
    image: &[u64],
    heads: &mut [u64; HEAD_WORDS],
    script: &mut [u64],
    head: u64,
    used: &mut u64,
) -> u64
    ensures { (pool : List ℕ)
        → ended result used.new (state image.now pool heads.new)
        (buffers [] script.new [])
        ≡ ends (abandon (length script.old) head) (state image.now pool heads.old)
        (buffers [] script.old []) }
{
    let answer = targets::abandon(image, state_of(heads, head), script, head);
    hand_over_head(answer, heads, head, used)
}

// Writes the script that takes a frame out of its reel.
pub fn reelbook_remove(
    image: &[u64],
    heads: &[u64; HEAD_WORDS],
    script: &mut [u64],
    reel: u64,
    frame: u64,
    used: &mut u64,
) -> u64
    ensures { (pool : List ℕ)
        → ended result used.new (state image.now pool heads.now)
        (buffers [] script.new [])
        ≡ ends (remove (length script.old) reel frame)
        (state image.now pool heads.now) (buffers [] script.old []) }
{
    hand_over(
        frames::remove(image, read_heads(heads), script, reel, frame),
        used,
    )
}

// Does a reel hold a frame? 1 or 0. Tells how many nodes are on the frame's path, wherever on it the frame is, or if it is not.
pub fn reelbook_has(image: &[u64], reel: u64, frame: u64, yes: &mut u64, nodes: &mut u64) -> u64
    ensures { (pool heads : List ℕ)
        → ended_path result yes.new nodes.new (state image.now pool heads) no_buffers
        ≡ ends (query (has reel frame)) (state image.now pool heads) no_buffers }
{
    let had = frames::has(image, reel, frame);
    *nodes = had.map_or(0, |done| done.nodes);
    let answer = had.map(|done| u64::from(done.yes));
    hand_over(answer, yes)
}

// Lists a reel's frames.
pub fn reelbook_list(
    image: &[u64],
    scratch: &mut [u64],
    list: &mut [u64],
    reel: u64,
    count: &mut u64,
) -> u64
    ensures { (pool heads : List ℕ)
        → ended result count.new (state image.now pool heads)
        (buffers scratch.new [] list.new)
        ≡ ends (query (list_reel (length scratch.old) (length list.old) reel))
        (state image.now pool heads) (buffers scratch.old [] list.old) }
{
    hand_over(list::list(image, scratch, list, reel), count)
}

// Writes the script that takes a reel out, and frees its nodes in the map.
pub fn reelbook_retire(
    image: &[u64],
    map: &mut [u64],
    heads: &[u64; HEAD_WORDS],
    scratch: &mut [u64],
    script: &mut [u64],
    reel: u64,
    used: &mut u64,
) -> u64
    ensures { ended result used.new (state image.now map.new heads.now)
        (buffers scratch.new script.new [])
        ≡ ends
        (retire (length map.old) (length scratch.old) (length script.old) reel)
        (state image.now map.old heads.now)
        (buffers scratch.old script.old []) }
{
    hand_over(
        retire::retire(image, map, read_heads(heads), scratch, script, reel),
        used,
    )
}

// Writes the script that takes the first group of empty children from a reel's tree, and frees them in the map.
pub fn reelbook_tidy(
    image: &[u64],
    map: &mut [u64],
    heads: &[u64; HEAD_WORDS],
    scratch: &mut [u64],
    script: &mut [u64],
    reel: u64,
    used: &mut u64,
) -> u64
    ensures { ended result used.new (state image.now map.new heads.now)
        (buffers scratch.new script.new [])
        ≡ ends
        (tidy (length map.old) (length scratch.old) (length script.old) reel)
        (state image.now map.old heads.now)
        (buffers scratch.old script.old []) }
{
    hand_over(
        tidy::tidy(image, map, read_heads(heads), scratch, script, reel),
        used,
    )
}

// Writes the image of the other edition to a second image of the same length. The image is only read.
pub fn reelbook_convert(image: &[u64], copy: &mut [u64], scratch: &mut [u64]) -> u64
    ensures { (pool heads : List ℕ)
        → ended result 0 (state image.now pool heads) (all_buffers scratch.new [] [] copy.new)
        ≡ ends (query (convert (length scratch.old) (length copy.old)))
        (state image.now pool heads) (all_buffers scratch.old [] [] copy.old) }
{
    answer_number(convert::convert(image, copy, scratch))
}

// Carries a script out on the image, barriers and flushes skipped.
pub fn reelbook_apply(image: &mut [u64], script: &[u64]) -> u64
    ensures { carried result image.new ≡ carry image.old script.now }
{
    answer_number(apply::apply(image, script))
}

// Translates a script for a memory module with line flushes, and for an image of so many words.
pub fn reelbook_translate(script: &[u64], flushed: &mut [u64], words: u64, used: &mut u64) -> u64
    ensures { translation result used.new flushed.new
        ≡ translate_words words script.now flushed.old }
{
    hand_over(translate::translate(script, flushed, words as usize), used)
}
