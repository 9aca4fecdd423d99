// Format: an image made anew.
ghost use Rattle.std.specs.Prelude.{◌≡◌, false, List, ◌∷◌, map, ℕ, ◌≤◌, length};
ghost use Rattle.tree.specs.Memory.{stores, apply};
ghost use Rattle.tree.specs.Test.{holds};
ghost use Rattle.tree.specs.Lists.{range, up_to};
ghost use Rattle.tree.specs.Layout.{Sized, root_at};
ghost use Rattle.tree.specs.Fingerprint.{bad_given};
ghost use Rattle.book.specs.State.{format};
ghost use Rattle.book.specs.Perform.{given_stores};
ghost use Rattle.operations.specs.Answers.{answer_of, count_of};
ghost use Rattle.operations.specs.HeadLists.{heads_fresh};
ghost use Rattle.operations.specs.Ends.{no_buffers, state, ended, ends};

use fingerprints::own_table::{bad_given, packed};
use operations::answer::{Answer, Refusal};
use pool::pool_map::clear_map;
use tree::layout::{Geometry, OWN_AT, TABLE_AT, bad_image, map_words, root_at};

// Words 0 to 63: edition 2, R, N, and zeros.
fn put_header(image: &mut [u64], g: Geometry)
    requires { Sized image.old g }
    ensures { image.new
        ≡ apply image.old
        (stores ((0, 2) ∷ (1, g.slots) ∷ (2, g.nodes) ∷ map (λ i. (i, 0)) (range 3 61))) }
{
    image[0] = 2;
    image[1] = g.slots as u64;
    image[2] = g.nodes as u64;
    image[3..64].fill(0);
}

// A table that is given: word 3 is 1, and words 8 to 39 have it.
fn put_table(image: &mut [u64], table: &[u8])
    requires { (64 ≤ length image.old) × (holds (bad_given table.now) ≡ false) }
    ensures { image.new
        ≡ apply image.old (stores (given_stores table.now)) }
{
    if table.is_empty() {
        return;
    }
    image[OWN_AT] = 1;
    for j in 0..32 {
        image[TABLE_AT + j] = packed(table, j);
    }
}

// Every slot is empty; the reel numbers stay, for nothing reads them.
fn clear_roots(image: &mut [u64], g: Geometry)
    requires { Sized image.old g }
    ensures { image.new
        ≡ apply image.old (stores (map (λ s. (root_at s, 0)) (up_to g.slots))) }
{
    for s in 0..g.slots {
        image[root_at(s)] = 0;
    }
}

// Format with R slots and N nodes, and with a table of its own where one is given: the header, no reel, a clear map. What it
// goes by is given, and no word of the image is read.
pub fn format(image: &mut [u64], pool: &mut [u64], table: &[u8], slots: u64, nodes: u64) -> Answer
    ensures { (heads : List ℕ)
        → ended (answer_of result) (count_of result) (state image.new pool.new (heads_fresh heads result)) no_buffers
        ≡ ends (format (length pool.old) table.now slots nodes)
        (state image.old pool.old heads) no_buffers }
{
    let g = Geometry {
        slots: slots as usize,
        nodes: nodes as usize,
    };
    if bad_image(image.len(), g) {
        return Err(Refusal::Image);
    }
    if pool.len() != map_words(g) {
        return Err(Refusal::Buffer);
    }
    if bad_given(table) {
        return Err(Refusal::GivenTable);
    }
    put_header(image, g);
    clear_roots(image, g);
    put_table(image, table);
    clear_map(pool);
    Ok(0)
}
