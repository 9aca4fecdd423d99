// Tables of 256 bytes, as a fold reads them: the paper's by its rule, one that is lent, and an image's own.
ghost use Rattle.std.specs.Prelude.{◌≡◌, ℕ, ◌≤◌, ◌<◌, length};
ghost use Rattle.memory.specs.Words.{reads};
ghost use Rattle.tree.specs.Fingerprint.{table_entry, entry_in, stored_table};

use memory::words::byte_of;
use tree::layout::TABLE_AT;

// A table of 256 bytes.
pub trait Table {
    ghost entries: { Self → ℕ → ℕ };

    fn entry(&self, i: u64) -> u64
        requires { i < 256 }
        ensures { (result ≡ entries self.now i) × (result < 256) };
}

// The paper's, by its rule: to lay it out for a single frame would cost more than its entries.
#[derive(Clone, Copy)]
pub struct Ruled;

impl Table for Ruled {
    ghost entries = { λ t. table_entry };

    fn entry(&self, i: u64) -> u64 {
        (167 * i + 13) % 256
    }
}

// One that is laid out, and lent.
#[derive(Clone, Copy)]
pub struct Lent<'a> {
    pub table: &'a [u8],
    ghost whole: { length table.now ≡ 256 },
}

impl Table for Lent<'_> {
    ghost entries = { λ t. entry_in t.table.now };

    fn entry(&self, i: u64) -> u64 {
        self.table[i as usize] as u64
    }
}

// An image's own, its entries read where they are stored.
#[derive(Clone, Copy)]
pub struct Stored<'a> {
    pub image: &'a [u64],
    ghost headed: { 64 ≤ length image.now },
}

impl Table for Stored<'_> {
    ghost entries = { λ t. entry_in (stored_table (reads t.image.now)) };

    fn entry(&self, i: u64) -> u64 {
        let i = i as usize;
        byte_of(self.image[TABLE_AT + i / 8], (i % 8) as u32)
    }
}
