// A mill's own table: tested, packed into words, and read from an image's.
ghost use Rattle.std.specs.Prelude.{◌≡◌, true, ◌↔◌, ℕ, ◌≤◌, ◌<◌, length, get_or};
ghost use Rattle.memory.specs.Words.{reads};
ghost use Rattle.tree.specs.Test.{holds};
ghost use Rattle.tree.specs.Fingerprint.{has_own, unpacked, stored_table, has_every, bad_own, bad_given, packed};
ghost use Rattle.fingerprints.specs.Tables.{flagged};

use crate::tables::{Stored, Table};
use memory::words::{byte_of, with_byte};
use tree::layout::{TABLE_AT, edition, own_word};

// Has the image its own table? Word 3 first: the compiler then makes one branch of the two tests.
pub fn has_own(image: &[u64]) -> bool
    requires { 64 ≤ length image.now }
    ensures { result ≡ has_own (reads image.now) }
{
    (own_word(image) == 1) & (edition(image) == 2)
}

// 1 at each of a word's eight bytes. A byte stands for a byte: a store that waits for nothing, where a bit would be read first.
fn flag_bytes(seen: &mut [u8; 256], w: u64)
    ensures { seen.new ≡ flagged seen.old w 8 }
{
    for k in 0..8 {
        seen[byte_of(w, k) as usize] = 1;
    }
}

// Are all 256 of them 1? Without a branch.
fn all_flagged(seen: &[u8; 256]) -> bool
    ensures { (result ≡ true) ↔ ((b : ℕ) → b < 256 → get_or seen.now b 0 ≡ 1) }
{
    seen.iter().fold(true, |all, flag| all & (*flag == 1))
}

// Does a table in 32 words lack no byte? Left to a call: every operation's common way, where there is no own table, stays short.
#[inline(never)]
fn has_every(words: &[u64]) -> bool
    requires { length words.now ≡ 32 }
    ensures { result ≡ has_every (unpacked (reads words.now) 0) }
{
    let mut seen = [0; 256];
    for word in words {
        flag_bytes(&mut seen, *word);
    }
    all_flagged(&seen)
}

// Is word 3 of an image of edition 2 above 1, or does its own table lack some byte?
pub fn bad_own(image: &[u64]) -> bool
    requires { 64 ≤ length image.now }
    ensures { result ≡ holds (bad_own (reads image.now)) }
{
    edition(image) == 2
        && match own_word(image) {
            1 => !has_every(&image[TABLE_AT..TABLE_AT + 32]),
            own => 1 < own,
        }
}

// Eight entries of a table in a word, lowest byte first.
pub fn packed(table: &[u8], j: usize) -> u64
    requires { (length table.now ≡ 256) × (j < 32) }
    ensures { result ≡ packed table.now j }
{
    let mut w = 0;
    for (k, entry) in table[8 * j..8 * j + 8].iter().enumerate() {
        w = with_byte(w, k as u32, *entry as u64);
    }
    w
}

// Refusal 16: a given table is not 256 bytes long, or lacks some byte. One of length 0 is none.
pub fn bad_given(table: &[u8]) -> bool
    ensures { result ≡ holds (bad_given table.now) }
{
    match table.len() {
        0 => false,
        256 => {
            // Entry by entry: of whole words the compiler makes a memcpy, which the library does not ask for.
            let mut words = [0; 32];
            for (i, entry) in table.iter().enumerate() {
                words[i / 8] = with_byte(words[i / 8], (i % 8) as u32, *entry as u64);
            }
            !has_every(&words)
        }
        _ => true,
    }
}

// An image's own table, laid out as 256 bytes.
pub fn stored_table(image: &[u64]) -> [u8; 256]
    requires { 64 ≤ length image.now }
    ensures { result ≡ stored_table (reads image.now) }
{
    let stored = Stored { image };
    let mut table = [0; 256];
    for (i, entry) in table.iter_mut().enumerate() {
        *entry = stored.entry(i as u64) as u8;
    }
    table
}
