// Fingerprints: the paper's table, in which every byte occurs once, and a frame's fold by the image's rule.
ghost use Rattle.std.specs.Prelude.{◌≡◌, ◌%◌, ◌≤◌, ◌<◌, length};
ghost use Rattle.memory.specs.Words.{reads, with_byte};
ghost use Rattle.tree.specs.Fingerprint.{the_table, entry_in, folded, fingerprint, rule_for, rule_of};
ghost use Rattle.fingerprints.specs.Tables.{table_in};

use crate::own_table::{has_own, stored_table};
use crate::tables::{Lent, Ruled, Stored, Table};
use memory::words::{byte_of, with_byte};
use tree::layout::edition;

// How many bytes of a frame are folded, lowest first: in every edition the low ones, in edition 1 no more.
const LOW_BYTES: u32 = 4;

const ALL_BYTES: u32 = 8;

const TABLE: [u8; 256] = [
    13, 180, 91, 2, 169, 80, 247, 158, 69, 236, 147, 58, 225, 136, 47, 214, 125, 36, 203, 114, 25,
    192, 103, 14, 181, 92, 3, 170, 81, 248, 159, 70, 237, 148, 59, 226, 137, 48, 215, 126, 37, 204,
    115, 26, 193, 104, 15, 182, 93, 4, 171, 82, 249, 160, 71, 238, 149, 60, 227, 138, 49, 216, 127,
    38, 205, 116, 27, 194, 105, 16, 183, 94, 5, 172, 83, 250, 161, 72, 239, 150, 61, 228, 139, 50,
    217, 128, 39, 206, 117, 28, 195, 106, 17, 184, 95, 6, 173, 84, 251, 162, 73, 240, 151, 62, 229,
    140, 51, 218, 129, 40, 207, 118, 29, 196, 107, 18, 185, 96, 7, 174, 85, 252, 163, 74, 241, 152,
    63, 230, 141, 52, 219, 130, 41, 208, 119, 30, 197, 108, 19, 186, 97, 8, 175, 86, 253, 164, 75,
    242, 153, 64, 231, 142, 53, 220, 131, 42, 209, 120, 31, 198, 109, 20, 187, 98, 9, 176, 87, 254,
    165, 76, 243, 154, 65, 232, 143, 54, 221, 132, 43, 210, 121, 32, 199, 110, 21, 188, 99, 10,
    177, 88, 255, 166, 77, 244, 155, 66, 233, 144, 55, 222, 133, 44, 211, 122, 33, 200, 111, 22,
    189, 100, 11, 178, 89, 0, 167, 78, 245, 156, 67, 234, 145, 56, 223, 134, 45, 212, 123, 34, 201,
    112, 23, 190, 101, 12, 179, 90, 1, 168, 79, 246, 157, 68, 235, 146, 57, 224, 135, 46, 213, 124,
    35, 202, 113, 24, 191, 102,
];

// The paper's table, as a value. A constant is laid out anew wherever it is indexed: whoever folds many frames lays it out
// once, and lends it.
pub fn table() -> [u8; 256]
    ensures { result ≡ the_table }
{
    TABLE
}

// The table by which an image is read, laid out: its own where it has one, else the paper's.
pub fn table_in(image: &[u64]) -> [u8; 256]
    requires { 64 ≤ length image.now }
    ensures { result ≡ table_in (reads image.now) }
{
    if has_own(image) {
        stored_table(image)
    } else {
        table()
    }
}

// How many bytes of a frame an edition folds: 1 the four low ones, 2 all eight.
fn bytes_folded(edition: u64) -> u32
    ensures { (result ≡ (rule_for edition).bytes) × (4 ≤ result) × (result ≤ 8) }
{
    if edition == 1 { LOW_BYTES } else { ALL_BYTES }
}

// A frame's fold over so many of its bytes. The low ones are a fixed number of steps, which the compiler unrolls; what an
// edition adds comes after.
fn fold_by<T: Table>(table: &T, bytes: u32, frame: u64) -> u64
    requires { (4 ≤ bytes) × (bytes ≤ 8) }
    ensures { result ≡ folded (T.entries table.now) bytes frame }
{
    let mut h = 0;
    for k in 0..LOW_BYTES {
        h = table.entry(h ^ byte_of(frame, k));
    }
    for k in LOW_BYTES..bytes {
        h = table.entry(h ^ byte_of(frame, k));
    }
    h
}

// A frame's fold by a table that is lent, over as many bytes as an edition folds.
pub fn fold_for(edition: u64, table: &[u8], frame: u64) -> u64
    requires { length table.now ≡ 256 }
    ensures { result ≡ folded (entry_in table.now) (rule_for edition).bytes frame }
{
    fold_by(&Lent { table }, bytes_folded(edition), frame)
}

// A frame's fingerprint in an image, by the image's table, which is lent.
pub fn fold(image: &[u64], table: &[u8], frame: u64) -> u64
    requires { (64 ≤ length image.now) × (table.now ≡ table_in (reads image.now)) }
    ensures { result ≡ fingerprint (rule_of (reads image.now)) frame }
{
    fold_for(edition(image), table, frame)
}

// A frame's fingerprint in an image, where it is the only one to be folded: no table is laid out.
pub fn fingerprint(image: &[u64], frame: u64) -> u64
    requires { 64 ≤ length image.now }
    ensures { result ≡ fingerprint (rule_of (reads image.now)) frame }
{
    if has_own(image) {
        fold_by(&Stored { image }, ALL_BYTES, frame)
    } else {
        fold_by(&Ruled, bytes_folded(edition(image)), frame)
    }
}

// The fingerprint word of a place with the frame's fingerprint in it, its seven other bytes kept.
pub fn fingerprint_word(image: &[u64], word: u64, place: usize, frame: u64) -> u64
    requires { 64 ≤ length image.now }
    ensures { result ≡ with_byte word (place % 8) (fingerprint (rule_of (reads image.now)) frame) }
{
    with_byte(word, (place % 8) as u32, fingerprint(image, frame))
}
