// Bits and bytes of a word, by masks and shifts.
ghost use Rattle.std.specs.Prelude.{◌≡◌, ◌<◌};
ghost use Rattle.memory.specs.Words.{bit, is_set, with_bit, without_bit, byte, with_byte, EqualBytes};

pub fn bit_of(w: u64, k: u32) -> u64
    requires { k < 64 }
    ensures { result ≡ bit w k }
{
    (w >> k) & 1
}

pub fn is_set(w: u64, k: u32) -> bool
    requires { k < 64 }
    ensures { result ≡ is_set w k }
{
    bit_of(w, k) == 1
}

pub fn with_bit(w: u64, k: u32) -> u64
    requires { k < 64 }
    ensures { result ≡ with_bit w k }
{
    w | (1 << k)
}

pub fn without_bit(w: u64, k: u32) -> u64
    requires { k < 64 }
    ensures { result ≡ without_bit w k }
{
    w & !(1 << k)
}

pub fn byte_of(w: u64, j: u32) -> u64
    requires { j < 8 }
    ensures { result ≡ byte w j }
{
    (w >> (8 * j)) & 255
}

pub fn with_byte(w: u64, j: u32, b: u64) -> u64
    requires { (j < 8) × (b < 256) }
    ensures { result ≡ with_byte w j b }
{
    (w & !(255 << (8 * j))) | (b << (8 * j))
}

// 1 in each byte.
const ONES: u64 = 0x0101_0101_0101_0101;

// 127 in each byte: its low seven bits.
const LOW: u64 = 0x7f7f_7f7f_7f7f_7f7f;

// 128 in each byte: its highest bit.
const HIGH: u64 = 0x8080_8080_8080_8080;

// Which bytes of a word are b, all eight at once: 128 for a byte that is, 0 for one that is not. Where a
// byte differs, its difference has the highest bit, or the sum reaches it; no sum carries into the next byte.
pub fn equal_bytes(w: u64, b: u64) -> u64
    requires { b < 256 }
    ensures { EqualBytes w b result }
{
    let difference = w ^ (b * ONES);
    let differs = ((difference & LOW) + LOW) | difference;
    (differs & HIGH) ^ HIGH
}
