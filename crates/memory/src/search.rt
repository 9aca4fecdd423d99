// The lowest clear bit: of a word, and of a bitmap in words.
ghost use Rattle.std.specs.Prelude.{◌≡◌, not, ℕ, ◌+◌, ◌*◌, ◌^◌, ◌≤◌, ◌<◌, length};
ghost use Rattle.memory.specs.Words.{reads, is_set, marked};
ghost use Rattle.memory.specs.Search.{first};

// The lowest clear bit below n of a word, or n.
pub fn lowest_clear(w: u64, n: u32) -> u32
    requires { n ≤ 64 }
    ensures { result ≡ first (λ (k : ℕ). not (is_set w k)) n }
{
    let clear = u64::trailing_zeros(!w);
    u32::min(clear, n)
}

// The lowest clear bit below n of a bitmap, or n: a step for each word. The last word may have one past n, whose number does not
// wrap.
pub fn lowest_unmarked(bitmap: &[u64], n: usize) -> usize
    requires { (n ≤ 64 * length bitmap.now) × (n + 64 < 2 ^ 64) }
    ensures { result ≡ first (λ (k : ℕ). not (marked (reads bitmap.now) k)) n }
{
    for (k, word) in bitmap[..n.div_ceil(64)].iter().enumerate() {
        let clear = lowest_clear(*word, 64) as usize;
        if clear < 64 {
            return usize::min(64 * k + clear, n);
        }
    }
    n
}
