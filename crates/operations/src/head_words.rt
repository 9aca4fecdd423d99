// The heads as they cross to the driver: five words each, state (0 idle, 1 claimed, 2 filled), slot, node, place, frame.
ghost use Rattle.std.specs.Prelude.{◌≡◌, [], ◌∷◌, ◌++◌, ◌+◌, ◌*◌, ◌<◌, length, take, drop};
ghost use Rattle.book.specs.Heads.{head_count, head_at, with_head, idle_heads};
ghost use Rattle.operations.specs.HeadLists.{heads_in, state_in};

use book::{HEAD_WORDS, HEADS, Head, HeadState, Target};

// Record h; any state word but 1 and 2 reads as idle.
#[tactic(auto, unfolding(book::specs::Heads::head_at, book::specs::Heads::state_of))]
fn read_head(words: &[u64; HEAD_WORDS], h: usize) -> HeadState
    requires { h < head_count }
    ensures { result ≡ head_at words.now h }
{
    let at = 5 * h;
    let t = Target {
        slot: words[at + 1],
        node: words[at + 2],
        place: words[at + 3],
        frame: words[at + 4],
    };
    match words[at] {
        1 => HeadState::Claimed(t),
        2 => HeadState::Filled(t),
        _ => HeadState::Idle,
    }
}

// The state of a head; idle for a number that no head has.
pub fn state_of(words: &[u64; HEAD_WORDS], head: u64) -> HeadState
    ensures { result ≡ state_in (heads_in words.now) head }
{
    if HEADS as u64 <= head {
        return HeadState::Idle;
    }
    read_head(words, head as usize)
}

// All records.
pub fn read_heads(words: &[u64; HEAD_WORDS]) -> [Head; HEADS]
    ensures { result ≡ heads_in words.now }
{
    let mut heads = [Head {
        state: HeadState::Idle,
    }; HEADS];
    for (h, head) in heads.iter_mut().enumerate() {
        head.state = read_head(words, h);
    }
    heads
}

// Writes the five words of record h. The words come as a slice, whose length a contract may speak of.
fn write_words(words: &mut [u64], h: usize, state: u64, t: Target)
    requires { (h < head_count) × (length words.old ≡ 5 * head_count) }
    ensures { words.new
        ≡ take (5 * h) words.old ++
        ((state ∷ t.slot ∷ t.node ∷ t.place ∷ t.frame ∷ []) ++ drop (5 * h + 5) words.old) }
{
    let at = 5 * h;
    words[at] = state;
    words[at + 1] = t.slot;
    words[at + 2] = t.node;
    words[at + 3] = t.place;
    words[at + 4] = t.frame;
}

// Writes record h, and no word of another.
#[tactic(auto, unfolding(book::specs::Heads::with_head, book::specs::Heads::words_of))]
pub fn write_head(words: &mut [u64; HEAD_WORDS], h: usize, state: HeadState)
    requires { h < head_count }
    ensures { words.new ≡ with_head words.old h state }
{
    match state {
        HeadState::Idle => write_words(
            words,
            h,
            0,
            Target {
                slot: 0,
                node: 0,
                place: 0,
                frame: 0,
            },
        ),
        HeadState::Claimed(t) => write_words(words, h, 1, t),
        HeadState::Filled(t) => write_words(words, h, 2, t),
    }
}

// Writes every record idle: all words 0.
pub fn clear_heads(words: &mut [u64; HEAD_WORDS])
    ensures { words.new ≡ idle_heads }
{
    *words = [0; HEAD_WORDS];
}
