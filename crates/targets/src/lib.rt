// Fill, Commit and Abandon: what becomes of the place that a head has claimed. Each gets that head's state alone.
#![tactic(auto)]

ghost use Rattle.std.specs.Prelude.{◌≡◌, cond, Some, None, List, [], ◌∷◌, ℕ, ◌≤◌, ◌<◌, length};
ghost use Rattle.tree.specs.Memory.{segmented, written, reads};
ghost use Rattle.tree.specs.Test.{holds};
ghost use Rattle.tree.specs.Layout.{Sized, set_at, locate_at};
ghost use Rattle.tree.specs.Fingerprint.{rule_of};
ghost use Rattle.book.specs.State.{fill, commit, abandon};
ghost use Rattle.book.specs.Heads.{is_idle, is_claimed, is_filled, target_of};
ghost use Rattle.book.specs.Checks.{outside};
ghost use Rattle.book.specs.Perform.{fill_script, bit_on, bit_off};
ghost use Rattle.operations.specs.HeadLists.{heads_in, state_in, head_answer_of, head_count_of, heads_after};
ghost use Rattle.operations.specs.Ends.{buffers, state as kept, ended, ends};
ghost use Rattle.targets.specs.Aimed.{aimed};

use book::{HEADS, HeadState, Target};
use fingerprints::fingerprint::fingerprint_word;
use operations::answer::{HeadAnswer, HeadDone, Refusal};
use operations::checks::checks;
use tree::layout::{
    FINGERPRINTS, FRAMES, Geometry, LOCATE, SET, fingerprints_of, node_at, word_of,
};
use tree::persistent::{put_fenced, put_fenced_pair, with_bit, without_bit};

// Is the target's node or place outside? Both are words that the driver keeps, of any size.
fn is_outside(g: Geometry, t: Target) -> bool
    ensures { result ≡ holds (outside g t) }
{
    (g.nodes as u64 <= t.node) | (64 <= t.place)
}

// Fill's script: the frame, then the fingerprint word with its other seven bytes kept.
fn put_fill(image: &[u64], g: Geometry, script: &mut [u64], t: Target)
    requires { Sized image.now g × (t.node < g.nodes) × (t.place < 64) × (8 ≤ length script.old) }
    ensures { script.new
        ≡ written (segmented (fill_script (rule_of (reads image.now)) g (reads image.now) t))
        script.old }
{
    let node = t.node as usize;
    let place = t.place as usize;
    let at = node_at(g, node);
    put_fenced_pair(
        script,
        (at + FRAMES + place) as u64,
        t.frame,
        (at + FINGERPRINTS + place / 8) as u64,
        fingerprint_word(
            image,
            fingerprints_of(image, g, node, place / 8),
            place,
            t.frame,
        ),
    );
}

// Commit's script: the set word with the place's bit.
fn put_commit(image: &[u64], g: Geometry, script: &mut [u64], t: Target)
    requires { Sized image.now g × (t.node < g.nodes) × (t.place < 64) × (4 ≤ length script.old) }
    ensures { script.new
        ≡ written (segmented (bit_on (reads image.now) (set_at g t.node) t.place ∷ []))
        script.old }
{
    let node = t.node as usize;
    let at = (node_at(g, node) + SET) as u64;
    let bits = with_bit(word_of(image, g, node, SET), t.place as u32);
    put_fenced(script, at, bits);
}

// Abandon's script: the locate word without it.
fn put_abandon(image: &[u64], g: Geometry, script: &mut [u64], t: Target)
    requires { Sized image.now g × (t.node < g.nodes) × (t.place < 64) × (4 ≤ length script.old) }
    ensures { script.new
        ≡ written (segmented (bit_off (reads image.now) (locate_at g t.node) t.place ∷ []))
        script.old }
{
    let node = t.node as usize;
    let at = (node_at(g, node) + LOCATE) as u64;
    let bits = without_bit(word_of(image, g, node, LOCATE), t.place as u32);
    put_fenced(script, at, bits);
}

// The target of a head that is claimed; of one that is filled; of one that is either.
fn claimed(state: HeadState) -> Option<Target>
    ensures { result ≡ cond (is_claimed state) (Some (target_of state)) None }
{
    match state {
        HeadState::Claimed(t) => Some(t),
        _ => None,
    }
}

fn filled(state: HeadState) -> Option<Target>
    ensures { result ≡ cond (is_filled state) (Some (target_of state)) None }
{
    match state {
        HeadState::Filled(t) => Some(t),
        _ => None,
    }
}

fn claimed_or_filled(state: HeadState) -> Option<Target>
    ensures { result ≡ cond (is_idle state) None (Some (target_of state)) }
{
    match state {
        HeadState::Idle => None,
        HeadState::Claimed(t) | HeadState::Filled(t) => Some(t),
    }
}

// What an operation works on: the image's geometry, and a target inside it.
struct Aim {
    g: Geometry,
    t: Target,
}

// What all three begin with: the checks, the head's number, whether it has the target that is wanted of it, and where that is.
#[tactic(auto, unfolding(crate::specs::Aimed::aimed))]
fn take_aim(image: &[u64], script: usize, head: u64, wanted: Option<Target>) -> Result<Aim, Refusal>
    ensures { result ≡ aimed image.now script head wanted }
{
    let g = checks(image, None, None, Some(script))?;
    if HEADS as u64 <= head {
        return Err(Refusal::HeadNumber);
    }
    let t = wanted.ok_or(Refusal::HeadState)?;
    if is_outside(g, t) {
        return Err(Refusal::Malformed);
    }
    Ok(Aim { g, t })
}

pub fn fill(image: &[u64], state: HeadState, script: &mut [u64], head: u64) -> HeadAnswer
    ensures { (pool ws : List ℕ)
        → state_in (heads_in ws) head ≡ state
        → ended (head_answer_of result) (head_count_of result) (kept image.now pool (heads_after ws head result))
        (buffers [] script.new [])
        ≡ ends (fill (length script.old) head) (kept image.now pool ws)
        (buffers [] script.old []) }
{
    let Aim { g, t } = take_aim(image, script.len(), head, claimed(state))?;
    put_fill(image, g, script, t);
    Ok(HeadDone {
        count: 8,
        state: HeadState::Filled(t),
    })
}

pub fn commit(image: &[u64], state: HeadState, script: &mut [u64], head: u64) -> HeadAnswer
    ensures { (pool ws : List ℕ)
        → state_in (heads_in ws) head ≡ state
        → ended (head_answer_of result) (head_count_of result) (kept image.now pool (heads_after ws head result))
        (buffers [] script.new [])
        ≡ ends (commit (length script.old) head) (kept image.now pool ws)
        (buffers [] script.old []) }
{
    let Aim { g, t } = take_aim(image, script.len(), head, filled(state))?;
    put_commit(image, g, script, t);
    Ok(HeadDone {
        count: 4,
        state: HeadState::Idle,
    })
}

pub fn abandon(image: &[u64], state: HeadState, script: &mut [u64], head: u64) -> HeadAnswer
    ensures { (pool ws : List ℕ)
        → state_in (heads_in ws) head ≡ state
        → ended (head_answer_of result) (head_count_of result) (kept image.now pool (heads_after ws head result))
        (buffers [] script.new [])
        ≡ ends (abandon (length script.old) head) (kept image.now pool ws)
        (buffers [] script.old []) }
{
    let Aim { g, t } = take_aim(image, script.len(), head, claimed_or_filled(state))?;
    put_abandon(image, g, script, t);
    Ok(HeadDone {
        count: 4,
        state: HeadState::Idle,
    })
}
