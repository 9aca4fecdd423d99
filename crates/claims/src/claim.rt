// Claim: a place for a frame on its path.
ghost use Rattle.std.specs.Prelude.{◌≡◌, cond, not, List, [], ◌∷◌, ℕ, ◌+◌, ◌*◌, ◌≤◌, ◌<◌, length, ltb};
ghost use Rattle.tree.specs.Memory.{reads, segmented, written};
ghost use Rattle.tree.specs.Test.{le, is};
ghost use Rattle.tree.specs.Layout.{Sized, map_words};
ghost use Rattle.tree.specs.Lookup.{free_run};
ghost use Rattle.tree.specs.declared.path.Room.TheVariants.{BranchOut};
ghost use Rattle.tree.specs.Room.{needs};
ghost use Rattle.tree.specs.Pool.{mark_all};
ghost use Rattle.book.specs.declared.HeadState.TheVariants.{Claimed};
ghost use Rattle.book.specs.Heads.{head_count, is_idle};
ghost use Rattle.book.specs.Refusals.{refusal, ◌gives◌};
ghost use Rattle.book.specs.Checks.{target_in};
ghost use Rattle.book.specs.Perform.{locate_then, claim_script, taken};
ghost use Rattle.book.specs.State.{claim};
ghost use Rattle.operations.specs.HeadLists.{heads_in, state_in, head_answer_of, head_count_of, heads_after};
ghost use Rattle.operations.specs.Ends.{buffers, state, ended_left, ends};
ghost use Rattle.claims.specs.Answers.{admission_number, refusal_of, head_done, left_of};
ghost use Rattle.claims.specs.Rooms.{depth_of, RoomFits, RoomMade, Taken};

use crate::conflicts::has_conflict;
use book::{HEADS, Head, HeadState, Target};
use fingerprints::fingerprint::fingerprint;
use nodes::reels::slot_of;
use operations::answer::{HeadDone, Refusal};
use operations::checks::checks;
use operations::heads::state_in;
use paths::descent::{NoVacancy, room_for};
use pool::pool_map::{free_run, mark_run};
use rooms::room_script::{put_branch_out, put_locate, put_scale_up};
use tree::layout::{Geometry, LOCATE, word_of};
use tree::path::{Room, Spot, child, fanout};

// 11 and 12 for the head, 5 for the reel's slot, in this sequence.
fn admit(heads: [Head; HEADS], head: u64, g: Geometry, slot: usize) -> Result<(), Refusal>
    ensures { admission_number result
        ≡ refusal ((le head_count head gives 11) ∷ (is (not (is_idle (state_in heads head))) gives 12) ∷
        (le g.slots slot gives 5) ∷ []) }
{
    if HEADS as u64 <= head {
        return Err(Refusal::HeadNumber);
    }
    let HeadState::Idle = state_in(heads, head as usize) else {
        return Err(Refusal::HeadState);
    };
    if g.slots <= slot {
        return Err(Refusal::NoReel);
    }
    Ok(())
}

// How many nodes a room takes from the pool.
fn nodes_for(room: Room) -> usize
    ensures { result ≡ needs room }
{
    match room {
        Room::Clear(_) | Room::ScaleUp { .. } => 0,
        Room::BranchOut { parent: _, depth } => fanout(depth),
    }
}

// The first of the nodes that a room takes, or the number of nodes where no run is free. The map is searched only where
// the room takes any; else the answer is 0, a node that is never missing and never taken.
fn run_for(pool: &[u64], g: Geometry, room: Room) -> usize
    requires { (g.nodes ≤ 64 * length pool.now) × (g.nodes ≤ 65536) }
    ensures { result ≡ cond (ltb 0 (needs room)) (free_run g (reads pool.now) (needs room)) 0 }
{
    let count = nodes_for(room);
    if 0 < count {
        return free_run(pool, g, count);
    }
    0
}

// What the claim's head would be about with the room taken, its new nodes from `start` on where it takes any.
fn target_in(slot: usize, room: Room, start: usize, frame: u64) -> Target
    requires { (start ≤ 65536) × (depth_of room < 31) }
    ensures { result ≡ target_in slot room start frame }
{
    match room {
        Room::Clear(t) => Target {
            slot: slot as u64,
            node: t.node as u64,
            place: t.place as u64,
            frame,
        },
        Room::ScaleUp { node, size } => Target {
            slot: slot as u64,
            node: node as u64,
            place: size,
            frame,
        },
        Room::BranchOut { parent: _, depth } => {
            let below = start + child(depth, frame) as usize;
            Target {
                slot: slot as u64,
                node: below as u64,
                place: 0,
                frame,
            }
        }
    }
}

// Makes, links and marks the children of a full node. Answers how many words of script that took.
fn branch_out(
    pool: &mut [u64],
    script: &mut [u64],
    g: Geometry,
    parent: usize,
    depth: u64,
    start: usize,
) -> usize
    requires { RoomFits g (BranchOut parent depth) start
        × (length pool.old ≡ map_words g)
        × (50 ≤ length script.old) }
    ensures { RoomMade g (BranchOut parent depth) start pool.old pool.new script.old
        script.new result }
{
    let count = fanout(depth);
    put_branch_out(script, g, parent, depth, start, count);
    mark_run(pool, start, count);
    10 * count + 6
}

// Makes the room that was found, with its new nodes from `start` on where it takes any.
fn make_room(pool: &mut [u64], script: &mut [u64], g: Geometry, room: Room, start: usize) -> usize
    requires { RoomFits g room start × (length pool.old ≡ map_words g) × (50 ≤ length script.old) }
    ensures { RoomMade g room start pool.old pool.new script.old script.new result }
{
    match room {
        Room::Clear(_) => 0,
        Room::ScaleUp { node, size } => {
            put_scale_up(script, g, node, size);
            4
        }
        Room::BranchOut { parent, depth } => branch_out(pool, script, g, parent, depth, start),
    }
}

// The locate word of the place that a claim takes, as it is with the room made: 0 in a node made anew.
fn locate_then(image: &[u64], g: Geometry, room: Room, node: usize) -> u64
    requires { Sized image.now g × (node < g.nodes) }
    ensures { result ≡ locate_then g (reads image.now) room node }
{
    match room {
        Room::Clear(_) | Room::ScaleUp { .. } => word_of(image, g, node, LOCATE),
        Room::BranchOut { .. } => 0,
    }
}

// Makes the room that was found and puts the place on: the rest of the script is lent on to the writer of the locate store.
// Answers how many words of script that took.
fn take_room(
    image: &[u64],
    pool: &mut [u64],
    script: &mut [u64],
    g: Geometry,
    room: Room,
    start: usize,
    t: Spot,
) -> usize
    requires { Sized image.now g
        × RoomFits g room start
        × (t.node < g.nodes)
        × (t.place < 64)
        × (length pool.old ≡ map_words g)
        × (50 ≤ length script.old) }
    ensures { Taken g (reads image.now) room start t pool.old pool.new script.old
        script.new result }
{
    let words = make_room(pool, script, g, room, start);
    put_locate(
        &mut script[words..],
        g,
        t,
        locate_then(image, g, room, t.node),
    );
    words + 4
}

// What a claim has done: the head's part, and the places left.
#[derive(Clone, Copy)]
pub struct ClaimDone {
    pub head: HeadDone,
    pub left: u64,
}

// Why a claim is refused that finds no room on its frame's path.
fn refusal_of(why: NoVacancy) -> Refusal
    ensures { result ≡ refusal_of why }
{
    match why {
        NoVacancy::Malformed | NoVacancy::Full => Refusal::Malformed,
        NoVacancy::Held => Refusal::FrameHeld,
    }
}

// Claim a place for a frame: the first clear one on its path, or one of a node scaled up or made anew.
pub fn claim(
    image: &[u64],
    pool: &mut [u64],
    heads: [Head; HEADS],
    script: &mut [u64],
    head: u64,
    reel: u64,
    frame: u64,
) -> Result<ClaimDone, Refusal>
    ensures { (ws : List ℕ)
        → heads_in ws ≡ heads
        → ended_left (head_answer_of (head_done result)) (head_count_of (head_done result)) (left_of result)
        (state image.now pool.new (heads_after ws head (head_done result)))
        (buffers [] script.new [])
        ≡ ends (claim (length pool.old) (length script.old) head reel frame)
        (state image.now pool.old ws) (buffers [] script.old []) }
{
    let g = checks(image, Some(pool.len()), None, Some(script.len()))?;
    let slot = slot_of(image, g, reel);
    admit(heads, head, g, slot)?;
    let print = fingerprint(image, frame);
    let vacancy = match room_for(image, g, slot, frame, print) {
        Ok(vacancy) => vacancy,
        Err(why) => return Err(refusal_of(why)),
    };
    let room = vacancy.room;
    let start = run_for(pool, g, room);
    let target = target_in(slot, room, start, frame);
    if has_conflict(heads, target, start < g.nodes) {
        return Err(Refusal::Busy);
    }
    if g.nodes <= start {
        return Err(Refusal::NoRun);
    }
    let t = Spot {
        node: target.node as usize,
        place: target.place as usize,
    };
    let words = take_room(image, pool, script, g, room, start, t);
    let head = HeadDone {
        count: words as u64,
        state: HeadState::Claimed(target),
    };
    Ok(ClaimDone {
        head,
        left: vacancy.left,
    })
}
