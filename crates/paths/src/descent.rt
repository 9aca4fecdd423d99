// The walk along a frame's path, and what is read off it: the lookup, and the room for a claim.
ghost use Rattle.std.specs.Prelude.{◌≡◌, true, [], ◌∷◌, ◌^◌, ◌/◌, ◌<◌, ◌≤◌};
ghost use Rattle.memory.specs.Words.{reads};
ghost use Rattle.tree.specs.Layout.{Sized, locate_at, size_at};
ghost use Rattle.tree.specs.Fingerprint.{fingerprint, rule_of};
ghost use Rattle.tree.specs.Node.{well_formed};
ghost use Rattle.tree.specs.Slots.{Filled, root_of};
ghost use Rattle.tree.specs.Lookup.{lookup};
ghost use Rattle.tree.specs.Room.{at_level31};
ghost use Rattle.paths.specs.declared.descent.NoVacancy.TheVariants.{Malformed};
ghost use Rattle.paths.specs.Answers.{found_from, placement_as, placement_from};
ghost use Rattle.paths.specs.Descent.{step_from, spot_of, numbered, TellsLeft, or_else, clear_if, trail_from};
ghost use Rattle.paths.specs.Descent.{room_at, vacancy_in};

use nodes::node::{clear_place, well_formed};
use nodes::place::found_place;
use tree::layout::{Geometry, SIZE, next_of, root_of, word_of};
use tree::path::{Room, Spot, child};

// A node of the path is malformed.
#[derive(Clone, Copy, PartialEq, Eq)]
pub struct Malformed;

// What the lookup of a frame finds: the first place that holds it, and how many nodes the path has, wherever that place is.
#[derive(Clone, Copy)]
pub struct Found {
    pub found: Option<Spot>,
    pub nodes: u64,
}

// The end of a walk along a frame's path: its last node, with its level. The first place that holds the frame, and the first
// clear one if it was sought.
#[derive(Clone, Copy)]
pub struct Trail {
    pub node: usize,
    pub level: u64,
    pub found: Option<Spot>,
    pub clear: Option<Spot>,
    // How many clear places the node of the clear one has left once that is taken; 0 where there is none.
    pub left: usize,
}

// Room for a frame, and how many clear places its node has left once the place is taken.
#[derive(Clone, Copy)]
pub struct Vacancy {
    pub room: Room,
    pub left: u64,
}

// Why a claim finds no room on a frame's path.
#[derive(Clone, Copy, PartialEq, Eq)]
pub enum NoVacancy {
    // A node of the path is malformed.
    Malformed,
    // The path ends at level 31 with no clear place in any node.
    Full,
    // The frame is held already.
    Held,
}

impl From<Malformed> for NoVacancy {
    ghost from_gives = { λ _ e. e ≡ Malformed };

    fn from(_malformed: Malformed) -> NoVacancy {
        NoVacancy::Malformed
    }
}

// The child to which a frame's path goes on from a well-formed node, unless it ends there. Children are inside the pool, so
// the sum does not wrap.
pub fn step_from(image: &[u64], g: Geometry, level: u64, n: usize, frame: u64) -> Option<usize>
    requires { Sized image.now g × (well_formed g (reads image.now) level n ≡ true) }
    ensures { result ≡ step_from g (reads image.now) level n frame }
{
    let next = next_of(image, g, n) as usize;
    if next == 0 {
        return None;
    }
    Some(next - 1 + child(level, frame) as usize)
}

// While a walk goes on, what it has seen is a number, which takes one register: 0 for nothing, else one more than the
// place's among all places of the pool, 64 × node + place.
fn seen_by(number: usize) -> Option<Spot>
    ensures { spot_of result ≡ numbered number }
{
    if number == 0 {
        return None;
    }
    let before = number - 1;
    Some(Spot {
        node: before / 64,
        place: before % 64,
    })
}

// What was found so far, or else the place of a node that holds the frame.
fn found_on(image: &[u64], g: Geometry, n: usize, frame: u64, print: u64, found: usize) -> usize
    requires { Sized image.now g × (n < g.nodes) × (print ≡ fingerprint (rule_of (reads image.now)) frame) }
    ensures { numbered result
        ≡ or_else (numbered found)
        (lookup (rule_of (reads image.now)) g (reads image.now) frame (n ∷ [])) }
{
    if found != 0 {
        return found;
    }
    let place = found_place(image, g, n, frame, print);
    if place < 64 {
        return 64 * n + place + 1;
    }
    0
}

// What was clear so far, or else the lowest clear place of a node, where one is sought. The number has the places left in
// its low six bits.
fn clear_on(image: &[u64], g: Geometry, n: usize, seek: bool, clear: usize) -> usize
    requires { Sized image.now g
        × (n < g.nodes)
        × (reads image.now (size_at g n) ≤ 64)
        × (reads image.now (locate_at g n) < 2 ^ reads image.now (size_at g n))
        × TellsLeft g (reads image.now) clear }
    ensures { (numbered (result / 64) ≡ or_else (numbered (clear / 64)) (clear_if g (reads image.now) seek (n ∷ [])))
        × TellsLeft g (reads image.now) result }
{
    if !seek {
        return clear;
    }
    if clear != 0 {
        return clear;
    }
    match clear_place(image, g, n) {
        None => 0,
        Some(lowest) => 64 * (64 * n + lowest.place + 1) + lowest.left,
    }
}

// The walk along a frame's path, from a node on. It goes to the path's end also where it has found both places: a malformed node
// below decides. The caller has the frame's fingerprint, and says whether it seeks a clear place, as claims do.
pub fn walk(
    image: &[u64],
    g: Geometry,
    mut level: u64,
    mut n: usize,
    frame: u64,
    print: u64,
    seek: bool,
) -> Result<Trail, Malformed>
    requires { Sized image.now g × (level ≤ 31) × (print ≡ fingerprint (rule_of (reads image.now)) frame) }
    ensures { result ≡ trail_from g (reads image.now) seek level n frame }
{
    let mut found: usize = 0;
    let mut clear: usize = 0;
    loop {
        if !well_formed(image, g, level, n) {
            return Err(Malformed);
        }
        found = found_on(image, g, n, frame, print, found);
        clear = clear_on(image, g, n, seek, clear);
        let Some(below) = step_from(image, g, level, n, frame) else {
            return Ok(Trail {
                node: n,
                level,
                found: seen_by(found),
                clear: seen_by(clear / 64),
                left: clear % 64,
            });
        };
        n = below;
        level += 1;
    }
}

// The walk along a frame's path from a filled slot. Here and below the caller has the frame's fingerprint.
fn walk_from(
    image: &[u64],
    g: Geometry,
    slot: usize,
    frame: u64,
    print: u64,
    seek: bool,
) -> Result<Trail, Malformed>
    requires { Sized image.now g
        × Filled g (reads image.now) slot
        × (print ≡ fingerprint (rule_of (reads image.now)) frame) }
    ensures { result ≡ trail_from g (reads image.now) seek 0 (root_of (reads image.now) slot) frame }
{
    let root = root_of(image, g, slot) as usize;
    walk(image, g, 0, root - 1, frame, print, seek)
}

// The lookup of a frame from a filled slot. It seeks no clear place. The path has a node for each level down to its last node's.
pub fn find(
    image: &[u64],
    g: Geometry,
    slot: usize,
    frame: u64,
    print: u64,
) -> Result<Found, Malformed>
    requires { Sized image.now g
        × Filled g (reads image.now) slot
        × (print ≡ fingerprint (rule_of (reads image.now)) frame) }
    ensures { result ≡ found_from g (reads image.now) slot frame }
{
    let trail = walk_from(image, g, slot, frame, print, false)?;
    Ok(Found {
        found: trail.found,
        nodes: trail.level + 1,
    })
}

// The room on a path: the first clear place, or else its last node decides. That is full then: scaled up, it has as many
// places more as it had, and one of them is taken.
fn room_at(
    image: &[u64],
    g: Geometry,
    level: u64,
    n: usize,
    clear: Option<Spot>,
    left: usize,
) -> Vacancy
    requires { Sized image.now g × (n < g.nodes) × (0 < reads image.now (size_at g n)) }
    ensures { result ≡ vacancy_in left (room_at g (reads image.now) level n (spot_of clear)) }
{
    if let Some(spot) = clear {
        return Vacancy {
            room: Room::Clear(spot),
            left: left as u64,
        };
    }
    let size = word_of(image, g, n, SIZE);
    if size < 64 {
        return Vacancy {
            room: Room::ScaleUp { node: n, size },
            left: size - 1,
        };
    }
    Vacancy {
        room: Room::BranchOut {
            parent: n,
            depth: level,
        },
        left: 63,
    }
}

// Does a path end full at level 31?
fn at_level_31(room: Room) -> bool
    ensures { result ≡ at_level31 room }
{
    matches!(room, Room::BranchOut { depth: 31, .. })
}

// What a claim finds, by the room on the path and what the lookup found there.
fn placement_as(vacancy: Vacancy, found: Option<Spot>) -> Result<Vacancy, NoVacancy>
    ensures { result ≡ placement_as vacancy (spot_of found) }
{
    if at_level_31(vacancy.room) {
        return Err(NoVacancy::Full);
    }
    if found.is_some() {
        return Err(NoVacancy::Held);
    }
    Ok(vacancy)
}

// What a claim of a frame finds from a filled slot.
pub fn room_for(
    image: &[u64],
    g: Geometry,
    slot: usize,
    frame: u64,
    print: u64,
) -> Result<Vacancy, NoVacancy>
    requires { Sized image.now g
        × Filled g (reads image.now) slot
        × (print ≡ fingerprint (rule_of (reads image.now)) frame) }
    ensures { result ≡ placement_from g (reads image.now) slot frame }
{
    let trail = walk_from(image, g, slot, frame, print, true)?;
    let vacancy = room_at(image, g, trail.level, trail.node, trail.clear, trail.left);
    placement_as(vacancy, trail.found)
}
