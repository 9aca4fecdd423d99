// The path of a frame: how many children a node has, and to which of them the frame goes.
ghost use Rattle.std.specs.Prelude.{◌≡◌, ◌≤◌};
ghost use Rattle.tree.specs.Path.{fanout, child};

// A place of a node.
#[derive(Clone, Copy)]
pub struct Spot {
    pub node: usize,
    pub place: usize,
}

// The lowest clear place of a node, and how many the node has left once it is taken.
#[derive(Clone, Copy)]
pub struct ClearPlace {
    pub place: usize,
    pub left: usize,
}

// Where there is room for a frame on its path.
#[derive(Clone, Copy)]
pub enum Room {
    // The first node of the path with a clear place, and the lowest such place.
    Clear(Spot),
    // The root is the only node, full, with size 16 or 32.
    ScaleUp { node: usize, size: u64 },
    // Every node is full, and the last has size 64.
    BranchOut { parent: usize, depth: u64 },
}

// Two children at levels 0 to 2, four at 3 to 30, none at 31.
#[tactic(auto, unfolding(crate::specs::Path::fanout))]
pub fn fanout(level: u64) -> usize
    ensures { result ≡ fanout level }
{
    match level {
        0..=2 => 2,
        3..=30 => 4,
        _ => 0,
    }
}

// The level's digit of a frame, by a quotient and a remainder: the digits, lowest first, are three of base 2, then of base 4. No
// branch depends on the frame. The one on the level is predicted; a divisor chosen without it would be waited for. In a walk the
// compiler makes that choice if both returns have the quotient first, so the second has the remainder first.
pub fn child(level: u64, frame: u64) -> u64
    requires { level ≤ 31 }
    ensures { result ≡ child level frame }
{
    if level <= 2 {
        return frame / (1 << level) % 2;
    }
    let bits = 2 * level - 3;
    frame % (1 << (bits + 2)) / (1 << bits)
}
