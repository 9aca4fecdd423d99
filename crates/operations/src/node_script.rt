// A node made anew, in a script: Open's root, and the children of a branch-out.
ghost use Rattle.std.specs.Prelude.{◌≡◌, ◌≤◌, ◌<◌, length};
ghost use Rattle.tree.specs.Memory.{stores, written};
ghost use Rattle.book.specs.Perform.{new_node};

use tree::layout::{Geometry, LEVEL, LOCATE, SET, SIZE, node_at};

// The five stores of a node made anew.
pub fn put_node(script: &mut [u64], g: Geometry, n: usize, level: u64, size: u64)
    requires { (10 ≤ length script.old) × (g.slots ≤ 4096) × (n < 65536) }
    ensures { script.new ≡ written (stores (new_node g n level size)) script.old }
{
    let at = node_at(g, n);
    script[0] = at as u64;
    script[1] = 0;
    script[2] = (at + LOCATE) as u64;
    script[3] = 0;
    script[4] = (at + SET) as u64;
    script[5] = 0;
    script[6] = (at + LEVEL) as u64;
    script[7] = level;
    script[8] = (at + SIZE) as u64;
    script[9] = size;
}
