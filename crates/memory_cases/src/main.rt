// Executes vectors of the memory layer and prints what came out, one line each. The file stdout
// beside src/ has what they should be.
#![tactic(auto)]

mod print;
mod vectors;

use std::io;

fn main(rt: HostRuntime) -> io::Result<()> {
    vectors::bits(&rt)?;
    vectors::bytes(&rt)?;
    vectors::searches(&rt)?;
    vectors::bitmap_searches(&rt)?;
    vectors::writers(&rt)?;
    vectors::carried_out(&rt)?;
    vectors::flushes(&rt)?;
    vectors::refusals(&rt)
}
