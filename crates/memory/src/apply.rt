// Carrying a script out: one pass that checks its entries, one that makes its stores.
ghost use Rattle.std.specs.Prelude.{◌≡◌, true, length};
ghost use Rattle.memory.specs.Apply.{is_entry, is_script, made_stores, number_of, outcome, carry_out};

use crate::script::{BARRIER, FLUSH};

// A script is refused, or the buffer that its translation was to go to.
#[derive(Clone, Copy, Debug, PartialEq, Eq)]
pub struct Refused;

// Are two words an entry on an image of n words?
fn is_entry(n: usize, index: u64, value: u64) -> bool
    ensures { result ≡ is_entry n index value }
{
    match index {
        BARRIER => value == 0,
        FLUSH => true,
        _ => index < n as u64,
    }
}

// Are all of a script's words whole entries on an image of n words?
pub fn is_script(n: usize, script: &[u64]) -> bool
    ensures { result ≡ is_script n script.now }
{
    let (entries, rest) = script.as_chunks::<2>();
    let all_entries = entries
        .iter()
        .all(|&[index, value]| is_entry(n, index, value));
    all_entries && rest.is_empty()
}

// Makes the stores of a script that was checked.
fn make_stores(image: &mut [u64], script: &[u64])
    requires { is_script (length image.old) script.now ≡ true }
    ensures { image.new ≡ made_stores image.old script.now }
{
    for &[index, value] in script.as_chunks::<2>().0 {
        if index < FLUSH {
            image[index as usize] = value;
        }
    }
}

// Carries a script of whole entries out on an image, or refuses it and writes nothing. It passes no
// barrier: it is for images that need no crash safety while it runs, as in a simulation or a bench.
pub fn apply(image: &mut [u64], script: &[u64]) -> Result<(), Refused>
    ensures { outcome (number_of result) image.new ≡ carry_out image.old script.now }
{
    if !is_script(image.len(), script) {
        return Err(Refused);
    }
    make_stores(image, script);
    Ok(())
}
