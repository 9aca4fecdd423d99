// Writers of script entries, and a count of stores. Each writer writes at the start of the script
// that it borrows; its caller lends the rest on to the next writer, `&mut script[2..]`.
ghost use Rattle.std.specs.Prelude.{◌≡◌, [], ◌∷◌, ◌≤◌, length};
ghost use Rattle.memory.specs.Script.{store, barrier, written, stores_in};

// The word that a barrier has where a store has its index.
pub const BARRIER: u64 = 0xffff_ffff_ffff_ffff;

// The word that a line flush has there.
pub const FLUSH: u64 = 0xffff_ffff_ffff_fffe;

pub fn put_store(script: &mut [u64], index: u64, value: u64)
    requires { 2 ≤ length script.old }
    ensures { script.new ≡ written (store index value ∷ []) script.old }
{
    script[0] = index;
    script[1] = value;
}

pub fn put_barrier(script: &mut [u64])
    requires { 2 ≤ length script.old }
    ensures { script.new ≡ written (barrier ∷ []) script.old }
{
    script[0] = BARRIER;
    script[1] = 0;
}

// A store and the barrier after it.
pub fn put_fenced(script: &mut [u64], index: u64, value: u64)
    requires { 4 ≤ length script.old }
    ensures { script.new ≡ written (store index value ∷ barrier ∷ []) script.old }
{
    put_store(script, index, value);
    put_barrier(&mut script[2..]);
}

// Two stores, each with its barrier: the first lasts before the second is made.
pub fn put_fenced_pair(script: &mut [u64], index: u64, value: u64, index2: u64, value2: u64)
    requires { 8 ≤ length script.old }
    ensures { script.new
        ≡ written (store index value ∷ barrier ∷ store index2 value2 ∷ barrier ∷ []) script.old }
{
    put_fenced(script, index, value);
    put_fenced(&mut script[4..], index2, value2);
}

// How many stores a script has; barriers and flushes are not counted.
pub fn count_stores(script: &[u64]) -> u64
    ensures { result ≡ stores_in script.now }
{
    let (entries, _) = script.as_chunks::<2>();
    entries.iter().filter(|entry| entry[0] < FLUSH).count() as u64
}
