// Scripts translated for a module that makes a store lasting only after a flush of its line and a
// barrier: before each barrier one flush for each line stored to since the barrier before.
ghost use Rattle.std.specs.Prelude.{◌≡◌, true, [], ◌∷◌, ◌+◌, ◌*◌, ◌%◌, ◌≤◌, length};
ghost use Rattle.memory.specs.Script.{flush, written};
ghost use Rattle.flushes.specs.Translate.{any_flush, ends_fenced, translated};
ghost use Rattle.flushes.specs.Translate.{translate as translate_words, translation};
ghost use Rattle.flushes.specs.Passes.{elem, line_words, new_flush, line_flushes, piece_of};
ghost use Rattle.flushes.specs.Passes.{entries_in, segment_start, Ours, answer_of, count_of};

use memory::apply::{Refused, is_script};
use memory::script::{BARRIER, FLUSH, put_barrier, put_store};

// The words of the longest script of ours, and those that its translation may take.
const LONGEST: usize = 50;

const ROOM: usize = 98;

// Does an entry of a segment store to the line?
fn holds_line(segment: &[u64], line: u64) -> bool
    ensures { result ≡ elem line (line_words segment.now) }
{
    let (entries, _) = segment.as_chunks::<2>();
    entries.iter().any(|entry| entry[0] / 8 == line)
}

pub fn put_flush(script: &mut [u64], line: u64)
    requires { 2 ≤ length script.old }
    ensures { script.new ≡ written (flush line ∷ []) script.old }
{
    script[0] = FLUSH;
    script[1] = line;
}

// Writes a line's flush, unless the segment before has the line already; answers the words written.
fn put_new(script: &mut [u64], segment: &[u64], line: u64) -> usize
    requires { 2 ≤ length script.old }
    ensures { (result ≡ 2 * length (new_flush segment.now line))
        × (script.new ≡ written (new_flush segment.now line) script.old) }
{
    if holds_line(segment, line) {
        return 0;
    }
    put_flush(script, line);
    2
}

// Writes one flush for each line of a segment, in order of first store; answers the words written.
fn put_flushes(script: &mut [u64], segment: &[u64]) -> usize
    requires { length segment.now ≤ length script.old }
    ensures { (result ≡ 2 * length (line_flushes segment.now))
        × (script.new ≡ written (line_flushes segment.now) script.old) }
{
    let mut used = 0;
    for (k, entry) in segment.as_chunks::<2>().0.iter().enumerate() {
        used += put_new(&mut script[used..], &segment[..2 * k], entry[0] / 8);
    }
    used
}

// Writes what an entry becomes; the segment has the entries since the barrier before. Answers the
// words written.
fn put_piece(script: &mut [u64], segment: &[u64], index: u64, value: u64) -> usize
    requires { length segment.now + 2 ≤ length script.old }
    ensures { (result ≡ 2 * length (piece_of segment.now index value))
        × (script.new ≡ written (piece_of segment.now index value) script.old) }
{
    if index == BARRIER {
        let used = put_flushes(script, segment);
        put_barrier(&mut script[used..]);
        return used + 2;
    }
    put_store(script, index, value);
    2
}

// Where the segment of the next entry starts.
fn segment_start(index: u64, start: usize, next: usize) -> usize
    ensures { result ≡ segment_start index start next }
{
    if index == BARRIER { next } else { start }
}

// Writes a script's translation; answers the words written.
fn put_translated(buffer: &mut [u64], script: &[u64]) -> usize
    requires { (98 ≤ length buffer.old) × Ours script.now }
    ensures { (result ≡ 2 * length (translated (entries_in script.now)))
        × (buffer.new ≡ written (translated (entries_in script.now)) buffer.old) }
{
    let mut used = 0;
    let mut start = 0;
    for (k, &[index, value]) in script.as_chunks::<2>().0.iter().enumerate() {
        used += put_piece(&mut buffer[used..], &script[start..2 * k], index, value);
        start = segment_start(index, start, 2 * k + 2);
    }
    used
}

// Has a script a flush?
fn has_flush(script: &[u64]) -> bool
    ensures { result ≡ any_flush (entries_in script.now) }
{
    let (entries, _) = script.as_chunks::<2>();
    entries.iter().any(|entry| entry[0] == FLUSH)
}

// Is a script of whole entries empty, or its last entry a barrier?
fn ends_fenced(script: &[u64]) -> bool
    requires { length script.now % 2 ≡ 0 }
    ensures { result ≡ ends_fenced (entries_in script.now) }
{
    let n = script.len();
    n == 0 || script[n - 2] == BARRIER
}

// Translates a script for an image of n words into a buffer of at least 98, or refuses it and
// writes nothing.
pub fn translate(script: &[u64], buffer: &mut [u64], n: usize) -> Result<usize, Refused>
    ensures { translation (answer_of result) (count_of result) buffer.new
        ≡ translate_words n script.now buffer.old }
{
    if buffer.len() < ROOM || script.len() > LONGEST {
        return Err(Refused);
    }
    if !is_script(n, script) || has_flush(script) || !ends_fenced(script) {
        return Err(Refused);
    }
    Ok(put_translated(buffer, script))
}
