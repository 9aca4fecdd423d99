// Lines collected from pieces of input of any size.
ghost use Rattle.std.specs.Prelude.{◌≡◌, ◌++◌, ◌==◌, ◌≤◌, length, position};
ghost use Rattle.lines.specs.Input.{newline, cut, Takes, TakesLine};

use crate::bytes::Bytes;

// The most bytes that are kept of a line: one more than a line may have, so that one too long is
// still too long when its other bytes are dropped.
pub const KEPT: usize = 81;

// Puts bytes behind those of a line, as far as they are kept.
fn keep(line: &mut Bytes<KEPT>, bytes: &[u8])
    ensures { line.new ≡ cut (line.old ++ bytes.now) }
{
    let kept = line.room().min(bytes.len());
    line.append(&bytes[..kept]);
}

// The place of the first newline.
fn newline_in(piece: &[u8]) -> Option<usize>
    ensures { result ≡ position (λ b. b == newline) piece.now }
{
    piece.iter().position(|b| *b == b'\n')
}

// Takes the bytes of a piece of input up to the next newline behind those of the line so far, and answers what stands behind the
// newline; none, where the piece has no newline and is taken whole.
pub fn take_line<'a>(line: &mut Bytes<KEPT>, piece: &'a [u8]) -> Option<&'a [u8]>
    ensures { TakesLine piece.now line.old result line.new }
{
    let Some(end) = newline_in(piece) else {
        keep(line, piece);
        return None;
    };
    keep(line, &piece[..end]);
    Some(&piece[end + 1..])
}

// What a piece had of a line: how many bytes the line has now, the place in the piece behind them,
// and whether a newline ended the line.
#[derive(Clone, Copy)]
pub struct Taken {
    pub count: usize,
    pub next: usize,
    pub ended: bool,
}

// `take_line` from a place of a piece on, for a line in the first bytes of a buffer of the caller's.
pub fn take_piece(piece: &[u8], at: usize, line: &mut [u8], held: usize) -> Taken
    requires { (at ≤ length piece.now) × (held ≤ 81) × (81 ≤ length line.old) }
    ensures { Takes piece.now at line.old held result line.new }
{
    let mut kept = Bytes::new();
    kept.append(&line[..held]);
    let behind = take_line(&mut kept, &piece[at..]);
    let bytes = kept.as_slice();
    let count = bytes.len();
    line[..count].copy_from_slice(bytes);
    match behind {
        Some(rest) => Taken {
            count,
            next: piece.len() - rest.len(),
            ended: true,
        },
        None => Taken {
            count,
            next: piece.len(),
            ended: false,
        },
    }
}
